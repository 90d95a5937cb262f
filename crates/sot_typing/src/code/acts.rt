//! Statements with places for names.
ghost use Rattle.std.specs.Prelude.{◌≡◌, [], IfOk, None, false, nat_abs};
ghost use Rattle.sot_syntax_tree.specs.TreeViews.{tree_view, statement_view, block_view};
ghost use Rattle.sot_rules.specs.Names.{reading};
ghost use Rattle.sot_rules.specs.TreeSorts.{has_decimals};
ghost use Rattle.sot_rules.specs.Scopes.{field_in};
ghost use Rattle.sot_rules.specs.Tests.{is_off};
ghost use Rattle.sot_rules.specs.Faults.{reading_faults, tree_faults, statement_faults};
ghost use Rattle.sot_rules.specs.Faults.{block_faults};
ghost use Rattle.sot_typing.specs.Formulas.{assigned, published, deed_view, deeds_view};
ghost use Rattle.sot_typing.specs.Terms.{place_of, formula_of, deed_of, deeds_of};
ghost use Rattle.sot_typing.specs.Bodies.{scope_in, IsSmall};

use crate::code::terms::term;
use crate::names::things::{Thing, named};
use sot_lang::Act;
use sot_syntax_tree::{Expr, Ident, Lit, Stmt};
use std::alloc::{AllocError, Global};

/// The names that a node's statements use: those that its expressions read, its locals, and the
/// topics that it writes.
#[derive(Clone, Copy)]
pub struct BodyNames<'t, 'p> {
    pub read: &'t [Thing<'p>],
    pub local: &'t [Thing<'p>],
    pub written: &'t [Thing<'p>],
}

// How many times a block is repeated.
fn count(times: Lit) -> u32
    requires whole { has_decimals times ≡ false }
    requires within { is_off times ≡ false }
    ensures { result ≡ nat_abs times.mantissa }
{
    times.mantissa.unsigned_abs() as u32
}

fn assignment(
    alloc: Global,
    names: &BodyNames,
    target: &Ident,
    value: &Expr,
) -> Result<Act, AllocError>
    requires few { IsSmall (scope_in names.now) }
    requires value { tree_faults (scope_in names.now).read (tree_view value.now) ≡ [] }
    requires target { reading_faults (reading (scope_in names.now).local target.now None) ≡ [] }
    ensures { IfOk result (λ a. deed_view a
        ≡ assigned (place_of (scope_in names.now).local target.now None)
        (formula_of (scope_in names.now).read (tree_view value.now)) target.now.at) }
{
    let made = term(alloc, names.read, value)?;
    Ok(Act::Assign {
        local: named(names.local, target, None).place as u32,
        value: made.into_term(),
        at: target.at,
    })
}

fn publication(
    alloc: Global,
    names: &BodyNames,
    topic: &Ident,
    field: Option<&Ident>,
    value: &Expr,
) -> Result<Act, AllocError>
    requires few { IsSmall (scope_in names.now) }
    requires value { tree_faults (scope_in names.now).read (tree_view value.now) ≡ [] }
    requires target { reading_faults
        (reading (scope_in names.now).written topic.now (field_in field)) ≡ [] }
    ensures { IfOk result (λ a. deed_view a
        ≡ published (place_of (scope_in names.now).written topic.now (field_in field.entry))
        (formula_of (scope_in names.now).read (tree_view value.now)) topic.now.at) }
{
    let made = term(alloc, names.read, value)?;
    Ok(Act::Publish {
        slot: named(names.written, topic, field).place as u32,
        value: made.into_term(),
        at: topic.at,
    })
}

#[cycle(act)]
fn act(alloc: Global, names: &BodyNames, stmt: &Stmt) -> Result<Act, AllocError>
    requires few { IsSmall (scope_in names.now) }
    requires faultless { statement_faults (scope_in names.now) (statement_view stmt.now) ≡ [] }
    ensures { IfOk result (λ a. deed_view a
        ≡ deed_of (scope_in names.now) (statement_view stmt.now)) }
{
    match stmt {
        Stmt::Assign { target, value } => assignment(alloc, names, target, value),
        Stmt::Publish { topic, value } => publication(alloc, names, topic, None, value),
        Stmt::PublishField { place, value } => {
            let member = place.content();
            publication(alloc, names, &member.first, Some(&member.field), value)
        }
        Stmt::If { branch, .. } => {
            let made = term(alloc, names.read, &branch.cond)?;
            let yes = acts(alloc, names, &branch.yes)?;
            let no = acts(alloc, names, &branch.no)?;
            Ok(Act::If {
                cond: made.into_term(),
                yes,
                no,
            })
        }
        Stmt::Repeat { times, body, .. } => {
            let times = count(*times);
            let body = acts(alloc, names, body)?;
            Ok(Act::Repeat { times, body })
        }
    }
}

/// Statements without faults, with places for the names of their node.
#[cycle(act)]
pub fn acts(alloc: Global, names: &BodyNames, stmts: &[Stmt]) -> Result<Vec<Act>, AllocError>
    requires few { IsSmall (scope_in names.now) }
    requires faultless { block_faults (scope_in names.now) (block_view stmts.now) ≡ [] }
    ensures { IfOk result (λ v. deeds_view v.items
        ≡ deeds_of (scope_in names.now) (block_view stmts.now)) }
{
    let mut made = Vec::new(alloc);
    for stmt in stmts {
        let a = act(alloc, names, stmt)?;
        made.push(a)?;
    }
    Ok(made)
}
