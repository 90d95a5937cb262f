//! The faults of statements, and of a value for a target.
ghost use Rattle.std.specs.Prelude.{◌≡◌, None};
ghost use Rattle.sot_syntax_tree.specs.TreeViews.{statement_view, block_view};
ghost use Rattle.sot_rules.specs.Names.{reading};
ghost use Rattle.sot_rules.specs.Tests.{is_off};
ghost use Rattle.sot_rules.specs.Faults.{least, target_faults, statement_faults, block_faults};
ghost use Rattle.sot_rules.specs.Scopes.{names_in, scope_in, answer};

use crate::expressions::expression::{expression, note_misfits, note_reading};
use crate::expressions::sort::{Sort, are_mixed, differ, has_decimals, is_scaled};
use crate::fault::{TypeFault, TypeKind, note};
use crate::names::scope::{Names, Scope, reading};
use sot_syntax_tree::{Ident, Lit, Stmt};
use sot_text::Span;

/// A value of a sort, for a target.
#[tactic(auto, using(crate::proofs::Least::least_append))]
pub fn note_target(target: Result<Sort, Span>, value: Sort, at: Span, first: &mut Option<TypeFault>)
    ensures { first.new ≡ least first.old (target_faults (answer target) value at) }
{
    let wanted = note_reading(target, first);
    let kind = are_mixed(wanted, value);
    let scale = differ(wanted, value);
    note_misfits(first, kind, scale, at);
}

/// What a name with no field gives.
pub fn reading_alone(names: &Names, first: &Ident) -> Result<Sort, Span>
    ensures { answer result ≡ reading (names_in names.now) first.now None }
{
    reading(names, first, None)
}

/// A whole number that is not 1 to 1,000.
pub fn is_off(l: Lit) -> bool
    ensures { result ≡ is_off l }
{
    l.scale == 0 && (l.mantissa < 1 || l.mantissa > 1000)
}

// The statements of a block.
#[cycle(statement)]
pub fn block(stmts: &[Stmt], scope: &Scope, first: &mut Option<TypeFault>)
    ensures { first.new ≡ least first.old
        (block_faults (scope_in scope.now) (block_view stmts.now)) }
{
    for stmt in stmts {
        statement(stmt, scope, first);
    }
}

#[cycle(statement)]
#[tactic(auto, using(crate::proofs::Least::least_append))]
fn statement(stmt: &Stmt, scope: &Scope, first: &mut Option<TypeFault>)
    ensures { first.new ≡ least first.old
        (statement_faults (scope_in scope.now) (statement_view stmt.now)) }
{
    match stmt {
        Stmt::Assign { target, value } => {
            let s = expression(value, &scope.read, first);
            let wanted = reading_alone(&scope.local, target);
            note_target(wanted, s, target.at, first);
        }
        Stmt::Publish { topic, value } => {
            let s = expression(value, &scope.read, first);
            let wanted = reading_alone(&scope.written, topic);
            note_target(wanted, s, topic.at, first);
        }
        Stmt::PublishField { place, value } => {
            let s = expression(value, &scope.read, first);
            let member = place.content();
            let wanted = reading(&scope.written, &member.first, Some(&member.field));
            note_target(wanted, s, member.first.at, first);
        }
        Stmt::If { branch, at } => {
            let s = expression(&branch.cond, &scope.read, first);
            note(first, is_scaled(s), *at, TypeKind::KindDiffers);
            block(&branch.yes, scope, first);
            block(&branch.no, scope, first);
        }
        Stmt::Repeat { times, body, .. } => {
            note(
                first,
                has_decimals(*times),
                times.at,
                TypeKind::ScaleDiffers,
            );
            note(first, is_off(*times), times.at, TypeKind::PeriodOutside);
            block(body, scope, first);
        }
    }
}
