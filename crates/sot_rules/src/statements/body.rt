//! The faults of a node's body.
ghost use Rattle.std.specs.Prelude.{◌≡◌, true, Some, OnOk};
ghost use Rattle.sot_syntax_tree.specs.TreeViews.{block_view, node_view};
ghost use Rattle.sot_rules.specs.Names.{Scope as Known, node_scope};
ghost use Rattle.sot_rules.specs.Tests.{block_unrolled};
ghost use Rattle.sot_rules.specs.Faults.{body_faults, least, past};
ghost use Rattle.sot_rules.specs.Scopes.{scope_in};
ghost use Rattle.sot_rules.specs.Indexes.{program_in, IsIndex};

use crate::fault::{TypeFault, TypeKind, note};
use crate::names::index::Index;
use crate::names::owner::node_scope;
use crate::names::scope::Scope;
use crate::statements::behind::is_block_behind;
use crate::statements::statement::block;
use crate::statements::unrolled::{Reached, reach_block};
use sot_syntax_tree::{NodeDecl, Stmt};
use std::alloc::{AllocError, Global};

// The first statement past 10,000.
fn note_many(body: &[Stmt], first: &mut Option<TypeFault>)
    ensures { first.new ≡ least first.old (past 10000 (block_unrolled (block_view body.now))) }
{
    match reach_block(body, 10_000) {
        Reached::At(at) => note(first, true, at, TypeKind::TooMany),
        Reached::Left(_) => {}
    }
}

// The statements of a body, and their count.
#[tactic(auto, using(crate::proofs::Least::least_append))]
fn note_block(body: &[Stmt], scope: &Scope, first: &mut Option<TypeFault>)
    ensures { first.new ≡ least first.old
        (body_faults (scope_in scope.now) (Some (block_view body.now))) }
{
    block(body, scope, first);
    note_many(body, first);
}

// Whether all of a body stands behind the first fault. Then no fault of it is the first.
fn is_body_past(body: &[Stmt], first: Option<TypeFault>) -> bool
    ensures { result ≡ true → (s : Known) → least first
        (body_faults s (Some (block_view body.now))) ≡ first }
{
    match first {
        None => false,
        Some(f) => is_block_behind(body, f.at),
    }
}

/// The statements of a node, and their count with loops unrolled.
pub fn note_body<'p>(
    alloc: Global,
    index: &Index<'p>,
    n: &'p NodeDecl,
    first: &mut Option<TypeFault>,
) -> Result<(), AllocError>
    requires { IsIndex index.now }
    ensures { OnOk result (first.new
        ≡ least first.old (body_faults (node_scope (program_in index.now) (node_view n.now))
        (node_view n.now).body)) }
{
    match &n.body {
        None => Ok(()),
        Some(body) => {
            if is_body_past(body, *first) {
                return Ok(());
            }
            let scope = node_scope(alloc, index, n)?;
            note_block(body, &scope, first);
            drop(scope);
            Ok(())
        }
    }
}
