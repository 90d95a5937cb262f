//! The bodies of nodes and the `next` clauses of plants, with places for names.
ghost use Rattle.std.specs.Prelude.{◌≡◌, ◌++◌, [], IfOk, OnOk, All, map, option_map};
ghost use Rattle.sot_syntax_tree.specs.TreeViews.{tree_view, block_view, plant_view, node_view};
ghost use Rattle.sot_rules.specs.Names.{node_scope, plant_scope};
ghost use Rattle.sot_rules.specs.Faults.{together, node_lists, plant_lists, tree_faults};
ghost use Rattle.sot_rules.specs.Faults.{block_faults};
ghost use Rattle.sot_rules.specs.Indexes.{program_in, IsIndex};
ghost use Rattle.sot_typing.specs.Formulas.{formula_view, deeds_view};
ghost use Rattle.sot_typing.specs.Terms.{formula_of, deeds_of};
ghost use Rattle.sot_typing.specs.Things.{things_in, AreFew};
ghost use Rattle.sot_typing.specs.Bodies.{IsSmall};

use crate::code::acts::{BodyNames, acts};
use crate::code::terms::term;
use crate::names::gather::{add_locals, add_named, add_noise, add_states};
use crate::names::things::Thing;
use sot_lang::{Act, Term};
use sot_rules::{Index, NameList};
use sot_syntax_tree::{NextDecl, NodeDecl, PlantDecl, Stmt};
use std::alloc::{AllocError, Global};

// Puts what a node's expressions, its assignments and its publications name into empty lists.
fn add_body_names<'p>(
    read: &mut Vec<Thing<'p>>,
    local: &mut Vec<Thing<'p>>,
    written: &mut Vec<Thing<'p>>,
    index: &Index<'p>,
    n: &'p NodeDecl,
) -> Result<(), AllocError>
    requires indexed { IsIndex index.now }
    requires none_read { read.old.items ≡ [] }
    requires none_local { local.old.items ≡ [] }
    requires none_written { written.old.items ≡ [] }
    ensures read { OnOk result (things_in read.new.items
        ≡ (node_scope (program_in index.now) (node_view n.now)).read) }
    ensures local { OnOk result (things_in local.new.items
        ≡ (node_scope (program_in index.now) (node_view n.now)).local) }
    ensures written { OnOk result (things_in written.new.items
        ≡ (node_scope (program_in index.now) (node_view n.now)).written) }
{
    add_named(read, index, NameList::Both, &n.reads)?;
    add_locals(read, &n.locals)?;
    add_locals(local, &n.locals)?;
    add_named(written, index, NameList::Topics, &n.writes)?;
    Ok(())
}

// Puts what the expressions of a plant name into an empty list: its state variables, its inputs,
// the plants that it sees, and its disturbances.
fn add_plant_names<'p>(
    things: &mut Vec<Thing<'p>>,
    index: &Index<'p>,
    q: &'p PlantDecl,
) -> Result<(), AllocError>
    requires indexed { IsIndex index.now }
    requires none { things.old.items ≡ [] }
    ensures { OnOk result (things_in things.new.items
        ≡ plant_scope (program_in index.now) (plant_view q.now)) }
{
    add_states(things, &q.states)?;
    add_named(things, index, NameList::Topics, &q.inputs)?;
    add_named(things, index, NameList::Plants, &q.sees)?;
    add_noise(things, &q.noise)?;
    Ok(())
}

// The statements of a node.
fn coded_body<'p>(
    alloc: Global,
    index: &Index<'p>,
    n: &'p NodeDecl,
    stmts: &[Stmt],
) -> Result<Vec<Act>, AllocError>
    requires index { IsIndex index.now }
    requires few { IsSmall (node_scope (program_in index.now) (node_view n.now)) }
    requires faultless { block_faults (node_scope (program_in index.now) (node_view n.now))
        (block_view stmts.now) ≡ [] }
    ensures { IfOk result (λ v. deeds_view v.items
        ≡ deeds_of (node_scope (program_in index.now) (node_view n.now)) (block_view stmts.now)) }
{
    let mut read = Vec::new(alloc);
    let mut local = Vec::new(alloc);
    let mut written = Vec::new(alloc);
    add_body_names(&mut read, &mut local, &mut written, index, n)?;
    let names = BodyNames {
        read: &read,
        local: &local,
        written: &written,
    };
    acts(alloc, &names, stmts)
}

/// The body of a node without faults, where it has one.
pub fn node_body<'p>(
    alloc: Global,
    index: &Index<'p>,
    n: &'p NodeDecl,
) -> Result<Option<Vec<Act>>, AllocError>
    requires index { IsIndex index.now }
    requires few { IsSmall (node_scope (program_in index.now) (node_view n.now)) }
    requires faultless { together (node_lists (program_in index.now) (node_view n.now)) ≡ [] }
    ensures { IfOk result (λ body. option_map (λ v. deeds_view v.items) body
        ≡ option_map (deeds_of (node_scope (program_in index.now) (node_view n.now)))
        (node_view n.now).body) }
{
    match &n.body {
        None => Ok(None),
        Some(stmts) => {
            let body = coded_body(alloc, index, n, stmts)?;
            Ok(Some(body))
        }
    }
}

// Puts the values of clauses behind the others.
fn put_terms(
    alloc: Global,
    things: &[Thing],
    clauses: &[NextDecl],
    made: &mut Vec<Term>,
) -> Result<(), AllocError>
    requires few { AreFew (things_in things.now) }
    requires faultless { All (λ n. tree_faults (things_in things.now) (tree_view n.value)
        ≡ []) clauses.now }
    ensures { OnOk result (map formula_view made.new.items
        ≡ map formula_view made.old.items
        ++ map (λ n. formula_of (things_in things.now) (tree_view n.value)) clauses.now) }
{
    for clause in clauses {
        let a = term(alloc, things, &clause.value)?;
        made.push(a.into_term())?;
    }
    Ok(())
}

/// Puts the values that a plant without faults gives its state variables behind the others, in the
/// order of its clauses.
pub fn put_next<'p>(
    alloc: Global,
    index: &Index<'p>,
    q: &'p PlantDecl,
    next: &mut Vec<Term>,
) -> Result<(), AllocError>
    requires index { IsIndex index.now }
    requires few { AreFew (plant_scope (program_in index.now) (plant_view q.now)) }
    requires faultless { together (plant_lists (program_in index.now) (plant_view q.now)) ≡ [] }
    ensures { OnOk result (map formula_view next.new.items
        ≡ map formula_view next.old.items
        ++ map (λ n. formula_of (plant_scope (program_in index.now) (plant_view q.now)) n.value)
        (plant_view q.now).next) }
{
    let mut things = Vec::new(alloc);
    add_plant_names(&mut things, index, q)?;
    put_terms(alloc, &things, &q.next, next)
}
