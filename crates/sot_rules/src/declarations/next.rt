//! The faults of a plant's `next` clauses.
ghost use Rattle.std.specs.Prelude.{◌≡◌, [], true, length, map, flat_map, nat_lt, slice_get, OnOk};
ghost use Rattle.sot_syntax_tree.specs.Trees.{Program};
ghost use Rattle.sot_syntax_tree.specs.TreeViews.{next_view, plant_view};
ghost use Rattle.sot_rules.specs.declared.fault.TypeKind.TheVariants.{NextMissing};
ghost use Rattle.sot_rules.specs.Tests.{is_state};
ghost use Rattle.sot_rules.specs.Faults.{least, order_faults, when};
ghost use Rattle.sot_rules.specs.Scopes.{names_in, parts_of};
ghost use Rattle.sot_rules.specs.Indexes.{program_in, IsIndex};
ghost use Rattle.sot_rules.specs.Alike.{StandsFor, tables_in};
ghost use Rattle.sot_rules.specs.Nexts.{next_faults_in, nexts_faults};

use crate::declarations::behind::are_nexts_behind;
use crate::expressions::expression::expression;
use crate::fault::{TypeFault, TypeKind, is_behind, note};
use crate::names::gather::add_states;
use crate::names::index::Index;
use crate::names::owner::{add_plant, no_names, plant_hasher};
use crate::names::scope::Names;
use crate::statements::statement::{note_target, reading_alone};
use sot_names::{are_same, hasher_beyond_few};
use sot_syntax_tree::{Ident, NextDecl, PlantDecl, StateDecl};
use sot_text::Span;
use std::alloc::{AllocError, Global};

// A `next` clause, over the names that it uses and those that it may give.
#[tactic(auto, using(crate::proofs::Least::least_append))]
fn note_next(n: &NextDecl, used: &Names, given: &Names, first: &mut Option<TypeFault>)
    ensures { first.new ≡ least first.old
        (next_faults_in (names_in used.now) (names_in given.now) (next_view n.now)) }
{
    let s = expression(&n.value, used, first);
    let wanted = reading_alone(given, &n.name);
    note_target(wanted, s, n.name.at, first);
}

fn note_each(next: &[NextDecl], used: &Names, given: &Names, first: &mut Option<TypeFault>)
    ensures { first.new ≡ least first.old
        (flat_map (next_faults_in (names_in used.now) (names_in given.now))
        (map next_view next.now)) }
{
    for n in next {
        note_next(n, used, given, first);
    }
}

// Whether the state variable at a place has this name.
fn is_state(name: &Ident, states: &[StateDecl], k: usize) -> bool
    ensures { result ≡ is_state name.now (slice_get states.now k) }
{
    if k < states.len() {
        are_same(name, &states[k].name)
    } else {
        false
    }
}

// The clauses that do not give the state variable at their place.
fn note_order(states: &[StateDecl], next: &[NextDecl], first: &mut Option<TypeFault>)
    ensures { first.new ≡ least first.old (order_faults states.now (map next_view next.now)) }
{
    for (k, n) in next.iter().enumerate() {
        let fits = is_state(&n.name, states, k);
        note(first, !fits, n.name.at, TypeKind::NextMissing);
    }
}

// Fewer clauses than state variables.
fn note_short(states: &[StateDecl], next: &[NextDecl], end: Span, first: &mut Option<TypeFault>)
    ensures { first.new ≡ least first.old
        (when (nat_lt (length next.now) (length states.now)) end NextMissing) }
{
    note(first, next.len() < states.len(), end, TypeKind::NextMissing);
}

// The `next` clauses of a plant, with names that are to be those that they use and those that they
// may give.
fn note_nexts_by<'t, 'p>(
    used: &mut Names<'t, 'p>,
    given: &mut Names<'t, 'p>,
    index: &Index<'p>,
    q: &'p PlantDecl,
    first: &mut Option<TypeFault>,
) -> Result<(), AllocError>
    requires indexed { IsIndex index.now }
    requires used_tables { map parts_of used.old.tables.now ≡ tables_in index.now }
    requires given_tables { map parts_of given.old.tables.now ≡ tables_in index.now }
    requires none_used { StandsFor (tables_in index.now) used.old.things [] }
    requires none_given { StandsFor (tables_in index.now) given.old.things [] }
    ensures { OnOk result (first.new
        ≡ least first.old (nexts_faults (program_in index.now) (plant_view q.now))) }
{
    add_plant(&mut used.things, index, q)?;
    add_states(&mut given.things, &q.states)?;
    note_each(&q.next, used, given, first);
    note_order(&q.states, &q.next, first);
    note_short(&q.states, &q.next, q.end, first);
    Ok(())
}

// Whether the `next` clauses of a plant and its end stand behind the first fault. Then no fault of
// the clauses is the first.
fn are_nexts_past(q: &PlantDecl, first: Option<TypeFault>) -> bool
    ensures { result ≡ true → (p : Program)
        → least first (nexts_faults p (plant_view q.now)) ≡ first }
{
    match first {
        None => false,
        Some(f) => is_behind(q.end, f.at) && are_nexts_behind(&q.next, f.at),
    }
}

/// The `next` clauses of a plant: their expressions, and that there is one for each state variable,
/// in order.
pub fn note_nexts<'p>(
    alloc: Global,
    index: &Index<'p>,
    q: &'p PlantDecl,
    first: &mut Option<TypeFault>,
) -> Result<(), AllocError>
    requires { IsIndex index.now }
    ensures { OnOk result (first.new
        ≡ least first.old (nexts_faults (program_in index.now) (plant_view q.now))) }
{
    if are_nexts_past(q, *first) {
        return Ok(());
    }
    let mut used = no_names(alloc, index, plant_hasher(q));
    let mut given = no_names(alloc, index, hasher_beyond_few(&q.states));
    let noted = note_nexts_by(&mut used, &mut given, index, q, first);
    drop(used);
    drop(given);
    noted
}
