//! The faults of a plant.
ghost use Rattle.std.specs.Prelude.{◌≡◌, ◌++◌, [], flat_map, true, false, IfOk, OnOk};
ghost use Rattle.sot_syntax_tree.specs.Trees.{Plant};
ghost use Rattle.sot_syntax_tree.specs.TreeViews.{plant_view};
ghost use Rattle.sot_rules.specs.Tests.{state_names};
ghost use Rattle.sot_rules.specs.Faults.{least, together, scale_faults, input_faults, seen_lists};
ghost use Rattle.sot_rules.specs.Faults.{noise_lists, plant_lists};
ghost use Rattle.sot_names.specs.NameSets.{keys_in};
ghost use Rattle.sot_names.specs.SeenNames.{HasNames};
ghost use Rattle.sot_rules.specs.Indexes.{program_in, IsIndex};
ghost use Rattle.sot_rules.specs.Groups.{states_faults, inputs_faults, some_inputs_faults};
ghost use Rattle.sot_rules.specs.Groups.{sees_faults, disturbances_faults};

use crate::declarations::behind::is_noise_behind;
use crate::declarations::limit::{note_passes, note_past};
use crate::declarations::next::note_nexts;
use crate::declarations::range::{note_scalar, scalar_sort};
use crate::expressions::sort::{is_no_scale, is_truthful};
use crate::fault::{TypeFault, TypeKind, note, stands_behind};
use crate::names::behind::{FRONT, are_names_behind};
use crate::names::index::Index;
use crate::names::meaning::{is_neither, is_plant, is_topic};
use crate::names::repeats::{note_repeated_names, note_repeats};
use sot_names::{
    FEW, NameHasher, NameKey, NameSet, add_names, are_same, has_name, hasher_beyond_few, no_name,
};
use sot_syntax_tree::{Field, Ident, Lit, PlantDecl, StateDecl};
use std::alloc::{AllocError, Global};

fn note_scale(scale: Option<Lit>, first: &mut Option<TypeFault>)
    ensures { first.new ≡ least first.old (scale_faults scale) }
{
    if let Some(d) = scale {
        note(first, is_no_scale(d), d.at, TypeKind::ScaleDiffers);
    }
}

fn note_scales(states: &[StateDecl], first: &mut Option<TypeFault>)
    ensures { first.new ≡ least first.old (flat_map (λ s. scale_faults s.scale) states.now) }
{
    for state in states {
        note_scale(state.scale, first);
    }
}

// The state variables of a plant.
#[tactic(auto, using(crate::proofs::Least::least_append))]
fn note_states(
    alloc: Global,
    states: &[StateDecl],
    first: &mut Option<TypeFault>,
) -> Result<(), AllocError>
    ensures { OnOk result (first.new ≡ least first.old (states_faults states.now)) }
{
    note_repeats(alloc, states, first)?;
    note_past(4, states, first);
    note_scales(states, first);
    Ok(())
}

// A name among a plant's inputs, where a set has those of its state variables. It is not looked up
// behind the first fault.
#[tactic(auto, using(crate::proofs::Least::least_append))]
fn note_input(index: &Index, states: &NameSet, name: &Ident, first: &mut Option<TypeFault>)
    requires { IsIndex index.now }
    ensures { (q : Plant) → HasNames (keys_in states.now) (state_names q) → first.new
        ≡ least first.old (input_faults (program_in index.now) q name.now) }
{
    if stands_behind(*first, name.at) {
        return;
    }
    let meant = index.meaning(name);
    note(first, !is_topic(meant), name.at, TypeKind::Unknown);
    let is_state = has_name(states, name);
    note(first, is_topic(meant) && is_state, name.at, TypeKind::Twice);
}

fn note_input_names(index: &Index, states: &NameSet, names: &[Ident], first: &mut Option<TypeFault>)
    requires { IsIndex index.now }
    ensures { (q : Plant) → HasNames (keys_in states.now) (state_names q) → first.new
        ≡ least first.old (flat_map (input_faults (program_in index.now) q) names.now) }
{
    for name in names {
        note_input(index, states, name, first);
    }
}

// Some of the inputs of a plant, where a set has the names of its state variables.
fn note_some_inputs(
    alloc: Global,
    index: &Index,
    states: &NameSet,
    names: &[Ident],
    first: &mut Option<TypeFault>,
) -> Result<(), AllocError>
    requires { IsIndex index.now }
    ensures { OnOk result ((q : Plant) → HasNames (keys_in states.now) (state_names q) → first.new
        ≡ least first.old (some_inputs_faults (program_in index.now) q names.now)) }
{
    note_input_names(index, states, names, first);
    note_repeated_names(alloc, names, first)?;
    note_passes(index, false, 8, names, first);
    Ok(())
}

// Where a plant has many inputs: what the first of them show, if the others stand behind their
// first fault.
fn note_front_inputs(
    alloc: Global,
    index: &Index,
    states: &NameSet,
    names: &[Ident],
    first: &mut Option<TypeFault>,
) -> Result<bool, AllocError>
    requires { IsIndex index.now }
    ensures all { IfOk result (λ all. all ≡ true → (q : Plant)
        → HasNames (keys_in states.now) (state_names q)
        → first.new ≡ least first.old (some_inputs_faults (program_in index.now) q names.now)) }
    ensures none { IfOk result (λ all. all ≡ false → first.new ≡ first.old) }
{
    if names.len() <= FRONT {
        return Ok(false);
    }
    let (front, rest) = names.split_at(FRONT);
    let mut found = *first;
    note_some_inputs(alloc, index, states, front, &mut found)?;
    let Some(fault) = found else {
        return Ok(false);
    };
    let settled = are_names_behind(rest, fault.at);
    if settled {
        *first = found;
    }
    Ok(settled)
}

// The inputs of a plant, where a set has the names of its state variables.
fn note_inputs(
    alloc: Global,
    index: &Index,
    states: &NameSet,
    q: &PlantDecl,
    first: &mut Option<TypeFault>,
) -> Result<(), AllocError>
    requires indexed { IsIndex index.now }
    requires states { HasNames (keys_in states.now) (state_names (plant_view q.now)) }
    ensures { OnOk result (first.new
        ≡ least first.old (inputs_faults (program_in index.now) (plant_view q.now))) }
{
    if note_front_inputs(alloc, index, states, &q.inputs, first)? {
        return Ok(());
    }
    note_some_inputs(alloc, index, states, &q.inputs, first)
}

// A name among the plants that a plant sees, where a set has the names of its state variables. It
// is not looked up behind the first fault.
#[tactic(auto, using(crate::proofs::Least::least_append))]
fn note_seen(
    index: &Index,
    states: &NameSet,
    q: &PlantDecl,
    name: &Ident,
    first: &mut Option<TypeFault>,
)
    requires indexed { IsIndex index.now }
    requires states { HasNames (keys_in states.now) (state_names (plant_view q.now)) }
    ensures { first.new ≡ least first.old
        (together (seen_lists (program_in index.now) (plant_view q.now) name.now)) }
{
    if stands_behind(*first, name.at) {
        return;
    }
    let meant = index.meaning(name);
    let is_own = are_same(name, &q.name);
    let is_state = has_name(states, name);
    note(first, is_neither(meant), name.at, TypeKind::Unknown);
    note(first, is_topic(meant), name.at, TypeKind::KindDiffers);
    note(
        first,
        is_plant(meant) && is_own,
        name.at,
        TypeKind::KindDiffers,
    );
    note(
        first,
        is_plant(meant) && (!is_own && is_state),
        name.at,
        TypeKind::Twice,
    );
}

fn note_seen_names(
    index: &Index,
    states: &NameSet,
    q: &PlantDecl,
    names: &[Ident],
    first: &mut Option<TypeFault>,
)
    requires indexed { IsIndex index.now }
    requires states { HasNames (keys_in states.now) (state_names (plant_view q.now)) }
    ensures { first.new ≡ least first.old
        (flat_map (λ i. together
        (seen_lists (program_in index.now) (plant_view q.now) i)) names.now) }
{
    for name in names {
        note_seen(index, states, q, name, first);
    }
}

// The plants that a plant sees, where a set has the names of its state variables.
fn note_sees(
    alloc: Global,
    index: &Index,
    states: &NameSet,
    q: &PlantDecl,
    first: &mut Option<TypeFault>,
) -> Result<(), AllocError>
    requires indexed { IsIndex index.now }
    requires states { HasNames (keys_in states.now) (state_names (plant_view q.now)) }
    ensures { OnOk result (first.new
        ≡ least first.old (sees_faults (program_in index.now) (plant_view q.now))) }
{
    note_seen_names(index, states, q, &q.sees, first);
    note_repeated_names(alloc, &q.sees, first)?;
    note_past(16, &q.sees, first);
    Ok(())
}

// What a plant takes in and sees, with a set that is to have the names of its state variables.
fn note_taken_beside<'p>(
    alloc: Global,
    index: &Index,
    states: &mut NameSet<'p>,
    q: &'p PlantDecl,
    first: &mut Option<TypeFault>,
) -> Result<(), AllocError>
    requires indexed { IsIndex index.now }
    requires empty { HasNames (keys_in states.old) [] }
    ensures { OnOk result (first.new
        ≡ least first.old (inputs_faults (program_in index.now) (plant_view q.now)
        ++ sees_faults (program_in index.now) (plant_view q.now))) }
{
    add_names(states, &q.states)?;
    note_inputs(alloc, index, states, q, first)?;
    note_sees(alloc, index, states, q, first)?;
    Ok(())
}

// What a plant takes in and sees.
fn note_taken(
    alloc: Global,
    index: &Index,
    q: &PlantDecl,
    first: &mut Option<TypeFault>,
) -> Result<(), AllocError>
    requires { IsIndex index.now }
    ensures { OnOk result (first.new
        ≡ least first.old (inputs_faults (program_in index.now) (plant_view q.now)
        ++ sees_faults (program_in index.now) (plant_view q.now))) }
{
    let mut states = no_name(alloc, hasher_beyond_few(&q.states));
    let noted = note_taken_beside(alloc, index, &mut states, q, first);
    drop(states);
    noted
}

// A disturbance, where a set has the names that its plant uses.
#[tactic(auto, using(crate::proofs::Least::least_append))]
fn note_disturbance(used: &NameSet, f: &Field, first: &mut Option<TypeFault>)
    ensures { (q : Plant) → HasNames (keys_in used.now) (state_names q ++ q.inputs ++ q.sees)
        → first.new ≡ least first.old (together (noise_lists q f.now)) }
{
    note(first, has_name(used, &f.name), f.name.at, TypeKind::Twice);
    let is_truth = is_truthful(scalar_sort(f.scalar));
    note(first, is_truth, f.name.at, TypeKind::KindDiffers);
    note_scalar(true, f.scalar, first);
}

fn note_disturbances(used: &NameSet, noise: &[Field], first: &mut Option<TypeFault>)
    ensures { (q : Plant) → HasNames (keys_in used.now) (state_names q ++ q.inputs ++ q.sees)
        → first.new ≡ least first.old (flat_map (λ f. together (noise_lists q f)) noise.now) }
{
    for f in noise {
        note_disturbance(used, f, first);
    }
}

// The hasher of what a plant uses beside its disturbances.
fn used_hasher(q: &PlantDecl) -> NameHasher {
    let taken = q.states.len().saturating_add(q.inputs.len());
    if taken.saturating_add(q.sees.len()) <= FEW {
        return NameHasher::of_none();
    }
    let mut key = NameKey::new();
    key.take_all(&q.states);
    key.take_all(&q.inputs);
    key.take_all(&q.sees);
    key.hasher()
}

// The disturbances of a plant, with a set that is to have what the plant uses beside them.
fn note_noise_beside<'p>(
    alloc: Global,
    used: &mut NameSet<'p>,
    q: &'p PlantDecl,
    first: &mut Option<TypeFault>,
) -> Result<(), AllocError>
    requires { HasNames (keys_in used.old) [] }
    ensures { OnOk result (first.new ≡ least first.old (disturbances_faults (plant_view q.now))) }
{
    add_names(used, &q.states)?;
    add_names(used, &q.inputs)?;
    add_names(used, &q.sees)?;
    note_disturbances(used, &q.noise, first);
    note_repeats(alloc, &q.noise, first)?;
    note_past(4, &q.noise, first);
    Ok(())
}

// Whether the disturbances of a plant stand behind the first fault. Then no fault of them is the
// first.
fn is_noise_past(q: &PlantDecl, first: Option<TypeFault>) -> bool
    ensures { result ≡ true → least first (disturbances_faults (plant_view q.now)) ≡ first }
{
    match first {
        None => false,
        Some(f) => is_noise_behind(&q.noise, f.at),
    }
}

// The disturbances of a plant.
fn note_noise(alloc: Global, q: &PlantDecl, first: &mut Option<TypeFault>) -> Result<(), AllocError>
    ensures { OnOk result (first.new ≡ least first.old (disturbances_faults (plant_view q.now))) }
{
    if q.noise.len() == 0 {
        return Ok(());
    }
    if is_noise_past(q, *first) {
        return Ok(());
    }
    let mut used = no_name(alloc, used_hasher(q));
    let noted = note_noise_beside(alloc, &mut used, q, first);
    drop(used);
    noted
}

/// A plant: its module, its state variables, what it takes in and sees, its disturbances and its
/// `next` clauses.
pub fn note_plant<'p>(
    alloc: Global,
    index: &Index<'p>,
    q: &'p PlantDecl,
    first: &mut Option<TypeFault>,
) -> Result<(), AllocError>
    requires { IsIndex index.now }
    ensures { OnOk result (first.new
        ≡ least first.old (together (plant_lists (program_in index.now) (plant_view q.now)))) }
{
    let is_lone = !index.has_module(&q.name);
    note(first, is_lone, q.name.at, TypeKind::NoModule);
    note_states(alloc, &q.states, first)?;
    note_taken(alloc, index, q, first)?;
    note_noise(alloc, q, first)?;
    note_nexts(alloc, index, q, first)?;
    Ok(())
}
