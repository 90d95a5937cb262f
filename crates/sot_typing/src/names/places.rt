//! The scalars, state variables and declarations that names stand for, by their places in the
//! tables.
ghost use Rattle.std.specs.Prelude.{◌≡◌, ◌+◌, ◌≤◌, ◌++◌, map, flat_map, true, OnOk};
ghost use Rattle.std.specs.List.{All};
ghost use Rattle.sot_rules.specs.Indexes.{program_in};
ghost use Rattle.sot_rules.specs.Names.{meaning, is_topic, is_plant, is_node};
ghost use Rattle.sot_typing.specs.Resolved.{counted_from, scalars_meant, slots_meant, topic_place};
ghost use Rattle.sot_typing.specs.Resolved.{first_scalar, plant_place, node_place};
ghost use Rattle.sot_typing.specs.Meant.{AreNumbers};

use crate::names::lookup::look_up;
use crate::names::numbers::Number;
use sot_lang::Slot;
use sot_rules::{Index, scalar_count};
use sot_syntax_tree::{Decl, Ident};
use std::alloc::AllocError;

// So many scalars, from one on.
fn put_scalars(first: u32, count: usize, scalars: &mut Vec<u32>) -> Result<(), AllocError>
    requires { first + count ≤ 4096 }
    ensures { OnOk result (scalars.new.items ≡ scalars.old.items ++ counted_from first count) }
{
    for i in 0..count {
        scalars.push(first + i as u32)?;
    }
    Ok(())
}

fn put_scalar_slots(first: u32, count: usize, slots: &mut Vec<Slot>) -> Result<(), AllocError>
    requires { first + count ≤ 4096 }
    ensures { OnOk result (slots.new.items
        ≡ slots.old.items ++ map (λ k. Slot.Scalar k) (counted_from first count)) }
{
    for i in 0..count {
        slots.push(Slot::Scalar(first + i as u32))?;
    }
    Ok(())
}

fn put_state_slots(plant: u32, count: usize, slots: &mut Vec<Slot>) -> Result<(), AllocError>
    requires { count ≤ 4 }
    ensures { OnOk result (slots.new.items
        ≡ slots.old.items ++ map (λ v. Slot.State plant v) (counted_from 0 count)) }
{
    for i in 0..count {
        let var = i as u32;
        slots.push(Slot::State { plant, var })?;
    }
    Ok(())
}

// Puts the scalars that a name stands for behind the others: those of a topic, and none for any
// other name.
fn put_scalars_meant(
    index: &Index,
    numbers: &[Number],
    name: &Ident,
    scalars: &mut Vec<u32>,
) -> Result<(), AllocError>
    requires { AreNumbers index.now numbers.now }
    ensures { OnOk result (scalars.new.items
        ≡ scalars.old.items ++ scalars_meant (program_in index.now) name.now) }
{
    let Some(meant) = look_up(index, numbers, name) else {
        return Ok(());
    };
    match meant.decl {
        Decl::Topic(t) => put_scalars(meant.number.first, scalar_count(&t.shape), scalars),
        _ => Ok(()),
    }
}

// Puts what a node reads by a name behind the others: the scalars of a topic, or the state
// variables of a plant.
fn put_slots_meant(
    index: &Index,
    numbers: &[Number],
    name: &Ident,
    slots: &mut Vec<Slot>,
) -> Result<(), AllocError>
    requires { AreNumbers index.now numbers.now }
    ensures { OnOk result (slots.new.items
        ≡ slots.old.items ++ slots_meant (program_in index.now) name.now) }
{
    let Some(meant) = look_up(index, numbers, name) else {
        return Ok(());
    };
    match meant.decl {
        Decl::Topic(t) => put_scalar_slots(meant.number.first, scalar_count(&t.shape), slots),
        Decl::Plant(q) => put_state_slots(meant.number.place, q.content().states.len(), slots),
        _ => Ok(()),
    }
}

/// Puts the scalars that these names stand for behind the others, in order.
pub fn put_all_scalars(
    index: &Index,
    numbers: &[Number],
    names: &[Ident],
    scalars: &mut Vec<u32>,
) -> Result<(), AllocError>
    requires { AreNumbers index.now numbers.now }
    ensures { OnOk result (scalars.new.items
        ≡ scalars.old.items ++ flat_map (scalars_meant (program_in index.now)) names.now) }
{
    for name in names {
        put_scalars_meant(index, numbers, name, scalars)?;
    }
    Ok(())
}

/// Puts the scalars and state variables that these names stand for behind the others, in order.
pub fn put_all_slots(
    index: &Index,
    numbers: &[Number],
    names: &[Ident],
    slots: &mut Vec<Slot>,
) -> Result<(), AllocError>
    requires { AreNumbers index.now numbers.now }
    ensures { OnOk result (slots.new.items
        ≡ slots.old.items ++ flat_map (slots_meant (program_in index.now)) names.now) }
{
    for name in names {
        put_slots_meant(index, numbers, name, slots)?;
    }
    Ok(())
}

/// The number of a topic among the topics, and the place of its first scalar.
pub fn topic_number(index: &Index, numbers: &[Number], name: &Ident) -> Number
    requires numbers { AreNumbers index.now numbers.now }
    requires topic { is_topic (meaning (program_in index.now) name.now) ≡ true }
    ensures place { result.place ≡ topic_place (program_in index.now) name.now }
    ensures first { result.first
        ≡ first_scalar (program_in index.now) (topic_place (program_in index.now) name.now) }
{
    match look_up(index, numbers, name) {
        Some(meant) => meant.number,
        None => unreachable!(),
    }
}

/// The number of a plant among the plants.
pub fn plant_number(index: &Index, numbers: &[Number], name: &Ident) -> u32
    requires numbers { AreNumbers index.now numbers.now }
    requires plant { is_plant (meaning (program_in index.now) name.now) ≡ true }
    ensures { result ≡ plant_place (program_in index.now) name.now }
{
    match look_up(index, numbers, name) {
        Some(meant) => meant.number.place,
        None => unreachable!(),
    }
}

/// The number of a node among the nodes.
pub fn node_number(index: &Index, numbers: &[Number], name: &Ident) -> u32
    requires numbers { AreNumbers index.now numbers.now }
    requires node { is_node (meaning (program_in index.now) name.now) ≡ true }
    ensures { result ≡ node_place (program_in index.now) name.now }
{
    match look_up(index, numbers, name) {
        Some(meant) => meant.number.place,
        None => unreachable!(),
    }
}

/// Puts the numbers of these plants behind the others, in order.
pub fn put_plant_numbers(
    index: &Index,
    numbers: &[Number],
    names: &[Ident],
    plants: &mut Vec<u32>,
) -> Result<(), AllocError>
    requires numbers { AreNumbers index.now numbers.now }
    requires plants { All (λ i. is_plant (meaning (program_in index.now) i) ≡ true) names.now }
    ensures { OnOk result (plants.new.items
        ≡ plants.old.items ++ map (plant_place (program_in index.now)) names.now) }
{
    for name in names {
        plants.push(plant_number(index, numbers, name))?;
    }
    Ok(())
}
