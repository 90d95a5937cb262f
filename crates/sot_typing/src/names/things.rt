//! The numbers that an owner's names stand for, and a search among them.
ghost use Rattle.std.specs.Prelude.{◌≡◌, ℕ, ◌≤◌, [], List, length, map, find, true};
ghost use Rattle.std.specs.List.{position_or_len};
ghost use Rattle.std.specs.Str.{bytes_eq};
ghost use Rattle.sot_syntax_tree.specs.declared.tree.Ident.{Ident as AnIdent};
ghost use Rattle.sot_rules.specs.Names.{field_part, state_part, part_reading, parts_reading};
ghost use Rattle.sot_rules.specs.Names.{reading, reading_sort};
ghost use Rattle.sot_rules.specs.Scopes.{field_in};
ghost use Rattle.sot_rules.specs.Faults.{reading_faults};
ghost use Rattle.sot_typing.specs.Terms.{is_meant, parts_references, place_of};
ghost use Rattle.sot_typing.specs.Things.{parts_in, things_in, AreFew};

use sot_rules::{Sort, scalar_sort, state_sort};
use sot_syntax_tree::{Field, Ident, StateDecl};

/// What a name stands for: one number or truth value, the fields of a record, or the state
/// variables of a plant.
#[derive(Clone, Copy)]
pub enum Parts<'p> {
    Alone(Sort),
    Fields(&'p [Field]),
    States(&'p [StateDecl]),
}

/// A name that an owner's expressions or statements use.
#[derive(Clone, Copy)]
pub struct Thing<'p> {
    pub name: &'p Ident,
    pub parts: Parts<'p>,
}

/// What a name gives: its place among the numbers of its owner, and its sort.
#[derive(Clone, Copy)]
pub struct FoundThing {
    pub place: usize,
    pub sort: Sort,
}

fn bytes_of(name: &Ident) -> &[u8]
    ensures { result.now ≡ name.now.name }
{
    name.name.as_bytes()
}

// The first field of this name.
fn field_named(fields: &[Field], name: &Ident) -> FoundThing
    requires { reading_faults
        (part_reading name.now
        (find (λ x. bytes_eq name.now.name x.name) (map field_part fields.now))) ≡ [] }
    ensures place { result.place
        ≡ position_or_len (λ x. bytes_eq name.now.name x.name) (map field_part fields.now) }
    ensures sort { result.sort
        ≡ reading_sort (part_reading name.now
        (find (λ x. bytes_eq name.now.name x.name) (map field_part fields.now))) }
{
    for (place, f) in fields.iter().enumerate() {
        if bytes_of(name) == f.name.name.as_bytes() {
            return FoundThing {
                place,
                sort: scalar_sort(f.scalar),
            };
        }
    }
    unreachable!()
}

// The first state variable of this name.
fn state_named(states: &[StateDecl], name: &Ident) -> FoundThing
    requires { reading_faults
        (part_reading name.now
        (find (λ x. bytes_eq name.now.name x.name) (map state_part states.now))) ≡ [] }
    ensures place { result.place
        ≡ position_or_len (λ x. bytes_eq name.now.name x.name) (map state_part states.now) }
    ensures sort { result.sort
        ≡ reading_sort (part_reading name.now
        (find (λ x. bytes_eq name.now.name x.name) (map state_part states.now))) }
{
    for (place, s) in states.iter().enumerate() {
        if bytes_of(name) == s.name.name.as_bytes() {
            return FoundThing {
                place,
                sort: state_sort(s),
            };
        }
    }
    unreachable!()
}

// What a field, or no field, names among the parts of one thing.
fn part_named(parts: Parts<'_>, field: Option<&Ident>) -> FoundThing
    requires { (i : AnIdent)
        × (reading_faults (parts_reading i (field_in field) (parts_in parts)) ≡ []) }
    ensures place { (i : AnIdent) (name : List ℕ) → bytes_eq i.name name ≡ true → result.place
        ≡ position_or_len (is_meant i (field_in field.entry))
        (parts_references name (parts_in parts.entry)) }
    ensures sort { (i : AnIdent) → result.sort
        ≡ reading_sort (parts_reading i (field_in field.entry) (parts_in parts.entry)) }
{
    match field {
        None => match parts {
            Parts::Alone(sort) => FoundThing { place: 0, sort },
            _ => unreachable!(),
        },
        Some(name) => match parts {
            Parts::Fields(fields) => field_named(fields, name),
            Parts::States(states) => state_named(states, name),
            Parts::Alone(_) => unreachable!(),
        },
    }
}

// How many numbers a thing has.
fn size(parts: Parts<'_>) -> usize
    ensures { (name : List ℕ) → result ≡ length (parts_references name (parts_in parts.entry)) }
{
    match parts {
        Parts::Alone(_) => 1,
        Parts::Fields(fields) => fields.len(),
        Parts::States(states) => states.len(),
    }
}

/// What is named so. An owner has at most 80 numbers where its program has no fault, so the list is
/// searched.
pub fn named(things: &[Thing], first: &Ident, field: Option<&Ident>) -> FoundThing
    requires few { AreFew (things_in things.now) }
    requires known { reading_faults (reading (things_in things.now) first.now (field_in field))
        ≡ [] }
    ensures place { result.place
        ≡ place_of (things_in things.now) first.now (field_in field.entry) }
    ensures sort { result.sort
        ≡ reading_sort (reading (things_in things.now) first.now (field_in field.entry)) }
    ensures within { result.place ≤ 80 }
{
    let mut before: usize = 0;
    for x in things {
        if first.name.as_bytes() == x.name.name.as_bytes() {
            let part = part_named(x.parts, field);
            return FoundThing {
                place: before + part.place,
                sort: part.sort,
            };
        }
        before += size(x.parts);
    }
    unreachable!()
}
