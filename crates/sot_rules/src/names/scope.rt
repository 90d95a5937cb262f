//! The names that an owner may use, and what each of them gives.
ghost use Rattle.std.specs.Prelude.{◌≡◌, [], find, map, slice_index_or};
ghost use Rattle.std.specs.Str.{bytes_eq};
ghost use Rattle.sot_rules.specs.Names.{field_part, part_reading, reading, state_part};
ghost use Rattle.sot_rules.specs.Indexes.{sort_in};
ghost use Rattle.sot_rules.specs.Scopes.{parts_of, kept_parts, names_in, answer, field_in};
ghost use Rattle.sot_rules.specs.Scopes.{reading_of};

use crate::declarations::range::scalar_sort;
use crate::expressions::sort::Sort;
use crate::names::index::state_sort;
use crate::names::things::thing_of;
use sot_names::NameMap;
use sot_syntax_tree::{Field, Ident, StateDecl};
use sot_text::Span;

/// What a name stands for: one number or truth value, or several, whose names are in one of the
/// tables of parts.
#[derive(Clone, Copy)]
pub enum Kept {
    Alone(Sort),
    Several(usize),
}

/// The parts of a declaration. A few of them are looked at one by one, and many are in a table by
/// their names.
#[derive(Drop)]
pub enum PartTable<'p> {
    Nothing,
    Fields(&'p [Field]),
    States(&'p [StateDecl]),
    Table(Box<NameMap<'p, Sort>>),
}

/// What an owner's names stand for: of the first few in a list, and of the others in a table.
#[derive(Drop)]
pub struct Things<'p> {
    pub few: Vec<(&'p [u8], Kept)>,
    pub many: NameMap<'p, Kept>,
}

/// The names that some expressions may use.
#[derive(Drop)]
pub struct Names<'t, 'p> {
    pub tables: &'t [PartTable<'p>],
    pub things: Things<'p>,
}

/// The names that a node's statements use: those that its expressions read, its locals, and the
/// topics that it writes.
#[derive(Drop)]
pub struct Scope<'t, 'p> {
    pub read: Names<'t, 'p>,
    pub local: Names<'t, 'p>,
    pub written: Names<'t, 'p>,
}

// The sort of the first field of a name.
fn field_sort(fields: &[Field], name: &[u8]) -> Option<Sort>
    ensures { result ≡ sort_in (map field_part fields.now) name.now }
{
    for f in fields {
        if name == f.name.name.as_bytes() {
            return Some(scalar_sort(f.scalar));
        }
    }
    None
}

// The sort of the first state variable of a name.
fn variable_sort(states: &[StateDecl], name: &[u8]) -> Option<Sort>
    ensures { result ≡ sort_in (map state_part states.now) name.now }
{
    for s in states {
        if name == s.name.name.as_bytes() {
            return Some(state_sort(s));
        }
    }
    None
}

fn part_sort(table: &PartTable, name: &[u8]) -> Option<Sort>
    ensures { result ≡ sort_in (parts_of table.now) name.now }
{
    match table {
        PartTable::Nothing => None,
        PartTable::Fields(fields) => field_sort(fields, name),
        PartTable::States(states) => variable_sort(states, name),
        PartTable::Table(parts) => parts.get(name).copied(),
    }
}

// The sort of a part, or the place of its name.
fn part(table: &PartTable, field: &Ident) -> Result<Sort, Span>
    ensures { answer result ≡ part_reading field.now
        (find (λ x. bytes_eq field.now.name x.name) (parts_of table.now)) }
{
    match part_sort(table, field.name.as_bytes()) {
        None => Err(field.at),
        Some(s) => Ok(s),
    }
}

fn part_of(tables: &[PartTable], k: usize, field: &Ident) -> Result<Sort, Span>
    ensures { answer result ≡ part_reading field.now
        (find (λ x. bytes_eq field.now.name x.name)
        (slice_index_or (map parts_of tables.now) k [])) }
{
    if k < tables.len() {
        part(&tables[k], field)
    } else {
        Err(field.at)
    }
}

fn reading_of(
    tables: &[PartTable],
    kept: Option<Kept>,
    first: &Ident,
    field: Option<&Ident>,
) -> Result<Sort, Span>
    ensures { answer result ≡ reading_of
        (kept_parts (map parts_of tables.now)) first.now (field_in field.entry) kept }
{
    match kept {
        None => Err(first.at),
        Some(Kept::Alone(s)) => match field {
            None => Ok(s),
            Some(f) => Err(f.at),
        },
        Some(Kept::Several(k)) => match field {
            None => Err(first.at),
            Some(f) => part_of(tables, k, f),
        },
    }
}

/// What a name gives, or the place where it is at fault.
#[tactic(auto, unfolding(crate::specs::Scopes::names_in))]
pub fn reading(names: &Names, first: &Ident, field: Option<&Ident>) -> Result<Sort, Span>
    ensures { answer result ≡ reading (names_in names.now) first.now (field_in field.entry) }
{
    let kept = thing_of(&names.things, first.name.as_bytes());
    reading_of(names.tables, kept, first, field)
}
