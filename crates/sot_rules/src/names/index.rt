//! The declarations of a program by their names.
ghost use Rattle.std.specs.Prelude.{◌≡◌, ◌++◌, ◌∷◌, [], ◌||◌, ◌<◌, true, ℕ, List, length, is_some};
ghost use Rattle.std.specs.Prelude.{map, position, slice_get, Option, option_map, IfOk, OnOk};
ghost use Rattle.std.specs.Prelude.{IfSome};
ghost use Rattle.sot_syntax_tree.specs.Trees.{Declaration};
ghost use Rattle.sot_syntax_tree.specs.TreeViews.{declaration_view, program_view};
ghost use Rattle.sot_rules.specs.Names.{declared_name, field_part, meaning, state_part};
ghost use Rattle.sot_rules.specs.Sorts.{state_sort};
ghost use Rattle.sot_rules.specs.Faults.{repeats};
ghost use Rattle.sot_rules.specs.Tests.{has_module, is_plant_of};
ghost use Rattle.sot_names.specs.NameTables.{found};
ghost use Rattle.sot_rules.specs.Scopes.{parts_of};
ghost use Rattle.sot_rules.specs.Indexes.{program_in, is_named, is_key, declared_parts, sort_in};
ghost use Rattle.sot_rules.specs.Indexes.{Indexes, IsIndex};

use crate::declarations::range::scalar_sort;
use crate::expressions::sort::{Sort, scale_sort};
use crate::names::scope::PartTable;
use indexmap::{IndexMap, IndexSet};
use sot_names::{FEW, NameHasher, NameKey, NameKeys, NameMap, add_value, declared_name, hasher_of};
use sot_syntax_tree::{Decl, Field, Ident, Program, Shape, StateDecl};
use std::alloc::{AllocError, Global};

/// The declarations of a program by their names, with the parts of those that have several.
#[derive(Drop)]
pub struct Index<'p> {
    pub decls: &'p [Decl],
    /// The place of the first declaration of each name.
    pub places: NameMap<'p, usize>,
    /// The plants that modules name as their own.
    pub owned: NameKeys<'p>,
    /// For each declaration the fields of its record or its state variables, and nothing for any
    /// other one.
    pub parts: Vec<PartTable<'p>>,
}

/// The sort of a state variable.
pub fn state_sort(s: &StateDecl) -> Sort
    ensures { result ≡ state_sort s.now }
{
    match s.scale {
        None => Sort::Scaled(0),
        Some(d) => scale_sort(d),
    }
}

// Adds the fields of a record to an empty table.
fn add_fields<'p>(table: &mut NameMap<'p, Sort>, fields: &'p [Field]) -> Result<(), AllocError>
    requires { (name : List ℕ) → found table.old name ≡ None }
    ensures { OnOk result ((name : List ℕ) → found table.new name
        ≡ sort_in (map field_part fields.now) name) }
{
    for f in fields {
        add_value(table, f.name.name.as_bytes(), scalar_sort(f.scalar))?;
    }
    Ok(())
}

// Many fields of a record, by their names.
fn many_fields<'p>(alloc: Global, fields: &'p [Field]) -> Result<NameMap<'p, Sort>, AllocError>
    ensures { IfOk result (λ t. (name : List ℕ) → found t name
        ≡ sort_in (map field_part fields.now) name) }
{
    let mut table = IndexMap::with_hasher(alloc, hasher_of(fields));
    match add_fields(&mut table, fields) {
        Ok(()) => Ok(table),
        Err(e) => {
            drop(table);
            Err(e)
        }
    }
}

// The fields of a record.
fn field_table<'p>(alloc: Global, fields: &'p [Field]) -> Result<PartTable<'p>, AllocError>
    ensures { IfOk result (λ t. (name : List ℕ) → sort_in (parts_of t) name
        ≡ sort_in (map field_part fields.now) name) }
{
    if fields.len() <= FEW {
        return Ok(PartTable::Fields(fields));
    }
    let table = many_fields(alloc, fields)?;
    let kept = Box::new(alloc, table)?;
    Ok(PartTable::Table(kept))
}

// Adds the state variables of a plant to an empty table.
fn add_parts<'p>(table: &mut NameMap<'p, Sort>, states: &'p [StateDecl]) -> Result<(), AllocError>
    requires { (name : List ℕ) → found table.old name ≡ None }
    ensures { OnOk result ((name : List ℕ) → found table.new name
        ≡ sort_in (map state_part states.now) name) }
{
    for s in states {
        add_value(table, s.name.name.as_bytes(), state_sort(s))?;
    }
    Ok(())
}

// Many state variables of a plant, by their names.
fn many_states<'p>(alloc: Global, states: &'p [StateDecl]) -> Result<NameMap<'p, Sort>, AllocError>
    ensures { IfOk result (λ t. (name : List ℕ) → found t name
        ≡ sort_in (map state_part states.now) name) }
{
    let mut table = IndexMap::with_hasher(alloc, hasher_of(states));
    match add_parts(&mut table, states) {
        Ok(()) => Ok(table),
        Err(e) => {
            drop(table);
            Err(e)
        }
    }
}

// The state variables of a plant.
fn state_table<'p>(alloc: Global, states: &'p [StateDecl]) -> Result<PartTable<'p>, AllocError>
    ensures { IfOk result (λ t. (name : List ℕ) → sort_in (parts_of t) name
        ≡ sort_in (map state_part states.now) name) }
{
    if states.len() <= FEW {
        return Ok(PartTable::States(states));
    }
    let table = many_states(alloc, states)?;
    let kept = Box::new(alloc, table)?;
    Ok(PartTable::Table(kept))
}

// The parts of a declaration that has several.
fn part_table<'p>(alloc: Global, d: &'p Decl) -> Result<PartTable<'p>, AllocError>
    ensures { IfOk result (λ t. (name : List ℕ) → sort_in (parts_of t) name
        ≡ sort_in (declared_parts (declaration_view d.now)) name) }
{
    match d {
        Decl::Topic(t) => match &t.shape {
            Shape::One(_) => Ok(PartTable::Nothing),
            Shape::Fields(fields) => field_table(alloc, fields),
        },
        Decl::Plant(q) => state_table(alloc, &q.content().states),
        _ => Ok(PartTable::Nothing),
    }
}

// The plant that a module names as its own.
fn note_owned<'p>(owned: &mut NameKeys<'p>, d: &'p Decl) -> Result<(), AllocError>
    ensures { OnOk result ((i : Ident) → is_key owned.new.keys i
        ≡ (is_key owned.old.keys i || is_plant_of i (declaration_view d.now))) }
{
    match d {
        Decl::Module(m) => {
            let _ = owned.insert_full(m.content().plant.name.as_bytes())?;
            Ok(())
        }
        _ => Ok(()),
    }
}

// The hasher of the plants that modules name as their own.
fn owned_hasher(decls: &[Decl]) -> NameHasher {
    let mut key = NameKey::new();
    for d in decls {
        if let Decl::Module(m) = d {
            key.take(&m.content().plant);
        }
    }
    key.hasher()
}

impl<'p> Index<'p> {
    /// The index of a program.
    pub fn of(alloc: Global, program: &'p Program) -> Result<Index<'p>, AllocError>
        ensures holds { IfOk result (λ x. IsIndex x) }
        ensures program { IfOk result (λ x. program_in x ≡ program_view program.now) }
    {
        let mut index = Index::none(alloc, &program.decls);
        match index.take_all(alloc, &program.decls) {
            Ok(()) => Ok(index),
            Err(e) => {
                drop(index);
                Err(e)
            }
        }
    }

    // The index of declarations before any of them is taken in.
    fn none(alloc: Global, decls: &'p [Decl]) -> Index<'p>
        ensures held { Indexes [] result }
        ensures decls { result.decls.now ≡ decls.now }
    {
        Index {
            decls,
            places: IndexMap::with_hasher(alloc, hasher_of(decls)),
            owned: IndexSet::with_hasher(alloc, owned_hasher(decls)),
            parts: Vec::new(alloc),
        }
    }

    // All declarations, one after another.
    fn take_all(&mut self, alloc: Global, decls: &'p [Decl]) -> Result<(), AllocError>
        requires { Indexes [] self.old }
        ensures held { OnOk result (Indexes (map declaration_view decls.now) self.new) }
        ensures decls { self.new.decls.now ≡ self.old.decls.now }
    {
        for d in decls {
            self.take_in(alloc, d)?;
        }
        Ok(())
    }

    // One more declaration in the tables.
    fn take_in(&mut self, alloc: Global, d: &'p Decl) -> Result<(), AllocError>
        ensures held { OnOk result
            ((ds : List Declaration) → Indexes ds self.old
            → Indexes (ds ++ declaration_view d.now ∷ []) self.new) }
        ensures decls { self.new.decls.now ≡ self.old.decls.now }
    {
        let place = self.parts.as_slice().len();
        add_value(&mut self.places, declared_name(d).name.as_bytes(), place)?;
        note_owned(&mut self.owned, d)?;
        let table = part_table(alloc, d)?;
        self.parts.push(table)?;
        Ok(())
    }

    /// The place of the first declaration of a name.
    pub fn place(&self, name: &Ident) -> Option<usize>
        requires { IsIndex self.now }
        ensures first { result ≡ position (is_named name.now.name) (program_in self.now).decls }
        ensures known { is_some result ≡ is_some (meaning (program_in self.now) name.now) }
        ensures meant { IfSome result
            (λ k. slice_get (program_in self.now).decls k
            ≡ meaning (program_in self.now) name.now) }
        ensures within { IfSome result (λ k. k < length self.now.decls.now) }
    {
        self.places.get(name.name.as_bytes()).copied()
    }

    /// What a name means: its first declaration.
    pub fn meaning(&self, name: &Ident) -> Option<&'p Decl>
        requires { IsIndex self.now }
        ensures { option_map (λ d. declaration_view d.now) result
            ≡ meaning (program_in self.now) name.now }
    {
        let decls: &'p [Decl] = self.decls;
        match self.place(name) {
            None => None,
            Some(k) => Some(&decls[k]),
        }
    }

    /// Whether each declaration has a name of its own: then the table of places has an entry for
    /// each of them.
    pub fn is_distinct(&self) -> bool
        requires { IsIndex self.now }
        ensures { result ≡ true → repeats [] (map declared_name (program_in self.now).decls) ≡ [] }
    {
        self.places.len() == self.decls.len()
    }

    /// Whether some module names the plant as its own.
    pub fn has_module(&self, name: &Ident) -> bool
        requires { IsIndex self.now }
        ensures { result ≡ has_module (program_in self.now) name.now }
    {
        self.owned.contains(name.name.as_bytes())
    }
}
