//! Puts the names of an owner's lists into a table, each with what it stands for.
ghost use Rattle.std.specs.Prelude.{◌≡◌, List, Option, map, OnOk};
ghost use Rattle.std.specs.Option.{option_to_list};
ghost use Rattle.sot_syntax_tree.specs.TreeViews.{declaration_view, local_view, shape_view};
ghost use Rattle.sot_rules.specs.Names.{Part, Thing, meaning, local_thing, noise_thing};
ghost use Rattle.sot_rules.specs.Names.{state_thing};
ghost use Rattle.sot_rules.specs.Indexes.{program_in, IsIndex};
ghost use Rattle.sot_rules.specs.Alike.{Adds, StandsForThing, form_kept, kept_of_list, tables_in};
ghost use Rattle.sot_rules.specs.NameLists.{thing_of_list, things_of_list};

use crate::declarations::range::scalar_sort;
use crate::names::index::{Index, state_sort};
use crate::names::scope::{Kept, Things};
use crate::names::things::add;
use sot_syntax_tree::{Decl, Field, Ident, LocalDecl, Shape, StateDecl};
use std::alloc::AllocError;

/// Which declarations a list of names is of. A name of another one adds nothing.
#[derive(Clone, Copy)]
pub enum NameList {
    Topics,
    Plants,
    Both,
}

fn form_kept(shape: &Shape, k: usize) -> Kept
    ensures { result ≡ form_kept k (shape_view shape.now) }
{
    match shape {
        Shape::One(s) => Kept::Alone(scalar_sort(*s)),
        Shape::Fields(_) => Kept::Several(k),
    }
}

// What is kept of a name that means the declaration at place k.
fn kept_of_list(list: NameList, d: &Decl, k: usize) -> Option<Kept>
    ensures { result ≡ kept_of_list list k (declaration_view d.now) }
{
    match d {
        Decl::Topic(t) => match list {
            NameList::Plants => None,
            _ => Some(form_kept(&t.shape, k)),
        },
        Decl::Plant(_) => match list {
            NameList::Topics => None,
            _ => Some(Kept::Several(k)),
        },
        _ => None,
    }
}

// What a name of a list stands for.
fn kept(index: &Index, list: NameList, name: &Ident) -> Option<Kept>
    requires { IsIndex index.now }
    ensures { StandsForThing (tables_in index.now) name.now.name result
        (thing_of_list list (meaning (program_in index.now) name.now)) }
{
    match index.place(name) {
        None => None,
        Some(k) => kept_of_list(list, &index.decls[k], k),
    }
}

// A name with what it stands for, where that is something.
fn add_kept<'p>(
    things: &mut Things<'p>,
    name: &'p Ident,
    kept: Option<Kept>,
) -> Result<(), AllocError>
    ensures { OnOk result ((tables : List (List Part)) (x : Option Thing)
        → StandsForThing tables name.now.name kept x
        → Adds tables things.old things.new (option_to_list x)) }
{
    match kept {
        None => Ok(()),
        Some(s) => {
            add(things, name.name.as_bytes(), s)?;
            Ok(())
        }
    }
}

/// The names of a list, with what they stand for.
pub fn add_named<'p>(
    things: &mut Things<'p>,
    index: &Index<'p>,
    list: NameList,
    names: &'p [Ident],
) -> Result<(), AllocError>
    requires { IsIndex index.now }
    ensures { OnOk result (Adds (tables_in index.now) things.old things.new
        (things_of_list (program_in index.now) list names.now)) }
{
    for name in names {
        add_kept(things, name, kept(index, list, name))?;
    }
    Ok(())
}

/// The locals of a node.
pub fn add_locals<'p>(things: &mut Things<'p>, locals: &'p [LocalDecl]) -> Result<(), AllocError>
    ensures { OnOk result ((tables : List (List Part))
        → Adds tables things.old things.new (map local_thing (map local_view locals.now))) }
{
    for l in locals {
        add(
            things,
            l.name.name.as_bytes(),
            Kept::Alone(scalar_sort(l.scalar)),
        )?;
    }
    Ok(())
}

/// The state variables of a plant.
pub fn add_states<'p>(things: &mut Things<'p>, states: &'p [StateDecl]) -> Result<(), AllocError>
    ensures { OnOk result ((tables : List (List Part))
        → Adds tables things.old things.new (map state_thing states.now)) }
{
    for s in states {
        add(things, s.name.name.as_bytes(), Kept::Alone(state_sort(s)))?;
    }
    Ok(())
}

/// The disturbances of a plant.
pub fn add_noise<'p>(things: &mut Things<'p>, noise: &'p [Field]) -> Result<(), AllocError>
    ensures { OnOk result ((tables : List (List Part))
        → Adds tables things.old things.new (map noise_thing noise.now)) }
{
    for f in noise {
        add(
            things,
            f.name.name.as_bytes(),
            Kept::Alone(scalar_sort(f.scalar)),
        )?;
    }
    Ok(())
}
