//! Puts the names of an owner's lists behind one another, each with what it stands for.
ghost use Rattle.std.specs.Prelude.{◌≡◌, ◌++◌, OnOk, map, filter_map, option_map};
ghost use Rattle.std.specs.Option.{option_to_list};
ghost use Rattle.sot_syntax_tree.specs.TreeViews.{topic_view, plant_view, local_view};
ghost use Rattle.sot_syntax_tree.specs.TreeViews.{declaration_view};
ghost use Rattle.sot_rules.specs.Names.{meaning, topic_thing, plant_thing, local_thing};
ghost use Rattle.sot_rules.specs.Names.{state_thing, noise_thing};
ghost use Rattle.sot_rules.specs.Indexes.{program_in, IsIndex};
ghost use Rattle.sot_typing.specs.Things.{thing_in, things_in};
ghost use Rattle.sot_rules.specs.NameLists.{thing_of_list};

use crate::names::things::{Parts, Thing};
use sot_rules::{Index, NameList, scalar_sort, state_sort};
use sot_syntax_tree::{Decl, Field, Ident, LocalDecl, PlantDecl, Shape, StateDecl, TopicDecl};
use std::alloc::AllocError;

fn topic_thing(t: &TopicDecl) -> Thing<'_>
    ensures { thing_in result ≡ topic_thing (topic_view t.now) }
{
    let parts = match &t.shape {
        Shape::One(s) => Parts::Alone(scalar_sort(*s)),
        Shape::Fields(fields) => Parts::Fields(fields),
    };
    Thing {
        name: &t.name,
        parts,
    }
}

fn plant_thing(q: &PlantDecl) -> Thing<'_>
    ensures { thing_in result ≡ plant_thing (plant_view q.now) }
{
    Thing {
        name: &q.name,
        parts: Parts::States(&q.states),
    }
}

fn local_thing(l: &LocalDecl) -> Thing<'_>
    ensures { thing_in result ≡ local_thing (local_view l.now) }
{
    Thing {
        name: &l.name,
        parts: Parts::Alone(scalar_sort(l.scalar)),
    }
}

fn state_thing(s: &StateDecl) -> Thing<'_>
    ensures { thing_in result ≡ state_thing s.now }
{
    Thing {
        name: &s.name,
        parts: Parts::Alone(state_sort(s)),
    }
}

fn noise_thing(f: &Field) -> Thing<'_>
    ensures { thing_in result ≡ noise_thing f.now }
{
    Thing {
        name: &f.name,
        parts: Parts::Alone(scalar_sort(f.scalar)),
    }
}

// What a declaration adds to a list of names.
fn thing_of_list<'p>(list: NameList, d: Option<&'p Decl>) -> Option<Thing<'p>>
    ensures { option_map thing_in result
        ≡ thing_of_list list (option_map (λ x. declaration_view x.now) d.entry) }
{
    match d {
        Some(Decl::Topic(t)) => match list {
            NameList::Plants => None,
            _ => Some(topic_thing(t)),
        },
        Some(Decl::Plant(q)) => match list {
            NameList::Topics => None,
            _ => Some(plant_thing(q.content())),
        },
        _ => None,
    }
}

fn add<'p>(things: &mut Vec<Thing<'p>>, thing: Option<Thing<'p>>) -> Result<(), AllocError>
    ensures { OnOk result (things_in things.new.items
        ≡ things_in things.old.items ++ option_to_list (option_map thing_in thing.entry)) }
{
    if let Some(thing) = thing {
        things.push(thing)?;
    }
    Ok(())
}

/// The things that the names of a list mean.
pub fn add_named<'p>(
    things: &mut Vec<Thing<'p>>,
    index: &Index<'p>,
    list: NameList,
    names: &[Ident],
) -> Result<(), AllocError>
    requires { IsIndex index.now }
    ensures { OnOk result (things_in things.new.items
        ≡ things_in things.old.items
        ++ filter_map (λ i. thing_of_list list (meaning (program_in index.now) i)) names.now) }
{
    for name in names {
        let thing = thing_of_list(list, index.meaning(name));
        add(things, thing)?;
    }
    Ok(())
}

pub fn add_locals<'p>(
    things: &mut Vec<Thing<'p>>,
    locals: &'p [LocalDecl],
) -> Result<(), AllocError>
    ensures { OnOk result (things_in things.new.items
        ≡ things_in things.old.items ++ map local_thing (map local_view locals.now)) }
{
    for l in locals {
        add(things, Some(local_thing(l)))?;
    }
    Ok(())
}

pub fn add_states<'p>(
    things: &mut Vec<Thing<'p>>,
    states: &'p [StateDecl],
) -> Result<(), AllocError>
    ensures { OnOk result (things_in things.new.items
        ≡ things_in things.old.items ++ map state_thing states.now) }
{
    for s in states {
        add(things, Some(state_thing(s)))?;
    }
    Ok(())
}

pub fn add_noise<'p>(things: &mut Vec<Thing<'p>>, noise: &'p [Field]) -> Result<(), AllocError>
    ensures { OnOk result (things_in things.new.items
        ≡ things_in things.old.items ++ map noise_thing noise.now) }
{
    for f in noise {
        add(things, Some(noise_thing(f)))?;
    }
    Ok(())
}
