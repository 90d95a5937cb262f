//! The five lists of a program's tables.
ghost use Rattle.std.specs.Prelude.{◌≡◌, ◌++◌, ◌∷◌, [], map, flat_map, filter_map, OnOk, IfOk};
ghost use Rattle.sot_syntax_tree.specs.TreeViews.{declaration_view};
ghost use Rattle.sot_syntax_tree.specs.Formed.{IsFormed};
ghost use Rattle.sot_rules.specs.First.{IsFaultless};
ghost use Rattle.sot_rules.specs.Indexes.{program_in};
ghost use Rattle.sot_typing.specs.Resolved.{a_topic_of, a_plant_of, a_node_of, a_module_of};
ghost use Rattle.sot_typing.specs.Resolved.{topic_info, topic_scalars, plant_seen, plant_table};
ghost use Rattle.sot_typing.specs.Resolved.{node_seen, node_table, module_info, AreTables};
ghost use Rattle.sot_typing.specs.Meant.{AreNumbers};
ghost use Rattle.sot_typing.specs.Fits.{DeclarationFits, AllFit};
ghost use Rattle.sot_typing.specs.TableLists.{AreEmpty, AreLists};

use crate::names::numbers::Number;
use crate::names::places::topic_number;
use crate::tables::rows::{module_info, node_info, plant_info};
use crate::tables::topic::{put_scalars, topic_info};
use sot_lang::{ModuleInfo, NodeInfo, PlantInfo, ScalarInfo, TopicInfo, Typed};
use sot_rules::Index;
use sot_syntax_tree::Decl;
use std::alloc::{AllocError, Global};

/// The five lists, while the tables of declarations are put into them.
#[derive(Drop)]
pub struct Lists {
    pub topics: Vec<TopicInfo>,
    pub scalars: Vec<ScalarInfo>,
    pub plants: Vec<PlantInfo>,
    pub nodes: Vec<NodeInfo>,
    pub modules: Vec<ModuleInfo>,
}

// Each of these puts the tables of one declaration behind the others, and none where it is of
// another sort.

fn put_topic(
    alloc: Global,
    index: &Index,
    numbers: &[Number],
    d: &Decl,
    topics: &mut Vec<TopicInfo>,
) -> Result<(), AllocError>
    requires numbers { AreNumbers index.now numbers.now }
    requires fits { DeclarationFits (program_in index.now) (declaration_view d.now) }
    ensures { OnOk result (topics.new.items
        ≡ topics.old.items ++ map (topic_info (program_in index.now))
        (filter_map a_topic_of (declaration_view d.now ∷ []))) }
{
    match d {
        Decl::Topic(t) => {
            let number = topic_number(index, numbers, &t.name);
            topics.push(topic_info(alloc, t, number.first)?)?;
            Ok(())
        }
        _ => Ok(()),
    }
}

fn put_topic_scalars(
    alloc: Global,
    index: &Index,
    numbers: &[Number],
    d: &Decl,
    scalars: &mut Vec<ScalarInfo>,
) -> Result<(), AllocError>
    requires numbers { AreNumbers index.now numbers.now }
    requires fits { DeclarationFits (program_in index.now) (declaration_view d.now) }
    ensures { OnOk result (scalars.new.items
        ≡ scalars.old.items ++ flat_map (topic_scalars (program_in index.now))
        (filter_map a_topic_of (declaration_view d.now ∷ []))) }
{
    match d {
        Decl::Topic(t) => {
            let number = topic_number(index, numbers, &t.name);
            put_scalars(alloc, number.place, t, scalars)
        }
        _ => Ok(()),
    }
}

fn put_plant<'p>(
    alloc: Global,
    index: &Index<'p>,
    numbers: &[Number],
    d: &'p Decl,
    plants: &mut Vec<PlantInfo>,
) -> Result<(), AllocError>
    requires numbers { AreNumbers index.now numbers.now }
    requires fits { DeclarationFits (program_in index.now) (declaration_view d.now) }
    ensures { OnOk result (map plant_seen plants.new.items
        ≡ map plant_seen plants.old.items
        ++ map (plant_table (program_in index.now))
        (filter_map a_plant_of (declaration_view d.now ∷ []))) }
{
    match d {
        Decl::Plant(q) => {
            plants.push(plant_info(alloc, index, numbers, q.content())?)?;
            Ok(())
        }
        _ => Ok(()),
    }
}

fn put_node<'p>(
    alloc: Global,
    index: &Index<'p>,
    numbers: &[Number],
    d: &'p Decl,
    nodes: &mut Vec<NodeInfo>,
) -> Result<(), AllocError>
    requires numbers { AreNumbers index.now numbers.now }
    requires fits { DeclarationFits (program_in index.now) (declaration_view d.now) }
    ensures { OnOk result (map node_seen nodes.new.items
        ≡ map node_seen nodes.old.items
        ++ map (node_table (program_in index.now))
        (filter_map a_node_of (declaration_view d.now ∷ []))) }
{
    match d {
        Decl::Node(n) => {
            nodes.push(node_info(alloc, index, numbers, n.content())?)?;
            Ok(())
        }
        _ => Ok(()),
    }
}

fn put_module(
    alloc: Global,
    index: &Index,
    numbers: &[Number],
    d: &Decl,
    modules: &mut Vec<ModuleInfo>,
) -> Result<(), AllocError>
    requires numbers { AreNumbers index.now numbers.now }
    requires fits { DeclarationFits (program_in index.now) (declaration_view d.now) }
    ensures { OnOk result (modules.new.items
        ≡ modules.old.items ++ map (module_info (program_in index.now))
        (filter_map a_module_of (declaration_view d.now ∷ []))) }
{
    match d {
        Decl::Module(m) => {
            modules.push(module_info(alloc, index, numbers, m.content())?)?;
            Ok(())
        }
        _ => Ok(()),
    }
}

// Puts the tables of one declaration behind those of its sort.
fn put_declaration<'p>(
    alloc: Global,
    index: &Index<'p>,
    numbers: &[Number],
    d: &'p Decl,
    lists: &mut Lists,
) -> Result<(), AllocError>
    requires numbers { AreNumbers index.now numbers.now }
    requires fits { DeclarationFits (program_in index.now) (declaration_view d.now) }
    ensures topics { OnOk result (lists.new.topics.items
        ≡ lists.old.topics.items ++ map (topic_info (program_in index.now))
        (filter_map a_topic_of (declaration_view d.now ∷ []))) }
    ensures scalars { OnOk result (lists.new.scalars.items
        ≡ lists.old.scalars.items ++ flat_map (topic_scalars (program_in index.now))
        (filter_map a_topic_of (declaration_view d.now ∷ []))) }
    ensures plants { OnOk result (map plant_seen lists.new.plants.items
        ≡ map plant_seen lists.old.plants.items
        ++ map (plant_table (program_in index.now))
        (filter_map a_plant_of (declaration_view d.now ∷ []))) }
    ensures nodes { OnOk result (map node_seen lists.new.nodes.items
        ≡ map node_seen lists.old.nodes.items
        ++ map (node_table (program_in index.now))
        (filter_map a_node_of (declaration_view d.now ∷ []))) }
    ensures modules { OnOk result (lists.new.modules.items
        ≡ lists.old.modules.items ++ map (module_info (program_in index.now))
        (filter_map a_module_of (declaration_view d.now ∷ []))) }
{
    put_topic(alloc, index, numbers, d, &mut lists.topics)?;
    put_topic_scalars(alloc, index, numbers, d, &mut lists.scalars)?;
    put_plant(alloc, index, numbers, d, &mut lists.plants)?;
    put_node(alloc, index, numbers, d, &mut lists.nodes)?;
    put_module(alloc, index, numbers, d, &mut lists.modules)?;
    Ok(())
}

// Puts the tables of all declarations into empty lists.
fn put_declarations(
    alloc: Global,
    index: &Index,
    numbers: &[Number],
    lists: &mut Lists,
) -> Result<(), AllocError>
    requires numbers { AreNumbers index.now numbers.now }
    requires fits { AllFit (program_in index.now) }
    requires empty { AreEmpty lists.old }
    ensures { OnOk result (AreLists (program_in index.now) lists.new) }
{
    let decls = index.decls;
    for d in decls {
        put_declaration(alloc, index, numbers, d, lists)?;
    }
    Ok(())
}

/// The tables of a program of the grammar in which no rule of typing fails, in declared order.
pub fn all_tables(alloc: Global, index: &Index, numbers: &[Number]) -> Result<Typed, AllocError>
    requires numbers { AreNumbers index.now numbers.now }
    requires fits { AllFit (program_in index.now) }
    requires formed { IsFormed (program_in index.now) }
    requires faultless { IsFaultless (program_in index.now) }
    ensures { IfOk result (λ t. AreTables (program_in index.now) t) }
{
    let mut lists = Lists {
        topics: Vec::new(alloc),
        scalars: Vec::new(alloc),
        plants: Vec::new(alloc),
        nodes: Vec::new(alloc),
        modules: Vec::new(alloc),
    };
    put_declarations(alloc, index, numbers, &mut lists)?;
    Ok(Typed {
        topics: lists.topics,
        scalars: lists.scalars,
        plants: lists.plants,
        nodes: lists.nodes,
        modules: lists.modules,
    })
}
