//! The rows of plants, nodes and modules.
ghost use Rattle.std.specs.Prelude.{◌≡◌, ◌≤◌, nat_abs, IfOk, OnOk};
ghost use Rattle.sot_syntax_tree.specs.TreeViews.{plant_view, node_view, module_view};
ghost use Rattle.sot_rules.specs.Indexes.{IsIndex, program_in};
ghost use Rattle.sot_typing.specs.Resolved.{plant_seen, plant_table, node_seen, node_table};
ghost use Rattle.sot_typing.specs.Resolved.{module_info, state_count};
ghost use Rattle.sot_typing.specs.Meant.{AreNumbers};
ghost use Rattle.sot_typing.specs.Fits.{PlantFits, NodeFits, ModuleFits};
ghost use Rattle.sot_typing.specs.TableLists.{bare_plant, bare_node};

use crate::code::bodies::{node_body, put_next};
use crate::names::numbers::Number;
use crate::names::places::{
    node_number, plant_number, put_all_scalars, put_all_slots, put_plant_numbers,
};
use crate::tables::parts::{put_locals, put_noise, put_states};
use crate::tables::region::region;
use sot_lang::{ModuleInfo, NodeInfo, PlantInfo};
use sot_rules::Index;
use sot_syntax_tree::{Decl, Ident, Lit, ModuleDecl, NodeDecl, PlantDecl};
use std::alloc::{AllocError, Global};

// Puts the parts of a plant into the empty lists of its table.
fn put_plant_lists<'p>(
    alloc: Global,
    index: &Index<'p>,
    numbers: &[Number],
    q: &'p PlantDecl,
    info: &mut PlantInfo,
) -> Result<(), AllocError>
    requires numbers { AreNumbers index.now numbers.now }
    requires fits { PlantFits (program_in index.now) (plant_view q.now) }
    requires bare { plant_seen info.old ≡ bare_plant (program_in index.now) (plant_view q.now) }
    ensures { OnOk result (plant_seen info.new
        ≡ plant_table (program_in index.now) (plant_view q.now)) }
{
    put_states(alloc, &q.states, &mut info.states)?;
    put_all_scalars(index, numbers, &q.inputs, &mut info.inputs)?;
    put_plant_numbers(index, numbers, &q.sees, &mut info.sees)?;
    put_noise(alloc, &q.noise, &mut info.noise)?;
    put_next(alloc, index, q, &mut info.next)?;
    Ok(())
}

/// The table of a plant.
pub fn plant_info<'p>(
    alloc: Global,
    index: &Index<'p>,
    numbers: &[Number],
    q: &'p PlantDecl,
) -> Result<PlantInfo, AllocError>
    requires numbers { AreNumbers index.now numbers.now }
    requires fits { PlantFits (program_in index.now) (plant_view q.now) }
    ensures { IfOk result (λ i. plant_seen i
        ≡ plant_table (program_in index.now) (plant_view q.now)) }
{
    let mut info = PlantInfo {
        name: q.name.name.copy(alloc)?,
        states: Vec::new(alloc),
        inputs: Vec::new(alloc),
        sees: Vec::new(alloc),
        noise: Vec::new(alloc),
        next: Vec::new(alloc),
    };
    put_plant_lists(alloc, index, numbers, q, &mut info)?;
    Ok(info)
}

// A count of ticks.
fn ticks(l: Lit) -> u32
    requires { nat_abs l.mantissa ≤ 1000 }
    ensures { result ≡ nat_abs l.mantissa }
{
    l.mantissa.unsigned_abs() as u32
}

// Puts what a node reads and writes, and its locals, into the empty lists of its table.
fn put_node_lists(
    alloc: Global,
    index: &Index,
    numbers: &[Number],
    n: &NodeDecl,
    info: &mut NodeInfo,
) -> Result<(), AllocError>
    requires numbers { AreNumbers index.now numbers.now }
    requires fits { NodeFits (program_in index.now) (node_view n.now) }
    requires bare { node_seen info.old ≡ bare_node (program_in index.now) (node_view n.now) }
    ensures { OnOk result (node_seen info.new
        ≡ node_table (program_in index.now) (node_view n.now)) }
{
    put_all_slots(index, numbers, &n.reads, &mut info.reads)?;
    put_all_scalars(index, numbers, &n.writes, &mut info.writes)?;
    put_locals(alloc, &n.locals, &mut info.locals)?;
    Ok(())
}

/// The table of a node.
pub fn node_info<'p>(
    alloc: Global,
    index: &Index<'p>,
    numbers: &[Number],
    n: &'p NodeDecl,
) -> Result<NodeInfo, AllocError>
    requires numbers { AreNumbers index.now numbers.now }
    requires fits { NodeFits (program_in index.now) (node_view n.now) }
    ensures { IfOk result (λ i. node_seen i ≡ node_table (program_in index.now) (node_view n.now)) }
{
    let name = n.name.name.copy(alloc)?;
    let body = node_body(alloc, index, n)?;
    let mut info = NodeInfo {
        name,
        period: ticks(n.period),
        offset: ticks(n.offset),
        reads: Vec::new(alloc),
        writes: Vec::new(alloc),
        locals: Vec::new(alloc),
        body,
    };
    put_node_lists(alloc, index, numbers, n, &mut info)?;
    Ok(info)
}

// How many state variables the plant of this name has.
fn state_count(index: &Index, name: &Ident) -> usize
    requires { IsIndex index.now }
    ensures { result ≡ state_count (program_in index.now) name.now }
{
    match index.meaning(name) {
        Some(Decl::Plant(q)) => q.content().states.len(),
        _ => 0,
    }
}

/// The table of a module.
pub fn module_info(
    alloc: Global,
    index: &Index,
    numbers: &[Number],
    m: &ModuleDecl,
) -> Result<ModuleInfo, AllocError>
    requires numbers { AreNumbers index.now numbers.now }
    requires fits { ModuleFits (program_in index.now) (module_view m.now) }
    ensures { IfOk result (λ i. i ≡ module_info (program_in index.now) (module_view m.now)) }
{
    let width = state_count(index, &m.plant);
    let name = m.name.name.copy(alloc)?;
    let safe = region(alloc, width, &m.safe)?;
    let safer = region(alloc, width, &m.safer)?;
    Ok(ModuleInfo {
        name,
        ac: node_number(index, numbers, &m.ac),
        sc: node_number(index, numbers, &m.sc),
        period: ticks(m.period),
        offset: ticks(m.offset),
        plant: plant_number(index, numbers, &m.plant),
        safe,
        safer,
    })
}
