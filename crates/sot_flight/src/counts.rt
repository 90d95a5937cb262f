//! How many events and numbers a flight has.

ghost use Rattle.std.specs.Prelude.{◌≡◌, ℕ, ◌<◌, ◌≤◌, ◌^◌, length, map};
ghost use Rattle.sot_lists.specs.Places.{At};
ghost use Rattle.sot_lang.specs.declared.tables.NodeInfo.{NodeInfo};
ghost use Rattle.sot_lang.specs.declared.tables.ModuleInfo.{ModuleInfo};
ghost use Rattle.sot_lang.specs.declared.tables.PlantInfo.{PlantInfo};
ghost use Rattle.sot_lang.specs.TableRules.{MeetsTableRules};
ghost use Rattle.sot_flight.specs.Counts.{due_count, firing_count, decision_count, tick_numbers};
ghost use Rattle.sot_flight.specs.Counts.{draft_numbers, input_numbers, events_of, numbers_of};
ghost use Rattle.sot_flight.specs.FlightView.{input_of};

use crate::input::Input;
use sot_calendar::firings;
use sot_lang::{ModuleInfo, NodeInfo, PlantInfo, Typed};

// How often it is due up to and including the horizon.
#[tactic(auto, using(crate::proofs::DueCounts::due_count_is))]
fn due_times(period: u32, offset: u32, horizon: u32) -> u64
    requires times { (offset < period) × (period ≤ 1000) }
    requires horizon { horizon ≤ 100000 }
    ensures { result ≡ due_count period offset horizon }
{
    u64::from(firings(period, offset, horizon))
}

fn firings_of(nodes: &[NodeInfo], horizon: u32) -> u64
    requires times { (n : ℕ) (node : NodeInfo) → At nodes.now n node
        → (node.offset < node.period) × (node.period ≤ 1000) }
    requires few { length nodes.now ≤ 300 }
    requires horizon { horizon ≤ 100000 }
    ensures { result ≡ firing_count horizon nodes.now }
{
    let mut sum = 0;
    for node in nodes {
        sum += due_times(node.period, node.offset, horizon);
    }
    sum
}

fn decisions_of(modules: &[ModuleInfo], horizon: u32) -> u64
    requires times { (m : ℕ) (info : ModuleInfo) → At modules.now m info
        → (info.offset < info.period) × (info.period ≤ 1000) }
    requires few { length modules.now ≤ 100 }
    requires horizon { horizon ≤ 100000 }
    ensures { result ≡ decision_count horizon modules.now }
{
    let mut sum = 0;
    for info in modules {
        sum += due_times(info.period, info.offset, horizon);
    }
    sum
}

fn ticks_of(plants: &[PlantInfo]) -> u64
    requires few { (k : ℕ) (plant : PlantInfo) → At plants.now k plant
        → (length plant.noise.items ≤ 4) × (length plant.states.items ≤ 4) }
    requires count { length plants.now ≤ 100 }
    ensures count { result ≡ tick_numbers plants.now }
    ensures small { result ≤ 800 }
{
    let mut sum = 0;
    for plant in plants {
        sum += plant.noise.len() as u64 + plant.states.len() as u64;
    }
    sum
}

fn drafts_of(nodes: &[NodeInfo], horizon: u32) -> u64
    requires times { (n : ℕ) (node : NodeInfo) → At nodes.now n node
        → (node.offset < node.period) × (node.period ≤ 1000) }
    requires writes { (n : ℕ) (node : NodeInfo) → At nodes.now n node
        → length node.writes.items ≤ 8 }
    requires few { length nodes.now ≤ 300 }
    requires horizon { horizon ≤ 100000 }
    ensures count { result ≡ draft_numbers horizon nodes.now }
    ensures small { result ≤ 240002400 }
{
    let mut sum = 0;
    for node in nodes {
        sum += due_times(node.period, node.offset, horizon) * node.writes.len() as u64;
    }
    sum
}

fn values_of(inputs: &Vec<Input>) -> u128
    ensures count { result ≡ input_numbers (map input_of inputs.now.items) }
    ensures small { result ≤ 2 ^ 127 }
{
    let mut sum = 0;
    for input in inputs.iter() {
        sum += input.value.len() as u128;
    }
    sum
}

/// The number of firings, decisions, inputs and ticks up to and including the horizon.
pub(crate) fn events_in(p: &Typed, horizon: u32, inputs: &Vec<Input>) -> u128
    requires { horizon ≤ 100000 }
    ensures count { result ≡ events_of p.now horizon (map input_of inputs.now.items) }
    ensures rules { MeetsTableRules p.now }
{
    u128::from(firings_of(&p.nodes, horizon))
        + u128::from(decisions_of(&p.modules, horizon))
        + inputs.len() as u128
        + u128::from(horizon)
}

/// The number of disturbances, states, drafted scalars and input scalars up to and including the
/// horizon.
pub(crate) fn numbers_in(p: &Typed, horizon: u32, inputs: &Vec<Input>) -> u128
    requires { horizon ≤ 100000 }
    ensures { result ≡ numbers_of p.now horizon (map input_of inputs.now.items) }
{
    u128::from(horizon) * u128::from(ticks_of(&p.plants))
        + u128::from(drafts_of(&p.nodes, horizon))
        + values_of(inputs)
}
