//! Keys of a flight's objects.

ghost use Rattle.std.specs.Prelude.{◌≡◌, ◌≤◌, ◌&&◌, IfOk, filter, bytes_eq};
ghost use Rattle.serde_json.specs.View.{members_view};
ghost use Rattle.sot_json.specs.Json.{at, count, is_among, all_among};
ghost use Rattle.sot_json.specs.Answers.{Gives};
ghost use Rattle.sot_flight.specs.FlightFormat.{plant_names, node_names, has_noise, is_external};

use serde_json::{Map, Value};
use sot_json::{JsonFail, JsonKind, count_of, fault_at, fault_under, member_of};
use sot_lang::{NodeInfo, PlantInfo, Typed};
use std::alloc::Global;

/// The greatest number of the format.
pub(crate) const GREATEST: u64 = 1_000_000_000_000;

/// A whole number from 0 to that greatest, at a key that must be there.
#[tactic(auto, unfolding(sot_json::specs::Json::at), using(sot_json::proofs::Faults::at_fails, sot_json::proofs::Faults::at_missing))]
pub(crate) fn count_at(
    alloc: Global,
    name: &str,
    greatest: u64,
    object: &Map<String, Value>,
) -> Result<u64, JsonFail>
    ensures says { Gives (λ x. x) result
        (at name.now (count greatest) (members_view object.now.entries)) }
    ensures within { IfOk result (λ x. x ≤ greatest) }
{
    let Some(value) = member_of(object, name) else {
        return Err(fault_under(alloc, name, fault_at(alloc, JsonKind::Missing)));
    };
    match count_of(alloc, greatest, value) {
        Ok(number) => Ok(number),
        Err(fail) => Err(fault_under(alloc, name, fail)),
    }
}

#[tactic(auto, using(crate::proofs::NameLists::plants_from, crate::proofs::NameLists::plants_past))]
fn is_plant(plants: &[PlantInfo], key: &str) -> bool
    ensures { result ≡ is_among key.now (plant_names plants.now) }
{
    for plant in plants {
        if key == plant.name.as_str() {
            return true;
        }
    }
    false
}

fn is_disturbed_as(plant: &PlantInfo, key: &str) -> bool
    ensures { result ≡ has_noise plant.now && bytes_eq key.now plant.now.name }
{
    plant.noise.len() > 0 && key == plant.name.as_str()
}

#[tactic(auto, using(crate::proofs::NameLists::disturbed_from, crate::proofs::NameLists::disturbed_past))]
fn is_disturbed(plants: &[PlantInfo], key: &str) -> bool
    ensures { result ≡ is_among key.now (plant_names (filter has_noise plants.now)) }
{
    for plant in plants {
        if is_disturbed_as(plant, key) {
            return true;
        }
    }
    false
}

fn is_external_as(node: &NodeInfo, key: &str) -> bool
    ensures { result ≡ is_external node.now && bytes_eq key.now node.now.name }
{
    node.body.is_none() && key == node.name.as_str()
}

#[tactic(auto, using(crate::proofs::NameLists::external_from, crate::proofs::NameLists::external_past))]
fn is_external_node(nodes: &[NodeInfo], key: &str) -> bool
    ensures { result ≡ is_among key.now (node_names (filter is_external nodes.now)) }
{
    for node in nodes {
        if is_external_as(node, key) {
            return true;
        }
    }
    false
}

/// Whether each key is the name of a plant.
pub(crate) fn has_only_plants(p: &Typed, object: &Map<String, Value>) -> bool
    ensures { result ≡ all_among (members_view object.now.entries) (plant_names p.now.plants) }
{
    for (key, _value) in object.iter() {
        if !is_plant(&p.plants, key.as_str()) {
            return false;
        }
    }
    true
}

/// Whether each key is the name of a plant with disturbances.
pub(crate) fn has_only_disturbed(p: &Typed, object: &Map<String, Value>) -> bool
    ensures { result ≡ all_among (members_view object.now.entries)
        (plant_names (filter has_noise p.now.plants)) }
{
    for (key, _value) in object.iter() {
        if !is_disturbed(&p.plants, key.as_str()) {
            return false;
        }
    }
    true
}

/// Whether each key is the name of an external node.
pub(crate) fn has_only_external(p: &Typed, object: &Map<String, Value>) -> bool
    ensures { result ≡ all_among (members_view object.now.entries)
        (node_names (filter is_external p.now.nodes)) }
{
    for (key, _value) in object.iter() {
        if !is_external_node(&p.nodes, key.as_str()) {
            return false;
        }
    }
    true
}
