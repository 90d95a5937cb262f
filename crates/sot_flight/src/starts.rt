//! Where the plants start.

ghost use Rattle.std.specs.Prelude.{◌≡◌, ◌≤◌, [], length, codes};
ghost use Rattle.serde_json.specs.View.{view, members_view};
ghost use Rattle.sot_json.specs.Json.{at};
ghost use Rattle.sot_json.specs.Answers.{Gives};
ghost use Rattle.sot_flight.specs.ListForms.{numbers, for_each_after};
ghost use Rattle.sot_flight.specs.FlightFormat.{point_at, start};

use crate::keys::has_only_plants;
use crate::lists::numbers_of;
use serde_json::{Map, Value};
use sot_box::Point;
use sot_json::{JsonFail, JsonKind, fault_at, needed, part_of};
use sot_lang::{PlantInfo, Typed};
use std::alloc::Global;

#[tactic(auto, unfolding(sot_json::specs::Json::at), using(sot_json::proofs::Parts::found_there, sot_json::proofs::Parts::lacking))]
fn numbers_at(
    alloc: Global,
    name: &str,
    width: usize,
    object: &Map<String, Value>,
) -> Result<Vec<i64>, JsonFail>
    ensures { Gives (λ v. v.items) result
        (at name.now (numbers width) (members_view object.now.entries)) }
{
    let value = needed(alloc, object, name)?;
    part_of(alloc, name, numbers_of(alloc, width, value))
}

// The point of a plant.
fn point_of(
    alloc: Global,
    plant: &PlantInfo,
    object: &Map<String, Value>,
) -> Result<Point, JsonFail>
    requires { (1 ≤ length plant.now.states.items) × (length plant.now.states.items ≤ 4) }
    ensures { Gives (λ x. x) result (point_at (members_view object.now.entries) plant.now) }
{
    let numbers = numbers_at(alloc, plant.name.as_str(), plant.states.len(), object)?;
    match Point::of(&numbers) {
        Some(point) => Ok(point),
        None => unreachable!(),
    }
}

fn points_of(alloc: Global, p: &Typed, object: &Map<String, Value>) -> Result<Vec<Point>, JsonFail>
    ensures { Gives (λ v. v.items) result
        (for_each_after (λ done. point_at (members_view object.now.entries)) [] p.now.plants) }
{
    let mut found = Vec::new(alloc);
    for plant in p.plants.iter() {
        match point_of(alloc, plant, object) {
            Ok(point) => found.push(point)?,
            Err(fail) => return Err(fail),
        }
    }
    Ok(found)
}

#[tactic(auto, unfolding(crate::specs::FlightFormat::start))]
fn start_of(alloc: Global, p: &Typed, value: &Value) -> Result<Vec<Point>, JsonFail>
    ensures { Gives (λ v. v.items) result (start p.now (view value.now)) }
{
    let Some(object) = value.as_object() else {
        return Err(fault_at(alloc, JsonKind::WrongShape));
    };
    let found = points_of(alloc, p, object)?;
    if !has_only_plants(p, object) {
        return Err(fault_at(alloc, JsonKind::Unknown));
    }
    Ok(found)
}

/// The point of each plant, in declared order.
#[tactic(auto, unfolding(sot_json::specs::Json::at), using(sot_json::proofs::Parts::found_there, sot_json::proofs::Parts::lacking))]
pub(crate) fn start_at(
    alloc: Global,
    p: &Typed,
    object: &Map<String, Value>,
) -> Result<Vec<Point>, JsonFail>
    ensures { Gives (λ v. v.items) result
        (at (codes "start") (start p.now) (members_view object.now.entries)) }
{
    let value = needed(alloc, object, "start")?;
    part_of(alloc, "start", start_of(alloc, p, value))
}
