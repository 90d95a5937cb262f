//! What drives the disturbances, from JSON.

ghost use Rattle.std.specs.Prelude.{◌≡◌, ◌<◌, [], length, map, codes};
ghost use Rattle.serde_json.specs.View.{view, members_view};
ghost use Rattle.sot_lang.specs.declared.tables.PlantInfo.{PlantInfo};
ghost use Rattle.sot_lang.specs.Ranges.{bounds};
ghost use Rattle.sot_json.specs.Json.{at};
ghost use Rattle.sot_json.specs.Answers.{Gives};
ghost use Rattle.sot_flight.specs.ListForms.{rows_in, for_each_after};
ghost use Rattle.sot_flight.specs.NoiseRules.{HasNarrowNoise};
ghost use Rattle.sot_flight.specs.FlightView.{sway_of};
ghost use Rattle.sot_flight.specs.declared.sway.SwayKind.TheVariants as sway_kinds;
ghost use Rattle.sot_flight.specs.FlightFormat.{sway_kind, sway_as, sway as sway_says};
ghost use Rattle.sot_flight.specs.FlightFormat.{sway_at as sway_at_says, sways as sways_say};

use crate::hold::hold_at;
use crate::keys::{GREATEST, count_at, has_only_disturbed};
use crate::lists::rows_in_of;
use crate::ranges::bounds_of;
use crate::spread::Spread;
use crate::sway::{Sway, SwayKind};
use serde_json::{Map, Value};
use sot_json::{JsonFail, JsonKind, fault_at, has_only, needed, part_of};
use sot_lang::{PlantInfo, Typed};
use std::alloc::Global;

#[tactic(auto, unfolding(crate::specs::FlightFormat::sway_kind))]
fn kind_of(alloc: Global, value: &Value) -> Result<SwayKind, JsonFail>
    ensures { Gives (λ k. k) result (sway_kind (view value.now)) }
{
    let Some(text) = value.as_str() else {
        return Err(fault_at(alloc, JsonKind::WrongShape));
    };
    if text == "low" {
        Ok(SwayKind::Low)
    } else if text == "high" {
        Ok(SwayKind::High)
    } else if text == "list" {
        Ok(SwayKind::List)
    } else if text == "seed" {
        Ok(SwayKind::Seed)
    } else if text == "edge" {
        Ok(SwayKind::Edge)
    } else {
        Err(fault_at(alloc, JsonKind::WrongShape))
    }
}

#[tactic(auto, unfolding(sot_json::specs::Json::at), using(sot_json::proofs::Parts::found_there, sot_json::proofs::Parts::lacking))]
fn kind_at(alloc: Global, object: &Map<String, Value>) -> Result<SwayKind, JsonFail>
    ensures { Gives (λ k. k) result
        (at (codes "kind") sway_kind (members_view object.now.entries)) }
{
    let value = needed(alloc, object, "kind")?;
    part_of(alloc, "kind", kind_of(alloc, value))
}

#[tactic(auto, unfolding(sot_json::specs::Json::at), using(sot_json::proofs::Parts::found_there, sot_json::proofs::Parts::lacking))]
fn rows_at(
    alloc: Global,
    plant: &PlantInfo,
    object: &Map<String, Value>,
) -> Result<Vec<Vec<i64>>, JsonFail>
    requires { HasNarrowNoise plant.now }
    ensures { Gives (λ v. map (λ row. row.items) v.items) result
        (at (codes "values") (rows_in (bounds plant.now)) (members_view object.now.entries)) }
{
    let value = needed(alloc, object, "values")?;
    let ranges = bounds_of(alloc, plant)?;
    part_of(alloc, "values", rows_in_of(alloc, &ranges, value))
}

// A sway whose words stand for held ends of the bounds.
#[tactic(auto, unfolding(crate::specs::FlightFormat::sway_as))]
fn edge_sway(alloc: Global, object: &Map<String, Value>) -> Result<Sway, JsonFail>
    ensures { (plant : PlantInfo) → Gives sway_of result
        (sway_as plant (members_view object.now.entries) sway_kinds.Edge) }
{
    let hold = hold_at(alloc, object)?;
    let seed = count_at(alloc, "seed", GREATEST, object)?;
    let stream = count_at(alloc, "stream", GREATEST, object)?;
    if !has_only(object, &["kind", "hold", "seed", "stream"]) {
        return Err(fault_at(alloc, JsonKind::Unknown));
    }
    let spread = Spread::Ends(hold);
    Ok(Sway::Drawn {
        spread,
        seed,
        stream,
    })
}

#[tactic(auto, unfolding(crate::specs::FlightFormat::sway_as))]
fn sway_as_kind(
    alloc: Global,
    plant: &PlantInfo,
    object: &Map<String, Value>,
    kind: SwayKind,
) -> Result<Sway, JsonFail>
    requires { HasNarrowNoise plant.now }
    ensures { Gives sway_of result (sway_as plant.now (members_view object.now.entries) kind) }
{
    match kind {
        SwayKind::Low => {
            if !has_only(object, &["kind"]) {
                return Err(fault_at(alloc, JsonKind::Unknown));
            }
            Ok(Sway::Low)
        }
        SwayKind::High => {
            if !has_only(object, &["kind"]) {
                return Err(fault_at(alloc, JsonKind::Unknown));
            }
            Ok(Sway::High)
        }
        SwayKind::List => {
            let rows = rows_at(alloc, plant, object)?;
            if !has_only(object, &["kind", "values"]) {
                return Err(fault_at(alloc, JsonKind::Unknown));
            }
            Ok(Sway::Listed(rows))
        }
        SwayKind::Seed => {
            let seed = count_at(alloc, "seed", GREATEST, object)?;
            let stream = count_at(alloc, "stream", GREATEST, object)?;
            if !has_only(object, &["kind", "seed", "stream"]) {
                return Err(fault_at(alloc, JsonKind::Unknown));
            }
            let spread = Spread::Anywhere;
            Ok(Sway::Drawn {
                spread,
                seed,
                stream,
            })
        }
        SwayKind::Edge => edge_sway(alloc, object),
    }
}

#[tactic(auto, unfolding(crate::specs::FlightFormat::sway))]
fn one_sway(alloc: Global, plant: &PlantInfo, value: &Value) -> Result<Sway, JsonFail>
    requires { HasNarrowNoise plant.now }
    ensures { Gives sway_of result (sway_says plant.now (view value.now)) }
{
    let Some(object) = value.as_object() else {
        return Err(fault_at(alloc, JsonKind::WrongShape));
    };
    let kind = kind_at(alloc, object)?;
    sway_as_kind(alloc, plant, object, kind)
}

#[tactic(auto, unfolding(sot_json::specs::Json::at), using(sot_json::proofs::Parts::found_there, sot_json::proofs::Parts::lacking))]
fn sway_under(
    alloc: Global,
    plant: &PlantInfo,
    object: &Map<String, Value>,
) -> Result<Sway, JsonFail>
    requires { HasNarrowNoise plant.now }
    ensures { Gives sway_of result (at plant.now.name (sway_says plant.now)
        (members_view object.now.entries)) }
{
    let name = plant.name.as_str();
    let value = needed(alloc, object, name)?;
    part_of(alloc, name, one_sway(alloc, plant, value))
}

// The sway of a plant; without disturbances it is still.
fn sway_where(
    alloc: Global,
    plant: &PlantInfo,
    object: &Map<String, Value>,
) -> Result<Sway, JsonFail>
    requires { HasNarrowNoise plant.now }
    ensures { Gives sway_of result (sway_at_says (members_view object.now.entries) plant.now) }
{
    if plant.noise.len() > 0 {
        sway_under(alloc, plant, object)
    } else {
        Ok(Sway::Still)
    }
}

fn each_sway(alloc: Global, p: &Typed, object: &Map<String, Value>) -> Result<Vec<Sway>, JsonFail>
    ensures { Gives (λ v. map sway_of v.items) result
        (for_each_after (λ done. sway_at_says (members_view object.now.entries)) [] p.now.plants) }
{
    let mut found = Vec::new(alloc);
    for plant in p.plants.iter() {
        match sway_where(alloc, plant, object) {
            Ok(sway) => found.push(sway)?,
            Err(fail) => return Err(fail),
        }
    }
    Ok(found)
}

#[tactic(auto, unfolding(crate::specs::FlightFormat::sways))]
fn sways_of(alloc: Global, p: &Typed, value: &Value) -> Result<Vec<Sway>, JsonFail>
    ensures { Gives (λ v. map sway_of v.items) result (sways_say p.now (view value.now)) }
{
    let Some(object) = value.as_object() else {
        return Err(fault_at(alloc, JsonKind::WrongShape));
    };
    let found = each_sway(alloc, p, object)?;
    if !has_only_disturbed(p, object) {
        return Err(fault_at(alloc, JsonKind::Unknown));
    }
    Ok(found)
}

/// A sway for each plant, in declared order.
#[tactic(auto, unfolding(sot_json::specs::Json::at), using(sot_json::proofs::Parts::found_there, sot_json::proofs::Parts::lacking))]
pub(crate) fn sways_at(
    alloc: Global,
    p: &Typed,
    object: &Map<String, Value>,
) -> Result<Vec<Sway>, JsonFail>
    ensures { Gives (λ v. map sway_of v.items) result
        (at (codes "sway") (sways_say p.now) (members_view object.now.entries)) }
{
    let value = needed(alloc, object, "sway")?;
    part_of(alloc, "sway", sways_of(alloc, p, value))
}
