//! A flight, read from JSON.

ghost use Rattle.std.specs.Prelude.{◌≡◌, ◌≤◌, pos, map, codes, IfOk};
ghost use Rattle.serde_json.specs.View.{view, members_view};
ghost use Rattle.sot_lang.specs.TableRules.{MeetsTableRules};
ghost use Rattle.sot_json.specs.Json.{at, whole};
ghost use Rattle.sot_json.specs.Answers.{Gives};
ghost use Rattle.sot_flight.specs.Fits.{FitsFlight};
ghost use Rattle.sot_flight.specs.FlightView.{input_of, sway_of, crew_of};
ghost use Rattle.sot_flight.specs.FlightFormat.{counted, flight, flight_of};

use crate::counts::{events_in, numbers_in};
use crate::crew::Crew;
use crate::crews::crews_at;
use crate::flight::Flight;
use crate::input::Input;
use crate::inputs::inputs_at;
use crate::keys::count_at;
use crate::starts::start_at;
use crate::sway::Sway;
use crate::sways::sways_at;
use serde_json::{Map, Value};
use sot_box::Point;
use sot_json::{JsonFail, JsonKind, fault_at, has_only, needed, part_of, value_of, whole_of};
use sot_lang::Typed;
use std::alloc::Global;

/// Why a flight was not read.
pub type FlightFail = JsonFail;

const HORIZON_LIMIT: u64 = 100_000;

const EVENT_LIMIT: u128 = 200_000;

const NUMBER_LIMIT: u128 = 1_000_000;

#[tactic(auto, unfolding(sot_json::specs::Json::at), using(sot_json::proofs::Parts::found_there, sot_json::proofs::Parts::lacking))]
fn format_at(alloc: Global, object: &Map<String, Value>) -> Result<i64, JsonFail>
    ensures { Gives (λ x. x) result (at (codes "format") (whole (pos 1) (pos 1))
        (members_view object.now.entries)) }
{
    let value = needed(alloc, object, "format")?;
    part_of(alloc, "format", whole_of(alloc, 1, 1, value))
}

// The flight of these parts, with its counts.
#[tactic(auto, unfolding(crate::specs::FlightFormat::counted))]
fn counted_flight(
    alloc: Global,
    p: &Typed,
    horizon: u32,
    start: Vec<Point>,
    inputs: Vec<Input>,
    sways: Vec<Sway>,
    crews: Vec<Crew>,
) -> Result<Flight, JsonFail>
    requires { horizon ≤ 100000 }
    ensures says { Gives (λ f. f) result
        (counted p.now horizon start.items (map input_of inputs.items) (map sway_of sways.items)
        (map crew_of crews.items)) }
    ensures rules { MeetsTableRules p.now }
{
    let events = events_in(p, horizon, &inputs);
    if events > EVENT_LIMIT {
        return Err(fault_at(alloc, JsonKind::TooManyEvents));
    }
    let numbers = numbers_in(p, horizon, &inputs);
    if numbers > NUMBER_LIMIT {
        return Err(fault_at(alloc, JsonKind::TooManyNumbers));
    }
    Ok(Flight {
        horizon,
        start,
        inputs,
        sways,
        crews,
        events: events as u32,
        numbers: numbers as u32,
    })
}

#[tactic(auto, unfolding(crate::specs::FlightFormat::flight))]
fn flight_in(alloc: Global, p: &Typed, guests: u32, value: &Value) -> Result<Flight, JsonFail>
    ensures says { Gives (λ f. f) result (flight p.now guests (view value.now)) }
    ensures fits { IfOk result (λ f. FitsFlight p.now guests f) }
{
    let Some(object) = value.as_object() else {
        return Err(fault_at(alloc, JsonKind::WrongShape));
    };
    let _format = format_at(alloc, object)?;
    let horizon = count_at(alloc, "horizon", HORIZON_LIMIT, object)? as u32;
    let start = start_at(alloc, p, object)?;
    let inputs = inputs_at(alloc, p, horizon, object)?;
    let sways = sways_at(alloc, p, object)?;
    let crews = crews_at(alloc, p, guests, object)?;
    let keys = ["format", "horizon", "start", "inputs", "sway", "crew"];
    if !has_only(object, &keys) {
        return Err(fault_at(alloc, JsonKind::Unknown));
    }
    counted_flight(alloc, p, horizon, start, inputs, sways, crews)
}

/// The flight of the program that the bytes say, where so many guests may draft, or its first fault
/// in the order of the format.
pub fn read_flight(
    alloc: Global,
    p: &Typed,
    guests: u32,
    bytes: &[u8],
) -> Result<Flight, FlightFail>
    ensures says { Gives (λ f. f) result (flight_of p.now guests bytes.now) }
    ensures fits { IfOk result (λ f. FitsFlight p.now guests f) }
{
    let value = value_of(alloc, bytes)?;
    flight_in(alloc, p, guests, &value)
}
