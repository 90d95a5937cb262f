//! The inputs of a flight.

ghost use Rattle.std.specs.Prelude.{◌≡◌, ◌≤◌, ◌<◌, ◌&&◌, [], length, map, codes, position};
ghost use Rattle.std.specs.Prelude.{bytes_eq, IfOk, slice_get, Some};
ghost use Rattle.serde_json.specs.View.{view, items_view, members_view};
ghost use Rattle.sot_lang.specs.TableRules.{MeetsTableRules};
ghost use Rattle.sot_json.specs.Json.{at, each_after};
ghost use Rattle.sot_json.specs.Answers.{Gives};
ghost use Rattle.sot_flight.specs.ListForms.{numbers_in};
ghost use Rattle.sot_flight.specs.FlightView.{input_of};
ghost use Rattle.sot_flight.specs.FlightFormat.{last_time, time, is_outside, topic as topic_says};
ghost use Rattle.sot_flight.specs.FlightFormat.{topic_ranges, input as input_says};
ghost use Rattle.sot_flight.specs.FlightFormat.{inputs as inputs_say};

use crate::input::Input;
use crate::lists::numbers_in_of;
use crate::ranges::ranges_of_topic;
use serde_json::{Map, Value};
use sot_json::{
    JsonFail, JsonKind, count_of, fault_at, fault_under, fault_under_index, has_only, member_of,
    needed, part_of,
};
use sot_lang::Typed;
use std::alloc::Global;

// The time of the last input, or 0.
#[tactic(auto, using(crate::proofs::Times::last_none, crate::proofs::Times::last_at))]
fn last_of(done: &Vec<Input>) -> u32
    ensures { result ≡ last_time (map input_of done.now.items) }
{
    if done.is_empty() {
        return 0;
    }
    done[done.len() - 1].at
}

#[tactic(auto, unfolding(crate::specs::FlightFormat::time))]
fn time_of(alloc: Global, horizon: u32, done: &Vec<Input>, value: &Value) -> Result<u32, JsonFail>
    ensures { Gives (λ x. x) result (time horizon (map input_of done.now.items) (view value.now)) }
{
    let time = count_of(alloc, u64::from(horizon), value)? as u32;
    if last_of(done) > time {
        return Err(fault_at(alloc, JsonKind::Order));
    }
    Ok(time)
}

#[tactic(auto, unfolding(sot_json::specs::Json::at), using(sot_json::proofs::Parts::found_there, sot_json::proofs::Parts::lacking))]
fn time_at(
    alloc: Global,
    horizon: u32,
    done: &Vec<Input>,
    object: &Map<String, Value>,
) -> Result<u32, JsonFail>
    ensures { Gives (λ x. x) result (at (codes "at") (time horizon (map input_of done.now.items))
        (members_view object.now.entries)) }
{
    let value = needed(alloc, object, "at")?;
    part_of(alloc, "at", time_of(alloc, horizon, done, value))
}

// The place of the environment topic of that name.
fn outside_place(p: &Typed, name: &str) -> Option<usize>
    ensures { result ≡ position (λ topic. topic.outside && bytes_eq topic.name name.now)
        p.now.topics }
{
    p.topics
        .iter()
        .position(|topic| topic.outside && topic.name.as_str() == name)
}

#[tactic(auto, unfolding(crate::specs::FlightFormat::topic))]
fn topic_of(alloc: Global, p: &Typed, value: &Value) -> Result<u32, JsonFail>
    ensures says { Gives (λ x. x) result (topic_says p.now (view value.now)) }
    ensures there { IfOk result (λ k. k < length p.now.topics) }
{
    let Some(name) = value.as_str() else {
        return Err(fault_at(alloc, JsonKind::WrongShape));
    };
    let count = p.topics.len();
    match outside_place(p, name) {
        Some(place) if place < count => Ok(place as u32),
        Some(_) => unreachable!(),
        None => Err(fault_at(alloc, JsonKind::Unknown)),
    }
}

#[tactic(auto, unfolding(sot_json::specs::Json::at), using(sot_json::proofs::Faults::at_fails, sot_json::proofs::Faults::at_missing))]
fn topic_at(alloc: Global, p: &Typed, object: &Map<String, Value>) -> Result<u32, JsonFail>
    ensures says { Gives (λ x. x) result
        (at (codes "topic") (topic_says p.now) (members_view object.now.entries)) }
    ensures there { IfOk result (λ k. k < length p.now.topics) }
{
    let Some(value) = member_of(object, "topic") else {
        return Err(fault_under(alloc, "topic", fault_at(alloc, JsonKind::Missing)));
    };
    match topic_of(alloc, p, value) {
        Ok(topic) => Ok(topic),
        Err(fail) => Err(fault_under(alloc, "topic", fail)),
    }
}

#[tactic(auto, unfolding(sot_json::specs::Json::at), using(sot_json::proofs::Parts::found_there, sot_json::proofs::Parts::lacking))]
fn value_at(
    alloc: Global,
    p: &Typed,
    topic: u32,
    object: &Map<String, Value>,
) -> Result<Vec<i64>, JsonFail>
    requires { topic < length p.now.topics }
    ensures { Gives (λ v. v.items) result
        (at (codes "value") (numbers_in (topic_ranges p.now topic))
        (members_view object.now.entries)) }
{
    let value = needed(alloc, object, "value")?;
    let ranges = ranges_of_topic(alloc, p, topic)?;
    part_of(alloc, "value", numbers_in_of(alloc, &ranges, value))
}

#[tactic(auto, unfolding(crate::specs::FlightFormat::input))]
fn one_input(
    alloc: Global,
    p: &Typed,
    horizon: u32,
    done: &Vec<Input>,
    value: &Value,
) -> Result<Input, JsonFail>
    ensures { Gives input_of result (input_says p.now horizon (map input_of done.now.items)
        (view value.now)) }
{
    let Some(object) = value.as_object() else {
        return Err(fault_at(alloc, JsonKind::WrongShape));
    };
    let at = time_at(alloc, horizon, done, object)?;
    let topic = topic_at(alloc, p, object)?;
    let value = value_at(alloc, p, topic, object)?;
    if !has_only(object, &["at", "topic", "value"]) {
        return Err(fault_at(alloc, JsonKind::Unknown));
    }
    Ok(Input { at, topic, value })
}

fn each_input(
    alloc: Global,
    p: &Typed,
    horizon: u32,
    list: &Vec<Value>,
) -> Result<Vec<Input>, JsonFail>
    ensures { Gives (λ v. map input_of v.items) result
        (each_after (input_says p.now horizon) [] (items_view list.now.items)) }
{
    let mut found = Vec::new(alloc);
    for item in list.iter() {
        match one_input(alloc, p, horizon, &found, item) {
            Ok(input) => found.push(input)?,
            Err(fail) => return Err(fault_under_index(alloc, found.len(), fail)),
        }
    }
    Ok(found)
}

#[tactic(auto, unfolding(crate::specs::FlightFormat::inputs))]
fn inputs_of(alloc: Global, p: &Typed, horizon: u32, value: &Value) -> Result<Vec<Input>, JsonFail>
    ensures { Gives (λ v. map input_of v.items) result (inputs_say p.now horizon (view value.now)) }
{
    let Some(list) = value.as_array() else {
        return Err(fault_at(alloc, JsonKind::WrongShape));
    };
    each_input(alloc, p, horizon, list)
}

/// The inputs, in order.
#[tactic(auto, unfolding(sot_json::specs::Json::at), using(sot_json::proofs::Parts::found_there, sot_json::proofs::Parts::lacking))]
pub(crate) fn inputs_at(
    alloc: Global,
    p: &Typed,
    horizon: u32,
    object: &Map<String, Value>,
) -> Result<Vec<Input>, JsonFail>
    ensures { Gives (λ v. map input_of v.items) result
        (at (codes "inputs") (inputs_say p.now horizon) (members_view object.now.entries)) }
{
    let value = needed(alloc, object, "inputs")?;
    part_of(alloc, "inputs", inputs_of(alloc, p, horizon, value))
}
