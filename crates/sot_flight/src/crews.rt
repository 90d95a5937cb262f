//! Who drafts for the nodes, from JSON.

ghost use Rattle.std.specs.Prelude.{◌≡◌, ℕ, ◌<◌, List, [], length, map, codes};
ghost use Rattle.std.specs.List.{list_any};
ghost use Rattle.serde_json.specs.View.{view, members_view};
ghost use Rattle.sot_lang.specs.declared.tables.NodeInfo.{NodeInfo};
ghost use Rattle.sot_json.specs.Json.{at};
ghost use Rattle.sot_json.specs.Answers.{Gives};
ghost use Rattle.sot_flight.specs.ListForms.{drafts, for_each_after};
ghost use Rattle.sot_flight.specs.FlightView.{crew_of};
ghost use Rattle.sot_flight.specs.Plans as plans;
ghost use Rattle.sot_flight.specs.declared.crew.CrewKind.TheVariants as crew_kinds;
ghost use Rattle.sot_flight.specs.FlightFormat.{crew_kind, is_guest, guest as guest_says, crew_as};
ghost use Rattle.sot_flight.specs.FlightFormat.{crew as crew_says, crew_at as crew_at_says};
ghost use Rattle.sot_flight.specs.FlightFormat.{crews as crews_say};

use crate::crew::{Crew, CrewKind};
use crate::hold::hold_at;
use crate::keys::{GREATEST, count_at, has_only_external};
use crate::lists::drafts_of;
use crate::spread::Spread;
use serde_json::{Map, Value};
use sot_json::{JsonFail, JsonKind, count_of, fault_at, has_only, needed, part_of};
use sot_lang::{NodeInfo, Typed};
use std::alloc::Global;

#[tactic(auto, unfolding(crate::specs::FlightFormat::crew_kind))]
fn kind_of(alloc: Global, value: &Value) -> Result<CrewKind, JsonFail>
    ensures { Gives (λ k. k) result (crew_kind (view value.now)) }
{
    let Some(text) = value.as_str() else {
        return Err(fault_at(alloc, JsonKind::WrongShape));
    };
    if text == "script" {
        Ok(CrewKind::Script)
    } else if text == "wild" {
        Ok(CrewKind::Wild)
    } else if text == "edge" {
        Ok(CrewKind::Edge)
    } else if text == "guest" {
        Ok(CrewKind::Guest)
    } else {
        Err(fault_at(alloc, JsonKind::WrongShape))
    }
}

#[tactic(auto, unfolding(sot_json::specs::Json::at), using(sot_json::proofs::Parts::found_there, sot_json::proofs::Parts::lacking))]
fn kind_at(alloc: Global, object: &Map<String, Value>) -> Result<CrewKind, JsonFail>
    ensures { Gives (λ k. k) result
        (at (codes "kind") crew_kind (members_view object.now.entries)) }
{
    let value = needed(alloc, object, "kind")?;
    part_of(alloc, "kind", kind_of(alloc, value))
}

#[tactic(auto, unfolding(sot_json::specs::Json::at), using(sot_json::proofs::Parts::found_there, sot_json::proofs::Parts::lacking))]
fn drafts_at(
    alloc: Global,
    size: usize,
    object: &Map<String, Value>,
) -> Result<Vec<Vec<Option<i64>>>, JsonFail>
    ensures { Gives (λ v. map (λ row. row.items) v.items) result
        (at (codes "drafts") (drafts size) (members_view object.now.entries)) }
{
    let value = needed(alloc, object, "drafts")?;
    part_of(alloc, "drafts", drafts_of(alloc, size, value))
}

fn is_that_guest(crew: &Crew, index: u32) -> bool
    ensures { result ≡ is_guest index (crew_of crew.now) }
{
    match crew {
        Crew::Guest(other) => *other == index,
        Crew::Coded | Crew::Script(_) | Crew::Wild { .. } => false,
    }
}

fn any_guest(done: &Vec<Crew>, index: u32) -> bool
    ensures { result ≡ list_any (λ crew. is_guest index (crew_of crew)) done.now.items }
{
    done.iter().any(|crew| is_that_guest(crew, index))
}

#[tactic(auto, using(crate::proofs::NameLists::any_map))]
fn has_guest(done: &Vec<Crew>, index: u32) -> bool
    ensures { result ≡ list_any (is_guest index) (map crew_of done.now.items) }
{
    any_guest(done, index)
}

#[tactic(auto, unfolding(crate::specs::FlightFormat::guest))]
fn guest_of(alloc: Global, guests: u32, done: &Vec<Crew>, value: &Value) -> Result<u32, JsonFail>
    ensures { Gives (λ x. x) result (guest_says guests (map crew_of done.now.items)
        (view value.now)) }
{
    let index = count_of(alloc, GREATEST, value)?;
    if index >= u64::from(guests) {
        return Err(fault_at(alloc, JsonKind::NoGuest));
    }
    let index = index as u32;
    if has_guest(done, index) {
        return Err(fault_at(alloc, JsonKind::GuestTwice));
    }
    Ok(index)
}

#[tactic(auto, unfolding(sot_json::specs::Json::at), using(sot_json::proofs::Parts::found_there, sot_json::proofs::Parts::lacking))]
fn guest_at(
    alloc: Global,
    guests: u32,
    done: &Vec<Crew>,
    object: &Map<String, Value>,
) -> Result<u32, JsonFail>
    ensures { Gives (λ x. x) result (at (codes "index")
        (guest_says guests (map crew_of done.now.items)) (members_view object.now.entries)) }
{
    let value = needed(alloc, object, "index")?;
    part_of(alloc, "index", guest_of(alloc, guests, done, value))
}

// A crew whose words stand for held ends of ranges.
#[tactic(auto, unfolding(crate::specs::FlightFormat::crew_as))]
fn edge_crew(alloc: Global, object: &Map<String, Value>) -> Result<Crew, JsonFail>
    ensures { (guests : ℕ) (done : List plans.Crew) (node : NodeInfo) → Gives crew_of result
        (crew_as guests done node (members_view object.now.entries) crew_kinds.Edge) }
{
    let hold = hold_at(alloc, object)?;
    let seed = count_at(alloc, "seed", GREATEST, object)?;
    let stream = count_at(alloc, "stream", GREATEST, object)?;
    if !has_only(object, &["kind", "hold", "seed", "stream"]) {
        return Err(fault_at(alloc, JsonKind::Unknown));
    }
    let spread = Spread::Ends(hold);
    Ok(Crew::Wild {
        spread,
        seed,
        stream,
    })
}

#[tactic(auto, unfolding(crate::specs::FlightFormat::crew_as))]
fn crew_as_kind(
    alloc: Global,
    guests: u32,
    done: &Vec<Crew>,
    node: &NodeInfo,
    object: &Map<String, Value>,
    kind: CrewKind,
) -> Result<Crew, JsonFail>
    ensures { Gives crew_of result (crew_as guests (map crew_of done.now.items) node.now
        (members_view object.now.entries) kind) }
{
    match kind {
        CrewKind::Script => {
            let rows = drafts_at(alloc, node.writes.len(), object)?;
            if !has_only(object, &["kind", "drafts"]) {
                return Err(fault_at(alloc, JsonKind::Unknown));
            }
            Ok(Crew::Script(rows))
        }
        CrewKind::Wild => {
            let seed = count_at(alloc, "seed", GREATEST, object)?;
            let stream = count_at(alloc, "stream", GREATEST, object)?;
            if !has_only(object, &["kind", "seed", "stream"]) {
                return Err(fault_at(alloc, JsonKind::Unknown));
            }
            let spread = Spread::Anywhere;
            Ok(Crew::Wild {
                spread,
                seed,
                stream,
            })
        }
        CrewKind::Edge => edge_crew(alloc, object),
        CrewKind::Guest => {
            let index = guest_at(alloc, guests, done, object)?;
            if !has_only(object, &["kind", "index"]) {
                return Err(fault_at(alloc, JsonKind::Unknown));
            }
            Ok(Crew::Guest(index))
        }
    }
}

#[tactic(auto, unfolding(crate::specs::FlightFormat::crew))]
fn one_crew(
    alloc: Global,
    guests: u32,
    done: &Vec<Crew>,
    node: &NodeInfo,
    value: &Value,
) -> Result<Crew, JsonFail>
    ensures { Gives crew_of result (crew_says guests (map crew_of done.now.items) node.now
        (view value.now)) }
{
    let Some(object) = value.as_object() else {
        return Err(fault_at(alloc, JsonKind::WrongShape));
    };
    let kind = kind_at(alloc, object)?;
    crew_as_kind(alloc, guests, done, node, object, kind)
}

#[tactic(auto, unfolding(sot_json::specs::Json::at), using(sot_json::proofs::Parts::found_there, sot_json::proofs::Parts::lacking))]
fn crew_under(
    alloc: Global,
    guests: u32,
    done: &Vec<Crew>,
    node: &NodeInfo,
    object: &Map<String, Value>,
) -> Result<Crew, JsonFail>
    ensures { Gives crew_of result (at node.now.name
        (crew_says guests (map crew_of done.now.items) node.now)
        (members_view object.now.entries)) }
{
    let name = node.name.as_str();
    let value = needed(alloc, object, name)?;
    part_of(alloc, name, one_crew(alloc, guests, done, node, value))
}

// The crew of a node; a coded one drafts by its code.
fn crew_where(
    alloc: Global,
    guests: u32,
    done: &Vec<Crew>,
    node: &NodeInfo,
    object: &Map<String, Value>,
) -> Result<Crew, JsonFail>
    ensures { Gives crew_of result (crew_at_says guests (members_view object.now.entries)
        (map crew_of done.now.items) node.now) }
{
    if node.body.is_none() {
        crew_under(alloc, guests, done, node, object)
    } else {
        Ok(Crew::Coded)
    }
}

fn each_crew(
    alloc: Global,
    p: &Typed,
    guests: u32,
    object: &Map<String, Value>,
) -> Result<Vec<Crew>, JsonFail>
    ensures { Gives (λ v. map crew_of v.items) result
        (for_each_after (crew_at_says guests (members_view object.now.entries)) [] p.now.nodes) }
{
    let mut found = Vec::new(alloc);
    for node in p.nodes.iter() {
        match crew_where(alloc, guests, &found, node, object) {
            Ok(crew) => found.push(crew)?,
            Err(fail) => return Err(fail),
        }
    }
    Ok(found)
}

#[tactic(auto, unfolding(crate::specs::FlightFormat::crews))]
fn crews_of(alloc: Global, p: &Typed, guests: u32, value: &Value) -> Result<Vec<Crew>, JsonFail>
    ensures { Gives (λ v. map crew_of v.items) result (crews_say p.now guests (view value.now)) }
{
    let Some(object) = value.as_object() else {
        return Err(fault_at(alloc, JsonKind::WrongShape));
    };
    let found = each_crew(alloc, p, guests, object)?;
    if !has_only_external(p, object) {
        return Err(fault_at(alloc, JsonKind::Unknown));
    }
    Ok(found)
}

/// A crew for each node, in declared order.
#[tactic(auto, unfolding(sot_json::specs::Json::at), using(sot_json::proofs::Parts::found_there, sot_json::proofs::Parts::lacking))]
pub(crate) fn crews_at(
    alloc: Global,
    p: &Typed,
    guests: u32,
    object: &Map<String, Value>,
) -> Result<Vec<Crew>, JsonFail>
    ensures { Gives (λ v. map crew_of v.items) result
        (at (codes "crew") (crews_say p.now guests) (members_view object.now.entries)) }
{
    let value = needed(alloc, object, "crew")?;
    part_of(alloc, "crew", crews_of(alloc, p, guests, value))
}
