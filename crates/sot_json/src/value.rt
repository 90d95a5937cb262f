//! Small readers of JSON values, each with what the value says by the words of `specs/Json.antt`.
ghost use Rattle.std.specs.Prelude.{◌≡◌, ◌≤◌, ◌≤ℤ◌, decimal, map, pos, string_bytes, option_map};
ghost use Rattle.std.specs.Prelude.{IfOk};
ghost use Rattle.serde_json.specs.View.{view, items_view, members_view};
ghost use Rattle.serde_json.specs.Find.{get_member};
ghost use Rattle.sot_json.specs.declared.fault.JsonKind.TheVariants.{NotJson, Missing};
ghost use Rattle.sot_json.specs.Says.{or, part};
ghost use Rattle.sot_json.specs.Json.{json_of, whole, count, two, is_among, all_among};
ghost use Rattle.sot_json.specs.Answers.{Gives, IsHere, IsUnder};
ghost use Rattle.sot_json.specs.Parts.{IsPart};

use crate::fault::{JsonFail, JsonFault, JsonKind};
use crate::path::Path;
use serde_json::{Map, Value};
use std::alloc::{AllocError, Global};

/// The value that the bytes are. They are `NotJson` where they are no JSON, at most 127 arrays and
/// objects deep.
#[tactic(auto, using(crate::proofs::Faults::no_json, crate::proofs::Faults::is_json))]
pub fn value_of(alloc: Global, bytes: &[u8]) -> Result<Value, JsonFail>
    ensures { Gives view result (or NotJson (json_of bytes.now)) }
{
    match Value::from_slice(alloc, bytes) {
        Ok(value) => Ok(value),
        Err(error) => {
            if error.is_memory() {
                return Err(JsonFail::Memory);
            }
            Err(fault_at(alloc, JsonKind::NotJson))
        }
    }
}

/// The fault of that kind at the value itself. Takes no memory.
pub fn fault_at(alloc: Global, kind: JsonKind) -> JsonFail
    ensures { IsHere kind result }
{
    JsonFail::Fault(JsonFault {
        path: Path::root(alloc),
        kind,
    })
}

/// The fault of a part, as it stands from the value that holds the part under that name, but for
/// want of memory.
pub fn fault_under(alloc: Global, name: &str, fail: JsonFail) -> JsonFail
    ensures { IsUnder name.now fail result }
{
    match fail {
        JsonFail::Memory => JsonFail::Memory,
        JsonFail::Fault(fault) => match fault.path.below(alloc, name) {
            Ok(path) => JsonFail::Fault(JsonFault {
                path,
                kind: fault.kind,
            }),
            Err(_) => JsonFail::Memory,
        },
    }
}

/// The fault of an item of a list, as it stands from the list, by the item's place, but for want
/// of memory.
pub fn fault_under_index(alloc: Global, i: usize, fail: JsonFail) -> JsonFail
    ensures { IsUnder (decimal i) fail result }
{
    match decimal_of(alloc, i) {
        Ok(name) => fault_under(alloc, name.as_str(), fail),
        Err(_) => JsonFail::Memory,
    }
}

fn decimal_of(alloc: Global, i: usize) -> Result<String, AllocError>
    ensures { IfOk result (λ s. string_bytes s ≡ decimal i) }
{
    format!(in alloc; "{i}")
}

/// What was read of the part of that name, as it stands from the value that holds the part, but for
/// want of memory.
pub fn part_of<T>(alloc: Global, name: &str, read: Result<T, JsonFail>) -> Result<T, JsonFail>
    ensures { IsPart name.now read result }
{
    match read {
        Ok(part) => Ok(part),
        Err(fail) => Err(fault_under(alloc, name, fail)),
    }
}

// A whole number from `lo` to `hi`, in 128 bits.
#[tactic(auto, unfolding(crate::specs::Json::whole))]
fn wide_of(alloc: Global, lo: i128, hi: i128, value: &Value) -> Result<i128, JsonFail>
    ensures says { Gives (λ x. x) result (whole lo hi (view value.now)) }
    ensures within { IfOk result (λ x. (lo ≤ℤ x) × (x ≤ℤ hi)) }
{
    let Some(number) = value.as_number() else {
        return Err(fault_at(alloc, JsonKind::WrongShape));
    };
    let Some(whole) = number.as_i128() else {
        return Err(fault_at(alloc, JsonKind::NotWhole));
    };
    if lo <= whole && whole <= hi {
        Ok(whole)
    } else {
        Err(fault_at(alloc, JsonKind::OutsideRange))
    }
}

/// A whole number from `lo` to `hi`.
pub fn whole_of(alloc: Global, lo: i64, hi: i64, value: &Value) -> Result<i64, JsonFail>
    ensures { Gives (λ x. x) result (whole lo hi (view value.now)) }
{
    let whole = wide_of(alloc, i128::from(lo), i128::from(hi), value)?;
    Ok(whole as i64)
}

/// A whole number from 0 to that greatest.
#[tactic(auto, unfolding(crate::specs::Json::count))]
pub fn count_of(alloc: Global, greatest: u64, value: &Value) -> Result<u64, JsonFail>
    ensures says { Gives (λ x. x) result (count greatest (view value.now)) }
    ensures within { IfOk result (λ x. x ≤ greatest) }
{
    let whole = wide_of(alloc, 0, i128::from(greatest), value)?;
    Ok(whole as u64)
}

/// The two items of a list of two.
#[tactic(auto, using(crate::proofs::Lists::two_none, crate::proofs::Lists::two_some))]
pub fn two_of(list: &Vec<Value>) -> Option<(&Value, &Value)>
    ensures { option_map (λ v. (view v.0.now, view v.1.now)) result
        ≡ two (items_view list.now.items) }
{
    if list.len() != 2 {
        return None;
    }
    Some((&list[0], &list[1]))
}

/// The value at a key of an object.
pub fn member_of<'v>(object: &'v Map<String, Value>, name: &str) -> Option<&'v Value>
    ensures { option_map (λ x. view x.now) result
        ≡ get_member name.now (members_view object.now.entries) }
{
    object.get(name)
}

/// The value at a key of an object that must be there.
#[tactic(auto, using(crate::proofs::Parts::lacks))]
pub fn needed<'v>(
    alloc: Global,
    object: &'v Map<String, Value>,
    name: &str,
) -> Result<&'v Value, JsonFail>
    ensures { Gives (λ v. view v.now) result
        (part name.now (or Missing (get_member name.now (members_view object.now.entries)))) }
{
    match member_of(object, name) {
        Some(value) => Ok(value),
        None => Err(fault_under(alloc, name, fault_at(alloc, JsonKind::Missing))),
    }
}

/// Whether each key of the object is one of these.
pub fn has_only(object: &Map<String, Value>, keys: &[&str]) -> bool
    ensures { result ≡ all_among (members_view object.now.entries) (map (λ k. k.now) keys.now) }
{
    for (key, _value) in object.iter() {
        if !is_key(keys, key.as_str()) {
            return false;
        }
    }
    true
}

#[tactic(auto, using(crate::proofs::Lists::among_from, crate::proofs::Lists::among_past))]
fn is_key(keys: &[&str], key: &str) -> bool
    ensures { result ≡ is_among key.now (map (λ k. k.now) keys.now) }
{
    for one in keys {
        if key == *one {
            return true;
        }
    }
    false
}
