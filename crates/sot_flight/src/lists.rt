//! Numbers of a flight's JSON, and lists of them.

ghost use Rattle.std.specs.Prelude.{◌≡◌, [], length, map, vec_len};
ghost use Rattle.serde_json.specs.View.{view, items_view};
ghost use Rattle.sot_json.specs.Json.{each, each_after};
ghost use Rattle.sot_cert.specs.CertFormat.{number};
ghost use Rattle.sot_json.specs.Answers.{Gives};
ghost use Rattle.sot_flight.specs.ListForms.{number_in, numbers_in, numbers, rows_in, slot, draft};
ghost use Rattle.sot_flight.specs.ListForms.{drafts, number_at};

use serde_json::Value;
use sot_box::Interval;
use sot_json::{JsonFail, JsonKind, fault_at, fault_under_index, whole_of};
use std::alloc::Global;

const GREATEST: i64 = 1_000_000_000_000;

// A number.
#[tactic(auto, unfolding(sot_cert::specs::CertFormat::number))]
fn number_of(alloc: Global, value: &Value) -> Result<i64, JsonFail>
    ensures { Gives (λ x. x) result (number (view value.now)) }
{
    whole_of(alloc, -GREATEST, GREATEST, value)
}

// A number in a range.
#[tactic(auto, unfolding(crate::specs::ListForms::number_in))]
fn number_in_of(alloc: Global, range: &Interval, value: &Value) -> Result<i64, JsonFail>
    ensures { Gives (λ x. x) result (number_in range.now (view value.now)) }
{
    let number = number_of(alloc, value)?;
    if range.lo <= number && number <= range.hi {
        Ok(number)
    } else {
        Err(fault_at(alloc, JsonKind::OutsideRange))
    }
}

fn each_in(alloc: Global, ranges: &[Interval], list: &Vec<Value>) -> Result<Vec<i64>, JsonFail>
    requires { vec_len list.now ≡ length ranges.now }
    ensures { Gives (λ x. x.items) result
        (each_after (number_at ranges.now) [] (items_view list.now.items)) }
{
    let mut found = Vec::new(alloc);
    for (i, item) in list.iter().enumerate() {
        match number_in_of(alloc, &ranges[i], item) {
            Ok(number) => found.push(number)?,
            Err(fail) => return Err(fault_under_index(alloc, i, fail)),
        }
    }
    Ok(found)
}

/// A list of numbers, one in each of these ranges.
#[tactic(auto, unfolding(crate::specs::ListForms::numbers_in), using(sot_json::proofs::Lists::items_len_view))]
pub(crate) fn numbers_in_of(
    alloc: Global,
    ranges: &[Interval],
    value: &Value,
) -> Result<Vec<i64>, JsonFail>
    ensures { Gives (λ x. x.items) result (numbers_in ranges.now (view value.now)) }
{
    let Some(list) = value.as_array() else {
        return Err(fault_at(alloc, JsonKind::WrongShape));
    };
    if list.len() != ranges.len() {
        return Err(fault_at(alloc, JsonKind::Width));
    }
    each_in(alloc, ranges, list)
}

fn each_number(alloc: Global, list: &Vec<Value>) -> Result<Vec<i64>, JsonFail>
    ensures { Gives (λ x. x.items) result (each number (items_view list.now.items)) }
{
    let mut found = Vec::new(alloc);
    for item in list.iter() {
        match number_of(alloc, item) {
            Ok(number) => found.push(number)?,
            Err(fail) => return Err(fault_under_index(alloc, found.len(), fail)),
        }
    }
    Ok(found)
}

/// A list of so many numbers.
#[tactic(auto, unfolding(crate::specs::ListForms::numbers), using(sot_json::proofs::Lists::items_len_view))]
pub(crate) fn numbers_of(alloc: Global, width: usize, value: &Value) -> Result<Vec<i64>, JsonFail>
    ensures { Gives (λ x. x.items) result (numbers width (view value.now)) }
{
    let Some(list) = value.as_array() else {
        return Err(fault_at(alloc, JsonKind::WrongShape));
    };
    if list.len() != width {
        return Err(fault_at(alloc, JsonKind::Width));
    }
    each_number(alloc, list)
}

fn each_row(
    alloc: Global,
    ranges: &[Interval],
    list: &Vec<Value>,
) -> Result<Vec<Vec<i64>>, JsonFail>
    ensures { Gives (λ x. map (λ row. row.items) x.items) result
        (each (numbers_in ranges.now) (items_view list.now.items)) }
{
    let mut found = Vec::new(alloc);
    for item in list.iter() {
        match numbers_in_of(alloc, ranges, item) {
            Ok(row) => found.push(row)?,
            Err(fail) => return Err(fault_under_index(alloc, found.len(), fail)),
        }
    }
    Ok(found)
}

/// At least one list of numbers in these ranges.
#[tactic(auto, unfolding(crate::specs::ListForms::rows_in), using(sot_json::proofs::Lists::items_len_view))]
pub(crate) fn rows_in_of(
    alloc: Global,
    ranges: &[Interval],
    value: &Value,
) -> Result<Vec<Vec<i64>>, JsonFail>
    ensures { Gives (λ x. map (λ row. row.items) x.items) result
        (rows_in ranges.now (view value.now)) }
{
    let Some(list) = value.as_array() else {
        return Err(fault_at(alloc, JsonKind::WrongShape));
    };
    if list.is_empty() {
        return Err(fault_at(alloc, JsonKind::Empty));
    }
    each_row(alloc, ranges, list)
}

// A number, or `null` for none.
#[tactic(auto, unfolding(crate::specs::ListForms::slot))]
fn slot_of(alloc: Global, value: &Value) -> Result<Option<i64>, JsonFail>
    ensures { Gives (λ x. x) result (slot (view value.now)) }
{
    if value.is_null() {
        return Ok(None);
    }
    match number_of(alloc, value) {
        Ok(number) => Ok(Some(number)),
        Err(fail) => Err(fail),
    }
}

fn each_slot(alloc: Global, list: &Vec<Value>) -> Result<Vec<Option<i64>>, JsonFail>
    ensures { Gives (λ x. x.items) result (each slot (items_view list.now.items)) }
{
    let mut found = Vec::new(alloc);
    for item in list.iter() {
        match slot_of(alloc, item) {
            Ok(slot) => found.push(slot)?,
            Err(fail) => return Err(fault_under_index(alloc, found.len(), fail)),
        }
    }
    Ok(found)
}

// A list of so many slots.
#[tactic(auto, unfolding(crate::specs::ListForms::draft), using(sot_json::proofs::Lists::items_len_view))]
fn draft_of(alloc: Global, size: usize, value: &Value) -> Result<Vec<Option<i64>>, JsonFail>
    ensures { Gives (λ x. x.items) result (draft size (view value.now)) }
{
    let Some(list) = value.as_array() else {
        return Err(fault_at(alloc, JsonKind::WrongShape));
    };
    if list.len() != size {
        return Err(fault_at(alloc, JsonKind::Width));
    }
    each_slot(alloc, list)
}

fn each_draft(
    alloc: Global,
    size: usize,
    list: &Vec<Value>,
) -> Result<Vec<Vec<Option<i64>>>, JsonFail>
    ensures { Gives (λ x. map (λ row. row.items) x.items) result
        (each (draft size) (items_view list.now.items)) }
{
    let mut found = Vec::new(alloc);
    for item in list.iter() {
        match draft_of(alloc, size, item) {
            Ok(row) => found.push(row)?,
            Err(fail) => return Err(fault_under_index(alloc, found.len(), fail)),
        }
    }
    Ok(found)
}

/// At least one list of so many slots.
#[tactic(auto, unfolding(crate::specs::ListForms::drafts), using(sot_json::proofs::Lists::items_len_view))]
pub(crate) fn drafts_of(
    alloc: Global,
    size: usize,
    value: &Value,
) -> Result<Vec<Vec<Option<i64>>>, JsonFail>
    ensures { Gives (λ x. map (λ row. row.items) x.items) result (drafts size (view value.now)) }
{
    let Some(list) = value.as_array() else {
        return Err(fault_at(alloc, JsonKind::WrongShape));
    };
    if list.is_empty() {
        return Err(fault_at(alloc, JsonKind::Empty));
    }
    each_draft(alloc, size, list)
}
