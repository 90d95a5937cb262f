//! Sides, cells and lists of cells of a certificate.
ghost use Rattle.std.specs.Prelude.{◌≡◌, ◌≤◌, length, IfOk, IfErr};
ghost use Rattle.serde_json.specs.View.{view, items_view};
ghost use Rattle.sot_json.specs.Says.{part};
ghost use Rattle.sot_json.specs.Json.{each};
ghost use Rattle.sot_cert.specs.CertFormat.{number, side, cell, cells, region_of};
ghost use Rattle.sot_json.specs.declared.fault.JsonFail.TheVariants.{Memory};
ghost use Rattle.sot_json.specs.Answers.{Gives};

use serde_json::Value;
use sot_box::{BoxN, Interval, Region};
use sot_json::{JsonFail, JsonKind, fault_at, fault_under_index, part_of, two_of, whole_of};
use std::alloc::Global;

const GREATEST: i64 = 1_000_000_000_000;

const CELL_LIMIT: usize = 4096;

#[tactic(auto, unfolding(crate::specs::CertFormat::number))]
fn number_of(alloc: Global, value: &Value) -> Result<i64, JsonFail>
    ensures { Gives (λ x. x) result (number (view value.now)) }
{
    whole_of(alloc, -GREATEST, GREATEST, value)
}

#[tactic(auto, using(sot_json::proofs::Parts::part_gives))]
fn end_of(alloc: Global, place: &str, value: &Value) -> Result<i64, JsonFail>
    ensures { Gives (λ x. x) result (part place.now (number (view value.now))) }
{
    part_of(alloc, place, number_of(alloc, value))
}

#[tactic(auto, unfolding(crate::specs::CertFormat::side))]
fn side_of(alloc: Global, value: &Value) -> Result<Interval, JsonFail>
    ensures { Gives (λ x. x) result (side (view value.now)) }
{
    let Some(list) = value.as_array() else {
        return Err(fault_at(alloc, JsonKind::WrongShape));
    };
    let Some((lo, hi)) = two_of(list) else {
        return Err(fault_at(alloc, JsonKind::Width));
    };
    let lo = end_of(alloc, "0", lo)?;
    let hi = end_of(alloc, "1", hi)?;
    match Interval::new(lo, hi) {
        Some(side) => Ok(side),
        None => Err(fault_at(alloc, JsonKind::Empty)),
    }
}

// The sides of a cell, in places for as many.
fn put_sides(alloc: Global, list: &[Value], sides: &mut [Interval]) -> Result<(), JsonFail>
    requires { length sides.old ≡ length list.now }
    ensures says { Gives (λ _. sides.new) result (each side (items_view list.now)) }
    ensures size { length sides.new ≡ length sides.old }
{
    for i in 0..list.len() {
        match side_of(alloc, &list[i]) {
            Ok(side) => sides[i] = side,
            Err(fail) => return Err(fault_under_index(alloc, i, fail)),
        }
    }
    Ok(())
}

#[tactic(auto, unfolding(crate::specs::CertFormat::cell), using(sot_json::proofs::Lists::items_len_view, crate::proofs::Sides::cell_len))]
fn cell_of(alloc: Global, width: usize, value: &Value) -> Result<BoxN, JsonFail>
    requires { (1 ≤ width) × (width ≤ 4) }
    ensures says { Gives (λ x. x) result (cell width (view value.now)) }
    ensures width { IfOk result (λ b. length b ≡ width) }
{
    let Some(list) = value.as_array() else {
        return Err(fault_at(alloc, JsonKind::WrongShape));
    };
    if list.len() != width {
        return Err(fault_at(alloc, JsonKind::Width));
    }
    let mut inline = [Interval { lo: 0, hi: 0 }; 4];
    let (sides, _) = inline.split_at_mut(width);
    put_sides(alloc, list, sides)?;
    match BoxN::of(sides) {
        Some(cell) => Ok(cell),
        None => unreachable!(),
    }
}

#[tactic(auto, using(sot_json::proofs::Lists::goes_on, sot_json::proofs::Lists::ends, sot_json::proofs::Lists::is_done))]
fn boxes_of(alloc: Global, width: usize, list: &Vec<Value>) -> Result<Region, JsonFail>
    requires { (1 ≤ width) × (width ≤ 4) }
    ensures says { Gives (λ r. r.boxes) result (each (cell width) (items_view list.now.items)) }
    ensures width { IfOk result (λ r. r.width ≡ width) }
{
    let mut found = Region::none(alloc, width);
    for item in list.iter() {
        match cell_of(alloc, width, item) {
            Ok(cell) => match found.push(cell) {
                Ok(()) => {}
                Err(_) => return Err(JsonFail::Memory),
            },
            Err(fail) => return Err(fault_under_index(alloc, found.len(), fail)),
        }
    }
    Ok(found)
}

// The region with its index.
fn settled(mut region: Region) -> Result<Region, JsonFail>
    ensures memory { IfErr result (λ e. e ≡ Memory) }
    ensures ok { IfOk result (λ r. r ≡ region_of region.width region.boxes) }
{
    region.settle()?;
    Ok(region)
}

/// A list of cells, as a region of that width.
#[tactic(auto, unfolding(crate::specs::CertFormat::cells), using(sot_json::proofs::Lists::items_len_view))]
pub(crate) fn cells_of(alloc: Global, width: usize, value: &Value) -> Result<Region, JsonFail>
    requires { (1 ≤ width) × (width ≤ 4) }
    ensures { Gives (λ r. r) result (cells width (view value.now)) }
{
    let Some(list) = value.as_array() else {
        return Err(fault_at(alloc, JsonKind::WrongShape));
    };
    if list.len() > CELL_LIMIT {
        return Err(fault_at(alloc, JsonKind::TooMany));
    }
    let region = boxes_of(alloc, width, list)?;
    settled(region)
}
