//! Less is asked where all that is asked wants too many boxes.

ghost use Rattle.std.specs.Prelude.{◌≡◌, ◌<◌, ℤ, List, length, IfOk, IfErr, IfSome};
ghost use Rattle.sot_invariant_atoms.specs.Asking.{asked_width};
ghost use Rattle.sot_regions.specs.Shapes.{HasShape};
ghost use Rattle.sot_regions.specs.declared.found.RegionsFail.TheVariants.{SafeNone};

use crate::asked::{closed_in, narrowest_grid, regions_from};
use crate::found::{FoundRegions, RegionsFail};
use sot_box::{BoxN, Interval, Region};
use sot_invariant_atoms::ModuleAsk;
use std::alloc::{AllocError, Global};

// How far the ends of a side are apart.
fn width(hull: &BoxN, side: usize) -> u64
    requires { side < length hull.now }
{
    let numbers = hull.side(side);
    numbers.lo.abs_diff(numbers.hi)
}

// Whether a side of a hull comes before another: it is narrower, or as narrow and earlier.
fn comes_before(hull: &BoxN, side: usize, other: usize) -> bool
    requires side { side < length hull.now }
    requires other { other < length hull.now }
{
    let one = width(hull, side);
    let two = width(hull, other);
    one < two || one == two && side < other
}

// The side of a hull before which so many come.
fn side_behind(hull: &BoxN, count: usize) -> Option<usize>
    ensures { IfSome result (λ side. side < length hull.now) }
{
    for side in 0..hull.len() {
        let mut before = 0usize;
        for other in 0..hull.len() {
            if comes_before(hull, other, side) {
                before = before.saturating_add(1);
            }
        }
        if before == count {
            return Some(side);
        }
    }
    None
}

// The middle of a side, as wide as the side divided so often by 2.
fn middle(numbers: Interval, halvings: u32) -> Interval {
    let width = numbers.hi.saturating_sub(numbers.lo);
    let off = width.saturating_sub(width >> halvings.min(63)) / 2;
    let lo = numbers.lo.saturating_add(off);
    let hi = numbers.hi.saturating_sub(off);
    Interval::new(lo, hi).unwrap_or(numbers)
}

// The part of a box whose numbers on one side lie in an interval.
fn part_of(b: &BoxN, side: usize, numbers: Interval) -> Option<BoxN>
    requires { side < length b.now }
    ensures { IfSome result (λ r. length r ≡ length b.now) }
{
    let mut sides = [Interval { lo: 0, hi: 0 }; 4];
    for i in 0..b.len() {
        sides[i] = b.side(i);
    }
    let cut = sides[side];
    sides[side] = Interval::new(cut.lo.max(numbers.lo), cut.hi.min(numbers.hi))?;
    BoxN::of(&sides[..b.len()])
}

// The part of a region whose numbers on one side lie in an interval.
fn part_in(
    alloc: Global,
    region: &Region,
    width: usize,
    side: usize,
    numbers: Interval,
) -> Result<Region, AllocError>
    requires width { width ≡ region.now.width }
    requires there { side < width }
    ensures { IfOk result (λ r. r.width ≡ width) }
{
    let mut kept = Region::none(alloc, width);
    for i in 0..region.len() {
        if let Some(part) = part_of(&region.at(i), side, numbers) {
            if kept.push(part).is_err() {
                return Err(AllocError);
            }
        }
    }
    Ok(kept)
}

// Regions in the middle of one side, or why there are none.
fn regions_beside(
    alloc: Global,
    ask: &ModuleAsk<'_>,
    given: &Region,
    width: usize,
    side: usize,
    numbers: Interval,
) -> Result<FoundRegions, RegionsFail>
    requires asked { width ≡ asked_width ask.now }
    requires given { width ≡ given.now.width }
    requires there { side < width }
    ensures shape { IfOk result (HasShape (asked_width ask.now)) }
    ensures fail { IfErr result (λ e. (grain : List ℤ) → e ≡ SafeNone grain → ⊥) }
{
    let kept = part_in(alloc, given, width, side, numbers)?;
    let Some(hull) = kept.hull() else {
        return Err(RegionsFail::TooMany);
    };
    let Some(narrowest) = narrowest_grid(ask, &hull) else {
        return Err(RegionsFail::TooMany);
    };
    let set = closed_in(alloc, ask, &narrowest, &kept)?;
    regions_from(alloc, ask, &kept, &narrowest, &set)
}

/// Regions in the middle half, quarter or eighth of one side of the given region, the narrowest
/// side first: the first ones that are found.
pub(crate) fn narrowed(
    alloc: Global,
    ask: &ModuleAsk<'_>,
    given: &Region,
    hull: &BoxN,
) -> Result<FoundRegions, RegionsFail>
    requires given { given.now.width ≡ asked_width ask.now }
    requires hull { length hull.now ≡ asked_width ask.now }
    ensures shape { IfOk result (HasShape (asked_width ask.now)) }
    ensures fail { IfErr result (λ e. (grain : List ℤ) → e ≡ SafeNone grain → ⊥) }
{
    for halvings in 1..4 {
        for count in 0..hull.len() {
            let Some(side) = side_behind(hull, count) else {
                break;
            };
            let numbers = middle(hull.side(side), halvings);
            match regions_beside(alloc, ask, given, hull.len(), side, numbers) {
                Ok(found) => return Ok(found),
                Err(RegionsFail::Memory) => return Err(RegionsFail::Memory),
                Err(_) => {}
            }
        }
    }
    Err(RegionsFail::TooMany)
}
