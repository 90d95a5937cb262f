//! The two halves of a box.

ghost use Rattle.std.specs.Prelude.{◌≡◌, ◌<◌, pos, ◌+ℤ◌, ◌-ℤ◌, ◌≤ℤ◌, ◌<ℤ◌, length, slice_set};
ghost use Rattle.std.specs.Prelude.{MatchBool, MatchOption};
ghost use Rattle.sot_lists.specs.Places.{At};
ghost use Rattle.sot_box.specs.Sides.{AreOrdered};
ghost use Rattle.sot_box.specs.Boxes.{lows};
ghost use Rattle.sot_certify.specs.Cuts.{IsOnePoint, IsWidest, IsMiddle, AreHalves, extent};
ghost use Rattle.sot_certify.specs.Widest.{IsWidestOf};

use sot_box::{BoxN, Interval, Point};

/// The two halves of a box.
#[derive(Clone, Copy, PartialEq, Eq, Debug)]
pub struct BoxHalves {
    pub low: BoxN,
    pub high: BoxN,
}

// How far the ends of an interval are apart.
fn extent(side: Interval) -> i128
    ensures { result ≡ extent side }
{
    side.hi as i128 - side.lo as i128
}

// How far two ends are apart.
fn apart(lo: i64, hi: i64) -> u64
    requires { lo ≤ℤ hi }
    ensures { pos result ≡ hi -ℤ lo }
{
    (hi as i128 - lo as i128) as u64
}

// A number that is greater by so much, and at most `hi`.
fn raised(lo: i64, by: u64, hi: i64) -> i64
    requires { (lo +ℤ pos by) ≤ℤ hi }
    ensures { result ≡ lo +ℤ pos by }
{
    let sum = lo as i128 + by as i128;
    sum as i64
}

// Half of the sum of two ends, rounded down.
fn middle(lo: i64, hi: i64) -> i64
    requires { lo ≤ℤ hi }
    ensures at_most { (result +ℤ result) ≤ℤ (lo +ℤ hi) }
    ensures at_least { (lo +ℤ hi) ≤ℤ ((result +ℤ result) +ℤ pos 1) }
{
    let half = apart(lo, hi) / 2;
    raised(lo, half, hi)
}

// The axis of the widest interval, of equal ones the first.
fn widest(cell: &BoxN) -> usize
    ensures widest { IsWidestOf cell.now (length cell.now) result }
    ensures ordered { AreOrdered cell.now }
{
    let mut axis = 0;
    for i in 1..cell.len() {
        if extent(cell.side(axis)) < extent(cell.side(i)) {
            axis = i;
        }
    }
    axis
}

// The interval on axis `i` of the box with another interval on one axis.
fn side_or(cell: &BoxN, axis: usize, side: Interval, i: usize) -> Interval
    requires there { i < length cell.now }
    ensures { At (slice_set cell.now axis side) i result }
{
    if i == axis { side } else { cell.side(i) }
}

// The box with another interval on one axis.
fn with_side(cell: &BoxN, axis: usize, side: Interval) -> BoxN
    requires inside { axis < length cell.now }
    ensures { result ≡ slice_set cell.now axis side }
{
    let mut sides = [side; 4];
    for i in 0..cell.len() {
        sides[i] = side_or(cell, axis, side, i);
    }
    BoxN::of(&sides[..cell.len()]).unwrap()
}

// The numbers of an interval up to `end`.
fn up_to(side: Interval, end: i64) -> Interval
    requires { side.lo ≤ℤ end }
    ensures lo { result.lo ≡ side.lo }
    ensures hi { result.hi ≡ end }
{
    Interval {
        lo: side.lo,
        hi: end,
    }
}

// The numbers of an interval above `end`.
fn above(side: Interval, end: i64) -> Interval
    requires { end <ℤ side.hi }
    ensures lo { result.lo ≡ end +ℤ pos 1 }
    ensures hi { result.hi ≡ side.hi }
{
    Interval {
        lo: end + 1,
        hi: side.hi,
    }
}

// Half of the sum of the ends of an interval, rounded down.
fn middle_of(side: Interval) -> i64
    requires { side.lo ≤ℤ side.hi }
    ensures { IsMiddle side result }
{
    middle(side.lo, side.hi)
}

// Whether an interval holds one number alone.
fn is_single(side: Interval) -> bool
    ensures { MatchBool result (side.lo ≡ side.hi) (side.lo <ℤ side.hi) }
{
    side.lo == side.hi
}

// The two halves of a box that is cut on its widest axis.
fn cut(cell: &BoxN, axis: usize, side: Interval) -> BoxHalves
    requires widest { IsWidest cell.now axis side }
    requires apart { side.lo <ℤ side.hi }
    ensures { AreHalves cell.now result.low result.high }
{
    let end = middle_of(side);
    let low = up_to(side, end);
    let high = above(side, end);
    BoxHalves {
        low: with_side(cell, axis, low),
        high: with_side(cell, axis, high),
    }
}

/// The halves of a box: its widest side, of equal ones the first, is cut behind half of the sum of
/// its ends, rounded down. `None` exactly where the box is one point.
pub fn halves_of(cell: &BoxN) -> Option<BoxHalves>
    ensures { MatchOption result (IsOnePoint cell.now) (λ h. AreHalves cell.now h.low h.high) }
{
    let axis = widest(cell);
    let side = cell.side(axis);
    if is_single(side) {
        None
    } else {
        Some(cut(cell, axis, side))
    }
}

/// The corner of the low ends of a box.
pub fn low_corner(cell: &BoxN) -> Point
    ensures { result ≡ lows cell.now }
{
    let mut at = [0; 4];
    for i in 0..cell.len() {
        at[i] = cell.side(i).lo;
    }
    Point::of(&at[..cell.len()]).unwrap()
}
