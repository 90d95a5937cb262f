//! Axes that are cut into places.

ghost use Rattle.std.specs.Prelude.{◌≡◌, ◌<◌, ◌≤◌, ◌*◌, ◌^◌, pos, ◌+ℤ◌, ◌-ℤ◌, ◌≤ℤ◌, ◌<ℤ◌};
ghost use Rattle.sot_atoms.specs.Places.{IsAxis, IsTight, HoldsNumber, start_of, end_of};

use sot_box::Interval;

/// One axis of a hull, cut into places of one grain. Place `a` begins at `lo + a * grain`, and ends
/// where the next one begins; the last one ends where the axis ends.
#[derive(Clone, Copy, PartialEq, Eq, Debug)]
pub struct Axis {
    /// Which side of a box lies on it.
    pub side: usize,
    pub lo: i64,
    pub hi: i64,
    /// The grain is 2 to this.
    pub shift: u32,
    /// How many places there are.
    pub size: usize,
}

// How far two ends are apart.
fn apart(lo: i64, hi: i64) -> usize
    requires { lo ≤ℤ hi }
    ensures { pos result ≡ hi -ℤ lo }
{
    (hi as i128 - lo as i128) as usize
}

// A number that is greater by so much, and at most `hi`.
fn raised(lo: i64, by: usize, hi: i64) -> i64
    requires { (lo +ℤ pos by) ≤ℤ hi }
    ensures { result ≡ lo +ℤ pos by }
{
    let sum = lo as i128 + by as i128;
    sum as i64
}

/// 2 to a number.
pub(crate) fn grain(shift: u32) -> usize
    requires { shift < 64 }
    ensures { result ≡ 2 ^ shift }
{
    1usize << shift
}

/// The first number of place `a`.
pub(crate) fn first_of(axis: Axis, a: usize) -> i64
    requires cut { IsAxis axis }
    requires there { a < axis.size }
    ensures { result ≡ start_of axis a }
{
    let by = a * grain(axis.shift);
    raised(axis.lo, by, axis.hi)
}

/// The last number of place `a`.
pub(crate) fn last_of(axis: Axis, a: usize) -> i64
    requires cut { IsAxis axis }
    requires there { a < axis.size }
    ensures { result ≡ end_of axis a }
{
    if a + 1 < axis.size {
        first_of(axis, a + 1) - 1
    } else {
        axis.hi
    }
}

/// The numbers of some places in a row.
pub(crate) fn numbers_of(axis: Axis, from: usize, to: usize) -> Interval
    requires cut { IsAxis axis }
    requires order { from ≤ to }
    requires there { to < axis.size }
    ensures lo { result.lo ≡ start_of axis from }
    ensures hi { result.hi ≡ end_of axis to }
{
    let lo = first_of(axis, from);
    let hi = last_of(axis, to);
    Interval { lo, hi }
}

/// The place that holds a number.
pub(crate) fn place_of(axis: Axis, x: i64) -> usize
    requires cut { IsAxis axis }
    requires low { axis.lo ≤ℤ x }
    requires high { x ≤ℤ axis.hi }
    ensures { HoldsNumber axis result x }
{
    let by = apart(axis.lo, x) >> axis.shift;
    by.min(axis.size - 1)
}

/// An axis that is cut with a grain of 2 to `shift`.
pub(crate) fn cut(side: usize, numbers: Interval, shift: u32) -> Axis
    requires { shift < 64 }
    ensures cut { IsAxis result }
    ensures side { result.side ≡ side }
    ensures lo { result.lo ≡ numbers.lo }
    ensures hi { result.hi ≡ numbers.hi }
    ensures shift { result.shift ≡ shift }
    ensures tight { IsTight result }
{
    let lo = numbers.lo;
    let hi = numbers.hi;
    let width = apart(lo, hi) >> shift;
    Axis {
        side,
        lo,
        hi,
        shift,
        size: width.saturating_add(1),
    }
}

/// An axis of one place, on the first side of a hull.
pub(crate) fn one_place(numbers: Interval) -> Axis
    ensures cut { IsAxis result }
    ensures side { result.side ≡ 0 }
    ensures lo { result.lo ≡ numbers.lo }
    ensures hi { result.hi ≡ numbers.hi }
    ensures one { result.size ≡ 1 }
{
    Axis {
        side: 0,
        lo: numbers.lo,
        hi: numbers.hi,
        shift: 0,
        size: 1,
    }
}
