//! Grids: the hull of a region, cut into atoms.

ghost use Rattle.std.specs.Prelude.{◌≡◌, ◌+◌, ◌*◌, ◌<◌, ◌≤◌, ◌≤ℤ◌, [], ◌∷◌, length};
ghost use Rattle.std.specs.Prelude.{IfSome, MatchOption};
ghost use Rattle.sot_lists.specs.Places.{At};
ghost use Rattle.sot_atoms.specs.Places.{IsAxis};
ghost use Rattle.sot_atoms.specs.Blocks.{FitsAxes, atom_count};
ghost use Rattle.sot_atoms.specs.Grids.{side_at, LeavesAxis, LeavesHull, MeetsPlaces, MeetsAxis};
ghost use Rattle.sot_atoms.specs.Grids.{MeetsBlock, IsCut, IsGridAxis, IsOff, on_axis, ClipsAxis};
ghost use Rattle.sot_atoms.specs.Grids.{IsOffHull, ClipsBlock, HasNumbers, IsAreaOf, HasEnds};
ghost use Rattle.sot_atoms.specs.Grids.{CutsHull, IsGrainOf, IsCoarser, AreNumbersOn};

use crate::axis::{Axis, cut, grain, numbers_of, one_place, place_of};
use crate::block::{Block, Stretch};
use sot_box::{BoxN, Interval};
use std::marker::Model;

/// The most atoms that a grid has.
pub const MOST_ATOMS: usize = 33_554_432;

/// The hull of a region of one to four sides, cut into at most 2^25 atoms. It has four axes, in the
/// order in which atoms are counted: where the hull has fewer sides the first axes have one place,
/// and the side with most places lies on the last one.
#[derive(Drop)]
pub struct Grid {
    width: usize,
    // the side of the last axis
    last: usize,
    total: usize,
    axes: [Axis; 4],
}

impl Model for Grid {
    ghost use Rattle.std.specs.Prelude.{◌≡◌};
    ghost use Rattle.sot_atoms.specs.Blocks.{atom_count};
    ghost use Rattle.sot_atoms.specs.Grids.{Cut, IsCut};

    ghost Value = { Cut };

    ghost view = { λ g. record { width = g.width; last = g.last; axes = g.axes } };

    ghost invariant = { λ g. record {
      cut : IsCut g.width g.last g.axes;
      count : g.total ≡ atom_count g.axes;
    } };
}

// How many places a side has with a grain of 2 to this.
fn places(numbers: Interval, shift: u32) -> usize
    requires { shift < 64 }
{
    cut(0, numbers, shift).size
}

// How many atoms a hull has with these grains; as many as can be said where there are more.
fn atoms(hull: &BoxN, shifts: &[u32]) -> u64
    requires count { length shifts.now ≡ 4 }
{
    let mut count = 1u64;
    for i in 0..hull.len() {
        let shift = shifts[i].min(63);
        count = count.saturating_mul(places(hull.side(i), shift) as u64);
    }
    count
}

// The side with most places, of equal ones the first.
fn most_places(hull: &BoxN, shifts: &[u32]) -> usize
    requires count { length shifts.now ≡ 4 }
    ensures there { result < length hull.now }
    ensures few { result < 4 }
{
    let mut most = 0;
    for i in 1..hull.len() {
        if places(hull.side(most), shifts[most].min(63)) < places(hull.side(i), shifts[i].min(63)) {
            most = i;
        }
    }
    most
}

// Makes the grain of a side twice as wide.
fn double(shifts: &mut [u32], side: usize)
    requires there { side < length shifts.old }
{
    shifts[side] = shifts[side].min(62) + 1;
}

// The narrowest grains with at most so many atoms: that of the side with most places is doubled
// until there are no more.
fn narrow(hull: &BoxN, many: u64, shifts: &mut [u32])
    requires { length shifts.old ≡ 4 }
{
    // Four sides of 64 bits are one place each after so many turns.
    for _turn in 0..256 {
        if atoms(hull, shifts) <= many {
            return;
        }
        let side = most_places(hull, shifts);
        double(shifts, side);
    }
}

// Doubles the grain of each side that has more than one place.
fn widen(hull: &BoxN, shifts: &mut [u32])
    requires { length shifts.old ≡ 4 }
{
    for i in 0..hull.len() {
        if places(hull.side(i), shifts[i].min(63)) > 1 {
            double(shifts, i);
        }
    }
}

// Which side lies on axis k.
fn side_at(width: usize, last: usize, k: usize) -> usize
    requires first { 4 ≤ k + width }
    requires below { k < 4 }
    requires few { width ≤ 4 }
    requires last { last < width }
    ensures value { result ≡ side_at width last k }
    ensures there { result < width }
{
    if k == 3 {
        return last;
    }
    let place = k + width - 4;
    if place < last { place } else { place + 1 }
}

// The axis of a side.
fn axis_of(width: usize, last: usize, side: usize) -> usize
    requires few { width ≤ 4 }
    requires last { last < width }
    requires there { side < width }
    ensures first { 4 ≤ result + width }
    ensures below { result < 4 }
    ensures value { side_at width last result ≡ side }
{
    if side == last {
        return 3;
    }
    let place = if side < last { side } else { side - 1 };
    place + 4 - width
}

// Axis k of a hull with these grains.
fn axis_at(hull: &BoxN, shifts: &[u32], last: usize, k: usize) -> Axis
    requires count { length shifts.now ≡ 4 }
    requires last { last < length hull.now }
    requires below { k < 4 }
    ensures axis { IsGridAxis (length hull.now) last k result }
    ensures ends { HasEnds result hull.now }
{
    let width = hull.len();
    if k + width < 4 {
        return one_place(hull.side(0));
    }
    let side = side_at(width, last, k);
    cut(side, hull.side(side), shifts[side].min(63))
}

// How many atoms four axes have, where they are few enough.
fn few_atoms(a: usize, b: usize, c: usize, d: usize) -> Option<usize>
    ensures { IfSome result (λ n. (n ≡ a * (b * (c * (d * 1)))) × (n ≤ 33554432)) }
{
    let rest = c.checked_mul(d)?;
    let more = b.checked_mul(rest)?;
    let all = a.checked_mul(more)?;
    if all <= MOST_ATOMS { Some(all) } else { None }
}

// All of so many places.
fn all_of(size: usize) -> Stretch
    requires { 0 < size }
    ensures from { result.from ≡ 0 }
    ensures to { result.to + 1 ≡ size }
{
    Stretch {
        from: 0,
        to: size - 1,
    }
}

// The places that an interval on an axis meets.
fn places_of(axis: Axis, numbers: Interval) -> Stretch
    requires cut { IsAxis axis }
    requires low { axis.lo ≤ℤ numbers.lo }
    requires high { numbers.hi ≤ℤ axis.hi }
    ensures { MeetsPlaces axis numbers result }
{
    Stretch {
        from: place_of(axis, numbers.lo),
        to: place_of(axis, numbers.hi),
    }
}

// The places of an axis that an interval meets; `None` where some of it is outside.
fn stretch_on(axis: Axis, numbers: Interval) -> Option<Stretch>
    requires { IsAxis axis }
    ensures { MatchOption result (LeavesAxis axis numbers) (λ r. MeetsPlaces axis numbers r) }
{
    if numbers.lo < axis.lo || axis.hi < numbers.hi {
        return None;
    }
    Some(places_of(axis, numbers))
}

// The numbers of an interval that are on an axis, of which there are some.
fn part_on(axis: Axis, numbers: Interval) -> Interval
    requires cut { IsAxis axis }
    requires low { axis.lo ≤ℤ numbers.hi }
    requires high { numbers.lo ≤ℤ axis.hi }
    ensures value { result ≡ on_axis axis numbers }
    ensures low { axis.lo ≤ℤ result.lo }
    ensures high { result.hi ≤ℤ axis.hi }
{
    let lo = numbers.lo.max(axis.lo);
    let hi = numbers.hi.min(axis.hi);
    Interval { lo, hi }
}

// The places of an axis that an interval meets as far as it is on it; `None` where it is not.
fn clipped_on(axis: Axis, numbers: Interval) -> Option<Stretch>
    requires { IsAxis axis }
    ensures { MatchOption result (IsOff axis numbers)
        (λ r. MeetsPlaces axis (on_axis axis numbers) r) }
{
    if numbers.hi < axis.lo || axis.hi < numbers.lo {
        return None;
    }
    let part = part_on(axis, numbers);
    Some(places_of(axis, part))
}

// One place.
fn single(place: usize) -> Stretch {
    Stretch {
        from: place,
        to: place,
    }
}

// The axis with a wider grain, where it has more than one place.
fn coarser_axis(axis: Axis, by: u32) -> Axis
    requires { IsAxis axis }
    ensures { IsCoarser axis result }
{
    if axis.size == 1 {
        return axis;
    }
    let numbers = Interval {
        lo: axis.lo,
        hi: axis.hi,
    };
    cut(axis.side, numbers, axis.shift.saturating_add(by).min(63))
}

// The numbers of a stretch, as far as the axis has its places.
fn numbers_in(axis: Axis, side: Stretch) -> Interval
    requires { IsAxis axis }
    ensures { side.from ≤ side.to → side.to < axis.size → HasNumbers axis side result }
{
    let to = side.to.min(axis.size - 1);
    let from = side.from.min(to);
    numbers_of(axis, from, to)
}

impl Grid {
    /// The hull cut with the narrowest grains of at most `many` atoms, and then with the grain of
    /// each side of more than one place doubled, so many times. `None` where there are more than
    /// 2^25 atoms.
    pub fn of(hull: &BoxN, many: u64, coarser: u32) -> Option<Grid>
        ensures width { IfSome result (λ g. g.width ≡ length hull.now) }
        ensures hull { IfSome result (λ g. CutsHull g hull.now) }
    {
        let mut shifts = [0u32; 4];
        narrow(hull, many, &mut shifts);
        let last = most_places(hull, &shifts);
        for _time in 0..coarser {
            widen(hull, &mut shifts);
        }
        Grid::cut(hull, &shifts, last)
    }

    // The hull with these grains, and this side on the last axis.
    fn cut(hull: &BoxN, shifts: &[u32], last: usize) -> Option<Grid>
        requires count { length shifts.now ≡ 4 }
        requires last { last < length hull.now }
        ensures width { IfSome result (λ g. g.width ≡ length hull.now) }
        ensures hull { IfSome result (λ g. CutsHull g hull.now) }
    {
        let a = axis_at(hull, shifts, last, 0);
        let b = axis_at(hull, shifts, last, 1);
        let c = axis_at(hull, shifts, last, 2);
        let d = axis_at(hull, shifts, last, 3);
        Grid::made(hull.len(), last, a, b, c, d)
    }

    // A grid of these axes, where they have few enough atoms.
    fn made(width: usize, last: usize, a: Axis, b: Axis, c: Axis, d: Axis) -> Option<Grid>
        requires some { 0 < width }
        requires few { width ≤ 4 }
        requires last { last < width }
        requires first { IsGridAxis width last 0 a }
        requires second { IsGridAxis width last 1 b }
        requires third { IsGridAxis width last 2 c }
        requires fourth { IsGridAxis width last 3 d }
        ensures width { IfSome result (λ g. g.width ≡ width) }
        ensures axes { IfSome result (λ g. g.axes ≡ a ∷ b ∷ c ∷ d ∷ []) }
    {
        let total = few_atoms(a.size, b.size, c.size, d.size)?;
        Some(Grid {
            width,
            last,
            total,
            axes: [a, b, c, d],
        })
    }

    /// How many sides the hull has.
    pub fn width(&self) -> usize
        ensures value { result ≡ self.now.width }
        ensures some { 0 < result }
        ensures few { result ≤ 4 }
    {
        self.width
    }

    /// The axes, in order.
    pub fn axes(&self) -> &[Axis]
        ensures value { result.now ≡ self.now.axes }
        ensures count { length result.now ≡ 4 }
        ensures cut { IsCut self.now.width self.now.last self.now.axes }
    {
        &self.axes
    }

    /// How many atoms there are.
    pub fn total(&self) -> usize
        ensures value { result ≡ atom_count self.now.axes }
        ensures few { result ≤ 33554432 }
    {
        self.total
    }

    /// All atoms.
    pub fn whole(&self) -> Block
        ensures { FitsAxes self.now.axes result }
    {
        let [first, second, third, fourth] = self.axes;
        Block::of([
            all_of(first.size),
            all_of(second.size),
            all_of(third.size),
            all_of(fourth.size),
        ])
    }

    /// The grain of a side.
    pub fn grain(&self, side: usize) -> usize
        requires { side < self.now.width }
        ensures { IsGrainOf self.now side result }
    {
        let k = axis_of(self.width, self.last, side);
        grain(self.axis(k).shift)
    }

    // Axis k.
    fn axis(&self, k: usize) -> Axis
        requires { k < 4 }
        ensures there { At self.now.axes k result }
        ensures cut { IsAxis result }
        ensures side { result.side < self.now.width }
        ensures axis { IsGridAxis self.now.width self.now.last k result }
    {
        let axes = &self.axes;
        axes[k]
    }

    // The places on axis k that a box meets; `None` where some of it is outside.
    fn stretch(&self, b: &BoxN, k: usize) -> Option<Stretch>
        requires width { length b.now ≡ self.now.width }
        requires below { k < 4 }
        ensures { MeetsAxis self.now.axes b.now k result }
    {
        let axis = self.axis(k);
        stretch_on(axis, b.side(axis.side))
    }

    /// The atoms that a box meets; `None` where some of it is outside the hull.
    pub fn block(&self, b: &BoxN) -> Option<Block>
        requires { length b.now ≡ self.now.width }
        ensures places { MatchOption result
            (LeavesHull self.now.axes b.now) (λ q. MeetsBlock self.now.axes b.now q) }
        ensures fits { IfSome result (λ q. FitsAxes self.now.axes q) }
    {
        // A look at the axes and the box brings how they are made.
        let _axes = self.axes();
        let _width = b.len();
        let first = self.stretch(b, 0)?;
        let second = self.stretch(b, 1)?;
        let third = self.stretch(b, 2)?;
        let fourth = self.stretch(b, 3)?;
        Some(Block::of([first, second, third, fourth]))
    }

    // The places on axis k that a box meets as far as it is on the axis; `None` where it is not.
    fn clipped(&self, b: &BoxN, k: usize) -> Option<Stretch>
        requires width { length b.now ≡ self.now.width }
        requires below { k < 4 }
        ensures { ClipsAxis self.now.axes b.now k result }
    {
        let axis = self.axis(k);
        clipped_on(axis, b.side(axis.side))
    }

    /// The atoms that a box meets as far as it lies in the hull; `None` where it does not meet it.
    pub fn clip(&self, b: &BoxN) -> Option<Block>
        requires { length b.now ≡ self.now.width }
        ensures places { MatchOption result
            (IsOffHull self.now.axes b.now) (λ q. ClipsBlock self.now.axes b.now q) }
        ensures fits { IfSome result (λ q. FitsAxes self.now.axes q) }
    {
        // A look at the axes and the box brings how they are made.
        let _axes = self.axes();
        let _width = b.len();
        let first = self.clipped(b, 0)?;
        let second = self.clipped(b, 1)?;
        let third = self.clipped(b, 2)?;
        let fourth = self.clipped(b, 3)?;
        Some(Block::of([first, second, third, fourth]))
    }

    /// The atom of a number below the number of atoms.
    pub fn atom(&self, number: usize) -> Block {
        let fourth = self.axis(3).size;
        let third = self.axis(2).size;
        let second = self.axis(1).size;
        let rows = number / fourth;
        let sheets = rows / third;
        let first = sheets / second;
        Block::of([
            single(first),
            single(sheets % second),
            single(rows % third),
            single(number % fourth),
        ])
    }

    /// A grid of the same hull with a grain that is 2 to `by` times as wide on each axis of more
    /// than one place. `None` where it has more than 2^25 atoms.
    pub fn coarser(&self, by: u32) -> Option<Grid>
        ensures { IfSome result (λ g. g.width ≡ self.now.width) }
    {
        let a = coarser_axis(self.axis(0), by);
        let b = coarser_axis(self.axis(1), by);
        let c = coarser_axis(self.axis(2), by);
        let d = coarser_axis(self.axis(3), by);
        Grid::made(self.width(), self.last(), a, b, c, d)
    }

    // The side on the last axis.
    fn last(&self) -> usize
        ensures value { result ≡ self.now.last }
        ensures there { result < self.now.width }
    {
        self.last
    }

    // The numbers of a block on a side.
    fn numbers(&self, block: &Block, side: usize) -> Interval
        requires { side < self.now.width }
        ensures { AreNumbersOn self.now block.now side result }
    {
        let k = axis_of(self.width, self.last, side);
        numbers_in(self.axis(k), block.side(k))
    }

    /// The points of a block; where a stretch goes further than its axis, those on the axis.
    pub fn area(&self, block: &Block) -> BoxN
        ensures width { length result ≡ self.now.width }
        ensures numbers { FitsAxes self.now.axes block.now → IsAreaOf self.now block.now result }
        ensures cut { IsCut self.now.width self.now.last self.now.axes }
    {
        let mut sides = [Interval { lo: 0, hi: 0 }; 4];
        for side in 0..self.width {
            sides[side] = self.numbers(block, side);
        }
        BoxN::of(&sides[..self.width]).unwrap()
    }
}
