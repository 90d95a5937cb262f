//! An index of boxes, sorted on their low ends on the first axis.
//!
//! A box that holds a point begins at or before it on the first axis, and does not end before it.
//! So the search starts at the last box that begins at or before the point, goes backwards, and
//! ends where no box that is left reaches the point.

ghost use Rattle.std.specs.Prelude.{◌≡◌, ℕ, ◌<◌, ◌≤◌, ◌<ℤ◌, ◌≤ℤ◌, int_le, length, slice_get};
ghost use Rattle.std.specs.Prelude.{slice_index_or, Some, IfOk, MatchOption};
ghost use Rattle.std.specs.List.{All};
ghost use Rattle.sot_box.specs.Regions.{IsInRegion};
ghost use Rattle.sot_box.specs.Sweep.{HoldsAt};
ghost use Rattle.sot_box.specs.Index.{entries_from, AreInOrder, AreReaches, IsIndex};

use crate::box_n::BoxN;
use crate::point::Point;
use std::alloc::{AllocError, Global};

/// Where a box begins on the first axis, and its place in the list of boxes.
#[derive(Clone, Copy)]
pub(crate) struct Entry {
    low: i64,
    place: usize,
}

/// The boxes of a list, in the order of their low ends on the first axis.
pub(crate) struct Index {
    entries: Vec<Entry>,
    // at each place the greatest high end on the first axis of the boxes that the entries up to
    // there name
    reaches: Vec<i64>,
}

impl Drop for Index {
    fn drop(self) {
        let Index {
            entries: _,
            reaches: _,
        } = self;
    }
}

impl Index {
    /// The index of these boxes. It takes the time of a sort, and memory for two numbers and a
    /// place a box.
    pub(crate) fn of(alloc: Global, boxes: &[BoxN]) -> Result<Index, AllocError>
        ensures { IfOk result (λ x. IsIndex boxes.now x.entries.items x.reaches.items) }
    {
        let mut entries = entries_of(alloc, boxes)?;
        entries.sort_by_key(|e| e.low)?;
        let reaches = reaches_of(alloc, boxes, &entries)?;
        Ok(Index { entries, reaches })
    }

    /// The place of a box that holds the point.
    pub(crate) fn holder(&self, boxes: &[BoxN], p: &Point) -> Option<usize>
        requires widths { All (λ b. length b ≡ length p.now) boxes.now }
        requires index { IsIndex boxes.now self.now.entries.items self.now.reaches.items }
        ensures { MatchOption result
            (¬ IsInRegion boxes.now p.now) (λ i. HoldsAt boxes.now i p.now) }
    {
        indexed_holder(boxes, &self.entries, &self.reaches, p)
    }
}

/// The entries of the boxes, in the order of the boxes.
fn entries_of(alloc: Global, boxes: &[BoxN]) -> Result<Vec<Entry>, AllocError>
    ensures { IfOk result (λ v. v.items ≡ entries_from 0 boxes.now) }
{
    let mut entries = Vec::new(alloc);
    for i in 0..boxes.len() {
        let b = &boxes[i];
        entries.push(Entry {
            low: b.first().lo,
            place: i,
        })?;
    }
    Ok(entries)
}

/// For each entry how far the boxes of it and of those before it reach on the first axis.
fn reaches_of(alloc: Global, boxes: &[BoxN], entries: &[Entry]) -> Result<Vec<i64>, AllocError>
    requires { All (λ e. e.place < length boxes.now) entries.now }
    ensures { IfOk result (λ v. AreReaches boxes.now entries.now v.items) }
{
    let mut reaches = Vec::new(alloc);
    let mut greatest = i64::MIN;
    for e in entries {
        let b = &boxes[e.place];
        greatest = greatest.max(b.first().hi);
        reaches.push(greatest)?;
    }
    Ok(reaches)
}

/// How many entries begin at or before the number, by halving.
fn begun_by(entries: &[Entry], x: i64) -> usize
    requires { AreInOrder entries.now }
    ensures bound { result ≤ length entries.now }
    ensures later { (k : ℕ) (d : Entry) → result ≤ k → k < length entries.now
        → x <ℤ (slice_index_or entries.now k d).low }
{
    entries.partition_point(
        |e: &Entry| -> bool
            ensures { result ≡ int_le e.now.low x }
        { e.low <= x },
    )
}

/// The place of a box that holds the point, by the index of the boxes. It looks at boxes that begin
/// at or before the point on the first axis, and at none before one up to which no box reaches the
/// point.
fn indexed_holder(boxes: &[BoxN], entries: &[Entry], reaches: &[i64], p: &Point) -> Option<usize>
    requires widths { All (λ b. length b ≡ length p.now) boxes.now }
    requires index { IsIndex boxes.now entries.now reaches.now }
    ensures { MatchOption result
        (¬ IsInRegion boxes.now p.now) (λ i. HoldsAt boxes.now i p.now) }
{
    let x = p.first();
    let mut left = begun_by(entries, x);
    while left > 0 {
        left -= 1;
        if reaches[left] < x {
            return None;
        }
        let place = entries[left].place;
        if boxes[place].has(p) {
            return Some(place);
        }
    }
    None
}
