//! An index of boxes by blocks.

ghost use Rattle.std.specs.Prelude.{ℕ, List, ◌≡◌, ◌+◌, ◌*◌, ◌<◌, ◌≤◌, ◌≤ℤ◌, ◌↔◌, ◌⊎◌, length};
ghost use Rattle.std.specs.Prelude.{IsTrue, IfOk, OnOk};
ghost use Rattle.sot_lists.specs.Places.{At, Has};
ghost use Rattle.sot_box.specs.Sides.{Side as Interval_};
ghost use Rattle.sot_recover.specs.Meeting.{Meet, MeetsAt, RiseFrom, IsAround, AreOfOneWidth};
ghost use Rattle.sot_recover.specs.Blocks.{IsInBlock, IsBlocked, RiseBelow};

use crate::hull::hull_of;
use sot_box::{BoxN, Interval};
use std::alloc::{AllocError, Global};
use std::marker::Model;

// How many boxes a block has.
const BLOCK: usize = 64;

/// Boxes in order, by which those that meet a box are found.
pub struct BoxIndex {
    boxes: Vec<BoxN>,
    // around each block
    hulls: Vec<BoxN>,
}

impl Drop for BoxIndex {
    fn drop(self) {
        let BoxIndex { boxes: _, hulls: _ } = self;
    }
}

impl Model for BoxIndex {
    ghost use Rattle.std.specs.Prelude.{List};
    ghost use Rattle.sot_box.specs.Sides.{Side};
    ghost use Rattle.sot_recover.specs.Blocks.{IsBlocked};

    ghost Value = { List (List Side) };

    ghost view = { λ x. x.boxes.items };

    ghost invariant = { λ x. IsBlocked x.boxes.items x.hulls.items };
}

impl BoxIndex {
    /// The index of boxes of one width.
    pub fn of(alloc: Global, boxes: Vec<BoxN>) -> Result<BoxIndex, AllocError>
        requires { AreOfOneWidth boxes.items }
        ensures { IfOk result (λ x. x ≡ boxes.items) }
    {
        let hulls = hulls_of(alloc, &boxes)?;
        Ok(BoxIndex { boxes, hulls })
    }

    /// The number of boxes.
    pub fn len(&self) -> usize
        ensures { result ≡ length self.now }
    {
        self.boxes.len()
    }

    /// The box at place `i`.
    pub fn at(&self, i: usize) -> BoxN
        requires { i < length self.now }
        ensures { At self.now i result }
    {
        let boxes = &self.boxes;
        boxes[i]
    }

    /// Replaces `found` by the places of the boxes that meet the box, each once and in order.
    pub fn put_meeting(&self, b: &BoxN, found: &mut Vec<usize>) -> Result<(), AllocError>
        ensures places { OnOk result ((i : ℕ) → Has found.new.items i
            ↔ MeetsAt self.now b.now i) }
        ensures once { OnOk result (RiseFrom 0 found.new.items) }
    {
        put_all(&self.boxes, &self.hulls, b, found)?;
        Ok(())
    }
}

// Whether neither interval begins behind the end of the other.
fn touch(r: Interval, q: Interval) -> bool
    ensures { IsTrue result ↔ ((r.lo ≤ℤ q.hi) × (q.lo ≤ℤ r.hi)) }
{
    r.lo <= q.hi && q.lo <= r.hi
}

// Whether two boxes meet.
fn meet(a: &BoxN, b: &BoxN) -> bool
    ensures { IsTrue result ↔ Meet a.now b.now }
{
    for i in 0..a.len().min(b.len()) {
        if !touch(a.side(i), b.side(i)) {
            return false;
        }
    }
    true
}

// A hull around each block.
fn hulls_of(alloc: Global, boxes: &[BoxN]) -> Result<Vec<BoxN>, AllocError>
    requires { AreOfOneWidth boxes.now }
    ensures { IfOk result (λ v. IsBlocked boxes.now v.items) }
{
    let mut hulls = Vec::new(alloc);
    let mut from = 0;
    while from < boxes.len() {
        let left = boxes.len() - from;
        let to = from + left.min(BLOCK);
        hulls.push(hull_of(&boxes[from..to]))?;
        from = to;
    }
    Ok(hulls)
}

// Puts a place behind those found, where its box meets the box.
fn put_one(boxes: &[BoxN], i: usize, b: &BoxN, found: &mut Vec<usize>) -> Result<(), AllocError>
    requires { i < length boxes.now }
    ensures places { OnOk result ((k : ℕ) → Has found.new.items k
        ↔ (Has found.old.items k ⊎ ((k ≡ i) × MeetsAt boxes.now b.now i))) }
    ensures once { OnOk result (RiseBelow i found.old.items → RiseBelow (i + 1) found.new.items) }
{
    if !meet(&boxes[i], b) {
        return Ok(());
    }
    found.push(i)?;
    Ok(())
}

// Puts the places of a block behind those found whose boxes meet the box.
fn put_block(
    boxes: &[BoxN],
    from: usize,
    to: usize,
    b: &BoxN,
    found: &mut Vec<usize>,
) -> Result<(), AllocError>
    requires order { from ≤ to }
    requires inside { to ≤ length boxes.now }
    ensures places { OnOk result ((k : ℕ) → Has found.new.items k
        ↔ (Has found.old.items k ⊎ ((from ≤ k) × (k < to) × MeetsAt boxes.now b.now k))) }
    ensures once { OnOk result (RiseBelow from found.old.items → RiseBelow to found.new.items) }
{
    for i in from..to {
        put_one(boxes, i, b, found)?;
    }
    Ok(())
}

// Puts the places of the block that begins at `from` behind those found whose boxes meet the box.
// Where its hull does not meet the box, none of its boxes does.
fn put_block_of(
    boxes: &[BoxN],
    from: usize,
    hull: &BoxN,
    b: &BoxN,
    found: &mut Vec<usize>,
) -> Result<(), AllocError>
    requires inside { from < length boxes.now }
    requires around { (i : ℕ) (c : List Interval_) → At boxes.now i c → IsInBlock from i
        → (length hull.now ≡ length c) × IsAround hull.now c }
    ensures places { OnOk result ((i : ℕ) → Has found.new.items i
        ↔ (Has found.old.items i ⊎ (IsInBlock from i × MeetsAt boxes.now b.now i))) }
    ensures once { OnOk result (RiseBelow from found.old.items
        → RiseBelow (from + 64) found.new.items) }
{
    if !meet(hull, b) {
        return Ok(());
    }
    let left = boxes.len() - from;
    let to = from + left.min(BLOCK);
    put_block(boxes, from, to, b, found)?;
    Ok(())
}

// The places of all boxes that meet the box.
fn put_all(
    boxes: &[BoxN],
    hulls: &[BoxN],
    b: &BoxN,
    found: &mut Vec<usize>,
) -> Result<(), AllocError>
    requires { IsBlocked boxes.now hulls.now }
    ensures places { OnOk result ((i : ℕ) → Has found.new.items i ↔ MeetsAt boxes.now b.now i) }
    ensures once { OnOk result (RiseFrom 0 found.new.items) }
{
    found.clear();
    for k in 0..hulls.len() {
        put_block_of(boxes, k * BLOCK, &hulls[k], b, found)?;
    }
    Ok(())
}
