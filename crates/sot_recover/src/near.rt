//! The cells of a set that meet a box, as a region.

ghost use Rattle.std.specs.Prelude.{ℕ, ℤ, List, ◌≡◌, ◌<◌, ◌⊎◌, ◌↔◌, length, IfOk, OnOk, IsTrue};
ghost use Rattle.sot_lists.specs.Places.{At, Has};
ghost use Rattle.sot_box.specs.Sides.{Side as Interval_};
ghost use Rattle.sot_box.specs.Regions.{IsInRegion, Covers};
ghost use Rattle.sot_recover.specs.Sets.{IsSet};
ghost use Rattle.sot_recover.specs.Near.{AreOfWidth, IsInChosen, IsNear};

use crate::index::BoxIndex;
use sot_box::{BoxN, Region};
use std::alloc::{AllocError, Global};

// From so many boxes on an index of a region pays for itself.
const MANY: usize = 24;

// Whether a cell is there and in the set.
fn is_chosen(cells: &BoxIndex, set: &[bool], i: usize) -> bool
    ensures { IsTrue result ↔ ((i < length cells.now) × IsSet set.now i) }
{
    i < cells.len() && i < set.len() && set[i]
}

// Pushes a cell, if it is in the set.
fn push_chosen(
    cells: &BoxIndex,
    set: &[bool],
    i: usize,
    near: &mut Region,
) -> Result<(), AllocError>
    requires widths { AreOfWidth near.old.width cells.now }
    ensures width { near.new.width ≡ near.old.width }
    ensures points { OnOk result ((s : List ℤ)
        → IsInRegion near.new.boxes s ↔ (IsInRegion near.old.boxes s
        ⊎ IsInChosen cells.now set.now i s)) }
{
    if !is_chosen(cells, set, i) {
        return Ok(());
    }
    match near.push(cells.at(i)) {
        Ok(()) => Ok(()),
        Err(_) => Err(AllocError),
    }
}

// Pushes those of these cells that are in the set.
fn push_all(
    cells: &BoxIndex,
    set: &[bool],
    found: &[usize],
    near: &mut Region,
) -> Result<(), AllocError>
    requires widths { AreOfWidth near.old.width cells.now }
    ensures width { near.new.width ≡ near.old.width }
    ensures points { OnOk result ((s : List ℤ)
        → IsInRegion near.new.boxes s ↔ (IsInRegion near.old.boxes s
        ⊎ ((i : ℕ) × Has found.now i × IsInChosen cells.now set.now i s))) }
{
    for n in 0..found.len() {
        push_chosen(cells, set, found[n], near)?;
    }
    Ok(())
}

// Makes an index of the region, where it has many boxes.
fn settle_many(near: &mut Region) -> Result<(), AllocError>
    ensures boxes { near.new.boxes ≡ near.old.boxes }
    ensures width { near.new.width ≡ near.old.width }
{
    if near.len() < MANY {
        return Ok(());
    }
    near.settle()
}

/// The cells of the set that meet a box, as a region.
pub(crate) fn near_cells(
    alloc: Global,
    cells: &BoxIndex,
    set: &[bool],
    b: &BoxN,
) -> Result<Region, AllocError>
    requires { AreOfWidth (length b.now) cells.now }
    ensures near { IfOk result (λ r. IsNear cells.now set.now b.now r.boxes) }
    ensures width { IfOk result (λ r. r.width ≡ length b.now) }
{
    let mut found = Vec::new(alloc);
    cells.put_meeting(b, &mut found)?;
    let mut near = Region::none(alloc, b.len());
    push_all(cells, set, &found, &mut near)?;
    settle_many(&mut near)?;
    Ok(near)
}

/// Whether a region covers each of these boxes.
pub(crate) fn covers_each(region: &Region, boxes: &[BoxN]) -> bool
    requires { AreOfWidth region.now.width boxes.now }
    ensures { IsTrue result ↔ ((j : ℕ) (b : List Interval_) → At boxes.now j b
        → Covers region.now.boxes b) }
{
    for j in 0..boxes.len() {
        if !region.covers(&boxes[j]) {
            return false;
        }
    }
    true
}
