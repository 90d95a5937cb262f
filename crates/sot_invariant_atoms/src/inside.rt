//! The atoms that a region covers.

ghost use Rattle.std.specs.Prelude.{◌≡◌, ℤ, List, IsTrue, IfOk, length};
ghost use Rattle.sot_box.specs.Sides.{IsIn};
ghost use Rattle.sot_box.specs.Boxes.{IsWithin};
ghost use Rattle.sot_box.specs.Regions.{IsInRegion};
ghost use Rattle.sot_atoms.specs.Blocks.{FitsAxes, atom_count};
ghost use Rattle.sot_invariant_atoms.specs.Greatest.{HasPointsOf, HasPointsIn, HasMembersOf};
ghost use Rattle.sot_invariant_atoms.specs.Closed.{HasCoveredOf, HasCoveredIn};

use sot_atoms::{AtomSet, Block, Grid, halves_of};
use sot_box::{BoxN, Interval, Region};
use std::alloc::{AllocError, Global};

// Whether two intervals have no number in common.
fn are_apart(one: Interval, other: Interval) -> bool
    ensures { IsTrue result → (z : ℤ) → IsIn one z → IsIn other z → ⊥ }
{
    one.hi < other.lo || other.hi < one.lo
}

// Whether two boxes have a point in common.
fn meet(a: &BoxN, b: &BoxN) -> bool
    requires { length a.now ≡ length b.now }
    ensures { (s : List ℤ) → IsWithin a.now s → IsWithin b.now s → IsTrue result }
{
    for i in 0..a.len() {
        let one = a.side(i);
        let other = b.side(i);
        if are_apart(one, other) {
            return false;
        }
    }
    true
}

// Whether a box of the region has a point in common with this one.
fn meets(region: &Region, area: &BoxN) -> bool
    requires { length area.now ≡ region.now.width }
    ensures { (s : List ℤ) → IsInRegion region.now.boxes s → IsWithin area.now s → IsTrue result }
{
    for i in 0..region.len() {
        if meet(&region.at(i), area) {
            return true;
        }
    }
    false
}

// Puts the atoms of a block that the region covers into the set.
fn put_covered(grid: &Grid, region: &Region, block: &Block, set: &mut AtomSet)
    requires width { region.now.width ≡ grid.now.width }
    requires fits { FitsAxes grid.now.axes block.now }
    requires size { length set.old ≡ atom_count grid.now.axes }
    ensures size { length set.new ≡ length set.old }
    ensures more { HasMembersOf grid.now set.old set.new }
    ensures holds { HasPointsIn grid.now set.new region.now.boxes block.now }
    ensures covered { HasCoveredIn grid.now set.new region.now.boxes block.now }
{
    let area = grid.area(block);
    if region.covers(&area) {
        set.put(grid, block);
        return;
    }
    if !meets(region, &area) {
        return;
    }
    if let Some(halves) = halves_of(block) {
        put_covered(grid, region, &halves.low, set);
        put_covered(grid, region, &halves.high, set);
    }
}

/// The atoms that a region covers.
pub fn atoms_of(alloc: Global, grid: &Grid, region: &Region) -> Result<AtomSet, AllocError>
    requires { region.now.width ≡ grid.now.width }
    ensures size { IfOk result (λ set. length set ≡ atom_count grid.now.axes) }
    ensures holds { IfOk result (λ set. HasPointsOf grid.now set region.now.boxes) }
    ensures covered { IfOk result (λ set. HasCoveredOf grid.now set region.now.boxes) }
{
    // A look at the axes brings how they are made.
    let _axes = grid.axes();
    let mut set = AtomSet::none(alloc, grid)?;
    let Some(hull) = region.hull() else {
        return Ok(set);
    };
    let Some(block) = grid.clip(&hull) else {
        return Ok(set);
    };
    put_covered(grid, region, &block, &mut set);
    Ok(set)
}
