//! How many atoms of a set there are in a block, by a few look-ups.

ghost use Rattle.std.specs.Prelude.{◌<◌, ◌≡◌};

use crate::axis::Axis;
use crate::block::{Block, Stretch, atoms_in};
use crate::grid::Grid;
use crate::rows::fits;
use crate::set::AtomSet;
use std::alloc::{AllocError, Global};

/// For each atom of a grid how many atoms of a set there are up to it on all axes.
#[derive(Drop)]
pub struct Sums {
    sums: Vec<u32>,
}

// Adds to each number the sum of those that come before it on an axis of so many places, where so
// many numbers stand for each place.
fn add_up(sums: &mut [u32], places: usize, each: usize)
    requires { 0 < each }
{
    let many = places.saturating_mul(each).max(1);
    for rows in sums.chunks_mut(many) {
        for i in each..rows.len() {
            rows[i] = rows[i].wrapping_add(rows[i - each]);
        }
    }
}

// Adds up the numbers on all axes. So many numbers stand for each place of the axis before these.
fn add_up_all(sums: &mut [u32], axes: &[Axis]) -> usize
    ensures { 0 < result }
{
    let Some((axis, inner)) = axes.split_first() else {
        return 1;
    };
    let each = add_up_all(sums, inner);
    if axis.size > 1 {
        add_up(sums, axis.size, each);
    }
    each.saturating_mul(axis.size).max(1)
}

// How many atoms of the set are in a block, of those whose first places come up to some atom. So
// many atoms come before on these axes.
fn count_up_to(sums: &[u32], axes: &[Axis], sides: &[Stretch], before: usize) -> u32 {
    let Some((axis, inner)) = axes.split_first() else {
        return sums.get(before).copied().unwrap_or(0);
    };
    let Some((side, within)) = sides.split_first() else {
        return 0;
    };
    let first = before.wrapping_mul(axis.size);
    let all = count_up_to(sums, inner, within, first.wrapping_add(side.to));
    if side.from == 0 {
        return all;
    }
    let less = count_up_to(sums, inner, within, first.wrapping_add(side.from - 1));
    all.wrapping_sub(less)
}

impl Sums {
    /// The sums of a set. They take four bytes an atom.
    pub fn of(alloc: Global, grid: &Grid, set: &AtomSet) -> Result<Sums, AllocError> {
        let mut sums = Vec::with_capacity(alloc, set.len())?;
        for byte in set.bytes() {
            sums.push(u32::from(*byte))?;
        }
        let _all = add_up_all(&mut sums, grid.axes());
        Ok(Sums { sums })
    }

    /// How many atoms of a block are in the set; none of a block of another grid.
    pub fn count(&self, grid: &Grid, block: &Block) -> u64 {
        if !fits(grid.axes(), block.sides()) {
            return 0;
        }
        u64::from(count_up_to(&self.sums, grid.axes(), block.sides(), 0))
    }

    /// Whether each atom of a block is in the set.
    pub fn has_all(&self, grid: &Grid, block: &Block) -> bool {
        self.count(grid, block) == atoms_in(block)
    }
}
