//! Boxes that others cover.

ghost use Rattle.std.specs.Prelude.{◌≡◌, ◌≤◌, length, IfOk};

use sot_atoms::{Block, Grid};
use sot_box::Region;
use std::alloc::{AllocError, Global};

/// The points of some blocks, but for the block at one place.
fn region_without(
    alloc: Global,
    grid: &Grid,
    blocks: &[Block],
    place: usize,
) -> Result<Region, AllocError>
    ensures { IfOk result (λ r. r.width ≡ grid.now.width) }
{
    let mut region = Region::none(alloc, grid.width());
    for i in 0..blocks.len() {
        if i == place {
            continue;
        }
        if region.push(grid.area(&blocks[i])).is_err() {
            return Err(AllocError);
        }
    }
    Ok(region)
}

/// The points of some blocks.
pub(crate) fn region_of(alloc: Global, grid: &Grid, blocks: &[Block]) -> Result<Region, AllocError>
    ensures { IfOk result (λ r. r.width ≡ grid.now.width) }
{
    region_without(alloc, grid, blocks, blocks.len())
}

/// Leaves out each block that the others cover, from the first one on.
pub(crate) fn thin(alloc: Global, grid: &Grid, blocks: &mut Vec<Block>) -> Result<(), AllocError>
    ensures { length blocks.new.items ≤ length blocks.old.items }
{
    let mut place = 0;
    for _turn in 0..blocks.len() {
        if place >= blocks.len() {
            break;
        }
        let area = grid.area(&blocks[place]);
        let others = region_without(alloc, grid, blocks, place)?;
        if others.covers(&area) {
            let _left_out = blocks.remove(place);
        } else {
            place += 1;
        }
    }
    Ok(())
}
