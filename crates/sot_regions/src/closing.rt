//! Boxes that close a region: with them the held tube of each atom stays in it.

ghost use Rattle.std.specs.Prelude.{◌≡◌, ◌≤◌, length, IfOk, OnOk};
ghost use Rattle.sot_regions.specs.Searches.{IsSearch, AreWidePoints};

use crate::cover::{Cover, MOST_BOXES};
use crate::search::{Good, Search, Worth};
use crate::thin::{region_of, thin};
use sot_atoms::{AtomSet, Block, Grid, Sums, halves_of};
use sot_box::{BoxN, Region};
use sot_invariant_atoms::{Among, held_boxes, held_stays};
use std::alloc::AllocError;

// The most boxes of a region that is being closed.
const ROOM: usize = 512;

// The points of a cover that is being closed.
#[derive(Drop)]
struct Points {
    before: Region,
    now: Region,
}

// Adds a block of the set around a box that the cover does not hold yet. False says that the box
// leaves the hull, or that there are too many boxes.
fn cover_box(
    search: &Search<'_>,
    points: &mut Points,
    cover: &mut Cover,
    area: &BoxN,
    sums: &Sums,
) -> Result<bool, AllocError>
    requires search { IsSearch search.now }
    requires width { length area.now ≡ search.now.grid.now.width }
    requires points { AreWidePoints search.now.grid.now.width points.old }
    ensures points { AreWidePoints search.now.grid.now.width points.new }
{
    let grid = search.grid;
    if points.now.covers(area) {
        return Ok(true);
    }
    let Some(met) = grid.block(area) else {
        return Ok(false);
    };
    let worth = Worth::Outside(&cover.set);
    let block = search.best(&met, &grid.whole(), Good::Within(sums), worth);
    cover.add(grid, block)?;
    if points.now.push(grid.area(&block)).is_err() {
        return Err(AllocError);
    }
    Ok(cover.boxes.len() <= ROOM)
}

// Adds blocks around the boxes of the held tube of a cell around an atom, as wide as its held tube
// stays in the set. False says that there are too many boxes.
fn close_atom(
    search: &Search<'_>,
    points: &mut Points,
    cover: &mut Cover,
    atom: &Block,
    within: &Block,
    sums: &Sums,
) -> Result<bool, AllocError>
    requires search { IsSearch search.now }
    requires points { AreWidePoints search.now.grid.now.width points.old }
    ensures points { AreWidePoints search.now.grid.now.width points.new }
{
    let cell = search.best(atom, within, Good::Held(sums), Worth::Atoms);
    let Some(boxes) = held_boxes(search.alloc, search.ask, &search.grid.area(&cell))? else {
        return Ok(false);
    };
    for area in &boxes {
        if !cover_box(search, points, cover, area, sums)? {
            return Ok(false);
        }
    }
    Ok(true)
}

// Adds blocks until the held tube of each atom of a part of a block stays in the cover. False says
// that there are too many boxes.
fn settle(
    search: &Search<'_>,
    points: &mut Points,
    cover: &mut Cover,
    part: &Block,
    within: &Block,
    sums: &Sums,
) -> Result<bool, AllocError>
    requires search { IsSearch search.now }
    requires points { AreWidePoints search.now.grid.now.width points.old }
    ensures points { AreWidePoints search.now.grid.now.width points.new }
{
    let area = search.grid.area(part);
    if points.before.covers(&area) || held_stays(search.ask, &area, Among::Region(&points.now)) {
        return Ok(true);
    }
    let Some(halves) = halves_of(part) else {
        return close_atom(search, points, cover, part, within, sums);
    };
    if !settle(search, points, cover, &halves.low, within, sums)? {
        return Ok(false);
    }
    settle(search, points, cover, &halves.high, within, sums)
}

// The points of a cover to which a block is added.
fn points_of(search: &Search<'_>, cover: &mut Cover, block: Block) -> Result<Points, AllocError>
    ensures { IfOk result (AreWidePoints search.now.grid.now.width) }
{
    let before = region_of(search.alloc, search.grid, &cover.boxes)?;
    cover.add(search.grid, block)?;
    let now = region_of(search.alloc, search.grid, &cover.boxes)?;
    Ok(Points { before, now })
}

// Adds a block and those that close the region again. False says that there are too many boxes.
fn close(
    search: &Search<'_>,
    cover: &mut Cover,
    block: Block,
    sums: &Sums,
) -> Result<bool, AllocError>
    requires { IsSearch search.now }
{
    let first = cover.boxes.len();
    let mut points = points_of(search, cover, block)?;
    for place in first..ROOM + 1 {
        if place >= cover.boxes.len() {
            break;
        }
        let next = cover.boxes[place];
        if !settle(search, &mut points, cover, &next, &next, sums)? {
            return Ok(false);
        }
    }
    Ok(true)
}

// Takes the atoms of blocks out of those that are left, from this block on.
fn take_from(grid: &Grid, left: &mut AtomSet, blocks: &[Block], first: usize) {
    for place in first..blocks.len() {
        left.take(grid, &blocks[place]);
    }
}

/// Adds a block and those that close the region again, and takes their atoms out of those that are
/// left. False says that all is as it was, since there would be too many boxes.
pub(crate) fn add_closed(
    search: &Search<'_>,
    cover: &mut Cover,
    left: &mut AtomSet,
    block: Block,
    sums: &Sums,
) -> Result<bool, AllocError>
    requires search { IsSearch search.now }
    requires few { length cover.old.boxes.items ≤ 256 }
    ensures { OnOk result (length cover.new.boxes.items ≤ 256) }
{
    let before = cover.boxes.clone()?;
    if !close(search, cover, block, sums)? {
        cover.reset(before, left);
        return Ok(false);
    }
    let closed = cover.boxes.clone()?;
    thin(search.alloc, search.grid, &mut cover.boxes)?;
    if cover.boxes.len() > MOST_BOXES {
        cover.reset(before, left);
        return Ok(false);
    }
    take_from(search.grid, left, &closed, before.len());
    Ok(true)
}
