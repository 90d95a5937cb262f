//! Tiles: the atoms of a coarser grid, and which of them the tube of each one meets.

ghost use Rattle.std.specs.Prelude.{◌≡◌, All, IfOk, length};
ghost use Rattle.sot_atoms.specs.Blocks.{atom_count};
ghost use Rattle.sot_invariant_atoms.specs.Asking.{asked_width};

use crate::ask::ModuleAsk;
use crate::boxes::held_boxes;
use sot_atoms::{AtomSet, Block, Grid, Stretch, Sums, atoms_in};
use sot_box::BoxN;
use std::alloc::{AllocError, Global};

/// 2 to this is the side of a tile: 64, 16, 8 or 4 atoms.
pub(crate) fn tile_shift(width: usize) -> u32 {
    match width {
        1 => 6,
        2 => 4,
        3 => 3,
        _ => 2,
    }
}

// The least stretch around two.
fn joined_side(one: Stretch, other: Stretch) -> Stretch {
    Stretch {
        from: one.from.min(other.from),
        to: one.to.max(other.to),
    }
}

// The least block around two.
fn joined(one: &Block, other: &Block) -> Block {
    Block::of([
        joined_side(one.side(0), other.side(0)),
        joined_side(one.side(1), other.side(1)),
        joined_side(one.side(2), other.side(2)),
        joined_side(one.side(3), other.side(3)),
    ])
}

// The least block around what some boxes meet; this one where they meet nothing.
fn around(tiles: &Grid, boxes: &[BoxN], none: &Block) -> Block
    requires { All (λ b. length b ≡ tiles.now.width) boxes.now }
{
    let mut hull = None;
    for b in boxes {
        if let Some(met) = tiles.clip(b) {
            hull = Some(match hull {
                None => met,
                Some(sofar) => joined(&sofar, &met),
            });
        }
    }
    hull.unwrap_or(*none)
}

// A block of tiles that has each one that the held tube of a tile meets; all where it may trap.
fn reach(
    alloc: Global,
    ask: &ModuleAsk<'_>,
    tiles: &Grid,
    tile: &Block,
) -> Result<Block, AllocError>
    requires { tiles.now.width ≡ asked_width ask.now }
{
    match held_boxes(alloc, ask, &tiles.area(tile))? {
        None => Ok(tiles.whole()),
        Some(boxes) => Ok(around(tiles, &boxes, tile)),
    }
}

/// For each tile a block of those that its held tube meets.
pub(crate) fn reaches(
    alloc: Global,
    ask: &ModuleAsk<'_>,
    tiles: &Grid,
) -> Result<Vec<Block>, AllocError>
    requires { tiles.now.width ≡ asked_width ask.now }
    ensures { IfOk result (λ v. length v.items ≡ atom_count tiles.now.axes) }
{
    let mut reaches = Vec::new(alloc);
    for number in 0..tiles.total() {
        let met = reach(alloc, ask, tiles, &tiles.atom(number))?;
        reaches.push(met)?;
    }
    Ok(reaches)
}

// Up to so many tiles are asked one by one.
const FEW_TILES: u64 = 64;

/// Whether one of few tiles has lost an atom. Where there are many the next sweep will see it.
pub(crate) fn is_near(tiles: &Grid, lost: &AtomSet, reach: &Block) -> bool {
    atoms_in(reach) <= FEW_TILES && !lost.has_none(tiles, reach)
}

/// The tiles whose tube may meet one that lost an atom.
pub(crate) fn stale_after(
    alloc: Global,
    tiles: &Grid,
    reaches: &[Block],
    lost: &AtomSet,
) -> Result<AtomSet, AllocError> {
    let mut stale = AtomSet::none(alloc, tiles)?;
    let sums = Sums::of(alloc, tiles, lost)?;
    for number in 0..reaches.len() {
        if sums.count(tiles, &reaches[number]) > 0 {
            stale.put(tiles, &tiles.atom(number));
        }
    }
    Ok(stale)
}
