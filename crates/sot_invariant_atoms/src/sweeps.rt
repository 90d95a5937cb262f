//! The greatest closed set: atoms whose held tube leaves the set are taken out until there are
//! none.
//!
//! Atoms are looked at in tiles, which are the atoms of a coarser grid. A tile is looked at again
//! where its tube meets a tile that lost an atom, so the work is done where the set shrinks, and
//! every other sweep goes down, so that a loss that moves along an axis is over in one sweep.

ghost use Rattle.std.specs.Prelude.{◌≡◌, ◌⊎◌, length, IfOk, MatchBool, MatchOption};
ghost use Rattle.sot_atoms.specs.Blocks.{FitsAxes, IsOneAtom, AreHalves, atom_count};
ghost use Rattle.sot_invariant_atoms.specs.Asking.{asked_width};
ghost use Rattle.sot_invariant_atoms.specs.Greatest.{KeepsHeldRegions, TellsNone};
ghost use Rattle.sot_invariant_atoms.specs.Closed.{KeepsClosedSets, HasClosedSets};
ghost use Rattle.sot_invariant_atoms.specs.declared.tube.TubeInAtoms.TheVariants.{Apart};

use crate::ask::ModuleAsk;
use crate::held::held_tube;
use crate::inside::atoms_of;
use crate::tiles::{is_near, reaches, stale_after, tile_shift};
use crate::tube::{TubeInAtoms, says_inside};
use sot_atoms::{AtomSet, Block, BlockHalves, Grid, halves_of};
use std::alloc::{AllocError, Global};

// The halves of a block that has to be looked at in parts; none where it goes as a whole: its tube
// is apart from the set, or it is one atom.
fn parts_of(found: TubeInAtoms, block: &Block) -> Option<BlockHalves>
    ensures { MatchOption result ((found ≡ Apart) ⊎ IsOneAtom block.now)
        (λ h. AreHalves block.now h.low h.high) }
{
    match found {
        TubeInAtoms::Apart => None,
        _ => halves_of(block),
    }
}

// Two halves in the order of a sweep.
fn in_order(halves: BlockHalves, up: bool) -> BlockHalves
    ensures low { (result.low ≡ halves.low) ⊎ (result.low ≡ halves.high) }
    ensures high { (result.high ≡ halves.low) ⊎ (result.high ≡ halves.high) }
    ensures order { MatchBool up (result ≡ halves)
        ((result.low ≡ halves.high) × (result.high ≡ halves.low)) }
{
    if up {
        return halves;
    }
    BlockHalves {
        low: halves.high,
        high: halves.low,
    }
}

// Takes the atoms of a block out of the set whose held tube leaves it. Whether there was one.
fn shrink_block(
    ask: &ModuleAsk<'_>,
    grid: &Grid,
    set: &mut AtomSet,
    block: &Block,
    up: bool,
) -> bool
    requires grid { grid.now.width ≡ asked_width ask.now }
    requires fits { FitsAxes grid.now.axes block.now }
    ensures size { length set.new ≡ length set.old }
    ensures keeps { KeepsHeldRegions ask.now.program ask.now.jitter ask.now.info grid.now set.old
        set.new }
    ensures closed { KeepsClosedSets ask.now.program ask.now.jitter ask.now.info grid.now set.old
        set.new }
{
    if set.has_none(grid, block) {
        return false;
    }
    let area = grid.area(block);
    let found = held_tube(ask, &area, grid, set);
    if says_inside(found) {
        return false;
    }
    let Some(halves) = parts_of(found, block) else {
        set.take(grid, block);
        return true;
    };
    let parts = in_order(halves, up);
    let first = shrink_block(ask, grid, set, &parts.low, up);
    let second = shrink_block(ask, grid, set, &parts.high, up);
    first || second
}

// One sweep over the tiles that are stale, or whose tube meets one that lost an atom in it. Whether
// an atom was lost.
fn sweep(
    ask: &ModuleAsk<'_>,
    grid: &Grid,
    tiles: &Grid,
    reaches: &[Block],
    stale: &AtomSet,
    up: bool,
    set: &mut AtomSet,
    lost: &mut AtomSet,
) -> bool
    requires grid { grid.now.width ≡ asked_width ask.now }
    requires tiles { tiles.now.width ≡ asked_width ask.now }
    ensures size { length set.new ≡ length set.old }
    ensures keeps { KeepsHeldRegions ask.now.program ask.now.jitter ask.now.info grid.now set.old
        set.new }
    ensures closed { KeepsClosedSets ask.now.program ask.now.jitter ask.now.info grid.now set.old
        set.new }
{
    let mut any = false;
    let count = reaches.len();
    for i in 0..count {
        let number = if up { i } else { count - 1 - i };
        let tile = tiles.atom(number);
        if stale.has_none(tiles, &tile) && !is_near(tiles, lost, &reaches[number]) {
            continue;
        }
        if let Some(block) = grid.clip(&tiles.area(&tile)) {
            if shrink_block(ask, grid, set, &block, up) {
                lost.put(tiles, &tile);
                any = true;
            }
        }
    }
    any
}

// Sweeps over all tiles until no atom is lost.
fn shrink(
    alloc: Global,
    ask: &ModuleAsk<'_>,
    grid: &Grid,
    tiles: &Grid,
    set: &mut AtomSet,
) -> Result<(), AllocError>
    requires grid { grid.now.width ≡ asked_width ask.now }
    requires tiles { tiles.now.width ≡ asked_width ask.now }
    ensures size { length set.new ≡ length set.old }
    ensures keeps { KeepsHeldRegions ask.now.program ask.now.jitter ask.now.info grid.now set.old
        set.new }
    ensures closed { KeepsClosedSets ask.now.program ask.now.jitter ask.now.info grid.now set.old
        set.new }
{
    let met = reaches(alloc, ask, tiles)?;
    let mut stale = AtomSet::none(alloc, tiles)?;
    stale.put(tiles, &tiles.whole());
    let mut up = true;
    for _sweep in 0..u64::MAX {
        let mut lost = AtomSet::none(alloc, tiles)?;
        if !sweep(ask, grid, tiles, &met, &stale, up, set, &mut lost) {
            return Ok(());
        }
        up = !up;
        stale = stale_after(alloc, tiles, &met, &lost)?;
    }
    Ok(())
}

/// Takes atoms out of the set until of each that is left the held tube stays in it. What is left is
/// the greatest such set inside the given one, in whatever order atoms go.
pub fn greatest(
    alloc: Global,
    ask: &ModuleAsk<'_>,
    grid: &Grid,
    set: &mut AtomSet,
) -> Result<(), AllocError>
    requires { grid.now.width ≡ asked_width ask.now }
    ensures size { length set.new ≡ length set.old }
    ensures keeps { KeepsHeldRegions ask.now.program ask.now.jitter ask.now.info grid.now set.old
        set.new }
    ensures closed { KeepsClosedSets ask.now.program ask.now.jitter ask.now.info grid.now set.old
        set.new }
{
    match grid.coarser(tile_shift(grid.width())) {
        Some(tiles) => shrink(alloc, ask, grid, &tiles, set),
        None => shrink(alloc, ask, grid, grid, set),
    }
}

/// The greatest set of atoms of the module's safe region of each of which the held tube stays in
/// the set: it has each closed set of atoms that lies there. Where the grid is the finest one of
/// that region's hull and the set is empty, no region with a certificate lies in the safe region.
pub fn closed_atoms(alloc: Global, ask: &ModuleAsk<'_>, grid: &Grid) -> Result<AtomSet, AllocError>
    requires { grid.now.width ≡ asked_width ask.now }
    ensures size { IfOk result (λ set. length set ≡ atom_count grid.now.axes) }
    ensures none { IfOk result (λ set. TellsNone ask.now.program ask.now.jitter ask.now.info
        grid.now set) }
    ensures closed { IfOk result (λ set. HasClosedSets ask.now.program ask.now.jitter ask.now.info
        grid.now set) }
{
    // A look at the program and the axes brings how they are made.
    let _program = ask.program();
    let _axes = grid.axes();
    let info = ask.info();
    let mut set = atoms_of(alloc, grid, &info.safe)?;
    greatest(alloc, ask, grid, &mut set)?;
    Ok(set)
}
