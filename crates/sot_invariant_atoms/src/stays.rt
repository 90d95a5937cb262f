//! Tubes that stay among atoms which are counted by look-ups, or in a region.

ghost use Rattle.std.specs.Prelude.{◌≡◌, length};
ghost use Rattle.sot_invariant_atoms.specs.Asking.{asked_width};

use crate::ask::ModuleAsk;
use crate::walk::Walk;
use sot_atoms::{Grid, Sums};
use sot_box::{BoxN, Region};
use sot_rta::node_at;

/// Where the boxes of a tube are to lie.
#[derive(Clone, Copy)]
pub enum Among<'a> {
    /// In the atoms of a set of a grid, of which these are the sums.
    Atoms(&'a Grid, &'a Sums),
    /// In a region.
    Region(&'a Region),
}

// Whether a box lies in the atoms; not if it has another width.
fn is_in_atoms(grid: &Grid, sums: &Sums, area: &BoxN) -> bool {
    if grid.width() != area.len() {
        return false;
    }
    match grid.block(area) {
        None => false,
        Some(block) => sums.has_all(grid, &block),
    }
}

// Whether a box has a point in common with the atoms; not if it has another width.
fn meets_atoms(grid: &Grid, sums: &Sums, area: &BoxN) -> bool {
    if grid.width() != area.len() {
        return false;
    }
    match grid.clip(area) {
        None => false,
        Some(block) => sums.count(grid, &block) > 0,
    }
}

// Whether a box lies in the region; not if it has another width.
fn is_in_region(region: &Region, area: &BoxN) -> bool {
    region.len() > 0 && region.at(0).len() == area.len() && region.covers(area)
}

fn lies(among: Among<'_>, area: &BoxN) -> bool {
    match among {
        Among::Atoms(grid, sums) => is_in_atoms(grid, sums, area),
        Among::Region(region) => is_in_region(region, area),
    }
}

// Whether each box of a walk lies there, and no step may trap.
fn stays(walk: &mut Walk<'_>, among: Among<'_>) -> bool {
    let ticks = walk.ticks();
    for _tick in 0..ticks {
        let Some(step) = walk.step() else {
            return false;
        };
        if !lies(among, &step.area) {
            return false;
        }
        if step.settled {
            return true;
        }
    }
    true
}

/// Whether each box of the held tube of a box after the first lies there, and no step may trap, as
/// `held_tube` says it of a set. Takes no memory.
pub fn held_stays(ask: &ModuleAsk<'_>, area: &BoxN, among: Among<'_>) -> bool
    requires { length area.now ≡ asked_width ask.now }
{
    match Walk::held(ask, area) {
        None => false,
        Some(mut walk) => stays(&mut walk, among),
    }
}

// The first tick at which a hold of the safe node may end: its period less the jitter.
fn first_end(ask: &ModuleAsk<'_>) -> u32 {
    let period = node_at(ask.program(), ask.info().sc).period;
    period.saturating_sub(ask.jitter())
}

// Whether each box of a walk from this tick on lies there, and no step may trap.
fn lands(walk: &mut Walk<'_>, first: u32, among: Among<'_>) -> bool {
    let ticks = walk.ticks();
    for tick in 0..ticks {
        let Some(step) = walk.step() else {
            return false;
        };
        // The first step leads to tick 1.
        if tick.saturating_add(1) < first {
            continue;
        }
        if !lies(among, &step.area) {
            return false;
        }
        if step.settled {
            return true;
        }
    }
    true
}

/// Whether each box lies there in which a hold of the safe node from a box may end: those of its
/// held tube whose ticks are at most the jitter away from the node's period. False too where a step
/// may trap. Takes no memory.
pub fn held_lands(ask: &ModuleAsk<'_>, area: &BoxN, among: Among<'_>) -> bool
    requires { length area.now ≡ asked_width ask.now }
{
    match Walk::held(ask, area) {
        None => false,
        Some(mut walk) => lands(&mut walk, first_end(ask), among),
    }
}

// Whether no box of a walk from this tick on misses the atoms. A step that may trap ends the walk,
// since it may not do so from a part of the box.
fn may_land(walk: &mut Walk<'_>, first: u32, grid: &Grid, sums: &Sums) -> bool {
    let ticks = walk.ticks();
    for tick in 0..ticks {
        let Some(step) = walk.step() else {
            return true;
        };
        if tick.saturating_add(1) < first {
            continue;
        }
        if !meets_atoms(grid, sums, &step.area) {
            return false;
        }
        if step.settled {
            return true;
        }
    }
    true
}

/// Whether each box in which a hold of the safe node from a box may end meets the atoms, up to a
/// step that may trap. Where one does not, no part of the box lands among them. Takes no memory.
pub fn held_may_land(ask: &ModuleAsk<'_>, area: &BoxN, grid: &Grid, sums: &Sums) -> bool
    requires { length area.now ≡ asked_width ask.now }
{
    match Walk::held(ask, area) {
        None => true,
        Some(mut walk) => may_land(&mut walk, first_end(ask), grid, sums),
    }
}

/// Whether each box after the first of the tube of a box under any commands lies there, and no
/// step may trap. Takes no memory.
pub fn any_stays(ask: &ModuleAsk<'_>, area: &BoxN, among: Among<'_>) -> bool
    requires { length area.now ≡ asked_width ask.now }
{
    let mut walk = Walk::any(ask, area);
    stays(&mut walk, among)
}
