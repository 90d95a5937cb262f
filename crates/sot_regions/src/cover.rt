//! Few boxes for a set of atoms.

ghost use Rattle.std.specs.Prelude.{◌≡◌, ◌+◌, ◌<◌, ◌≤◌, [], length, IfOk, OnOk};
ghost use Rattle.sot_regions.specs.Searches.{IsSearch};

use crate::closing::add_closed;
use crate::search::{Good, Search};
use crate::seeds::{Seed, richest, seeds_in};
use crate::thin::thin;
use sot_atoms::{AtomSet, Block, Grid, Sums};
use std::alloc::{AllocError, Global};

/// The most boxes of a region.
pub(crate) const MOST_BOXES: usize = 256;

// How often seeds are laid, and how many boxes may be refused in a row.
const TURNS: usize = 16;

const REFUSALS: usize = 4;

/// Blocks, and the atoms in them.
#[derive(Drop)]
pub(crate) struct Cover {
    pub(crate) boxes: Vec<Block>,
    pub(crate) set: AtomSet,
}

impl Cover {
    /// No block of a grid.
    pub(crate) fn none(alloc: Global, grid: &Grid) -> Result<Cover, AllocError>
        ensures { IfOk result (λ c. c.boxes.items ≡ []) }
    {
        let set = AtomSet::none(alloc, grid)?;
        let boxes = Vec::new(alloc);
        Ok(Cover { boxes, set })
    }

    /// Puts a block behind the others.
    pub(crate) fn add(&mut self, grid: &Grid, block: Block) -> Result<(), AllocError>
        ensures { OnOk result (length self.new.boxes.items ≡ length self.old.boxes.items + 1) }
    {
        self.boxes.push(block)?;
        self.set.put(grid, &block);
        Ok(())
    }

    /// Has these blocks alone, as before others were added, when these atoms were left out.
    pub(crate) fn reset(&mut self, boxes: Vec<Block>, left: &AtomSet)
        ensures { self.new.boxes.items ≡ boxes.items }
    {
        self.set.take_those(left);
        self.boxes = boxes;
    }
}

/// What is asked of a region to which a box is added.
#[derive(Clone, Copy)]
pub(crate) enum Adding<'a> {
    /// Nothing.
    Plain,
    /// That the held tubes of its atoms stay in it, where more boxes in the set of these sums may
    /// be added.
    Closed(&'a Sums),
}

// Adds a block, and leaves out those that the others cover then.
fn add_plain(
    search: &Search<'_>,
    cover: &mut Cover,
    left: &mut AtomSet,
    block: Block,
) -> Result<(), AllocError>
    requires { length cover.old.boxes.items < 256 }
    ensures { OnOk result (length cover.new.boxes.items ≤ 256) }
{
    cover.add(search.grid, block)?;
    left.take(search.grid, &block);
    thin(search.alloc, search.grid, &mut cover.boxes)
}

// Adds a block as it is asked. False says that the cover is as it was.
fn add(
    search: &Search<'_>,
    cover: &mut Cover,
    left: &mut AtomSet,
    block: Block,
    adding: Adding<'_>,
) -> Result<bool, AllocError>
    requires search { IsSearch search.now }
    requires room { length cover.old.boxes.items < 256 }
    ensures { OnOk result (length cover.new.boxes.items ≤ 256) }
{
    match adding {
        Adding::Plain => {
            add_plain(search, cover, left, block)?;
            Ok(true)
        }
        Adding::Closed(sums) => add_closed(search, cover, left, block, sums),
    }
}

// Adds seeds, the one that adds most atoms first, until four in a row are refused. Whether one was
// added.
fn add_seeds(
    search: &Search<'_>,
    cover: &mut Cover,
    left: &mut AtomSet,
    seeds: &mut Vec<Seed>,
    adding: Adding<'_>,
) -> Result<bool, AllocError>
    requires search { IsSearch search.now }
    requires few { length cover.old.boxes.items ≤ 256 }
    ensures { OnOk result (length cover.new.boxes.items ≤ 256) }
{
    let mut added = false;
    let mut refused = 0;
    for _seed in 0..seeds.len() {
        if refused >= REFUSALS || cover.boxes.len() >= MOST_BOXES {
            break;
        }
        let Some(place) = richest(search.grid, seeds, &cover.set) else {
            break;
        };
        let seed = seeds.remove(place);
        if add(search, cover, left, seed.block, adding)? {
            added = true;
            refused = 0;
        } else {
            refused += 1;
        }
    }
    Ok(added)
}

/// A cover of these atoms by at most 256 good blocks, as far as it is found.
pub(crate) fn cover_of(
    search: &Search<'_>,
    atoms: AtomSet,
    good: Good<'_>,
    adding: Adding<'_>,
) -> Result<Cover, AllocError>
    requires { IsSearch search.now }
    ensures { IfOk result (λ c. length c.boxes.items ≤ 256) }
{
    let mut cover = Cover::none(search.alloc, search.grid)?;
    let mut left = atoms;
    for _turn in 0..TURNS {
        if cover.boxes.len() >= MOST_BOXES {
            break;
        }
        let mut seeds = seeds_in(search, &left, good)?;
        if !add_seeds(search, &mut cover, &mut left, &mut seeds, adding)? {
            break;
        }
    }
    Ok(cover)
}
