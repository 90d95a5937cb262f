//! The best block around an atom: grown in each order of the axes, the one of the greatest worth.

ghost use Rattle.std.specs.Prelude.{◌<◌};
ghost use Rattle.sot_regions.specs.Searches.{IsSearch};

use crate::growing::{End, Order, grown, room};
use sot_atoms::{AtomSet, Block, Grid, Sums, atoms_in};
use sot_invariant_atoms::{Among, ModuleAsk, any_stays, held_lands, held_may_land, held_stays};
use std::alloc::{AllocError, Global};

/// In which grid is searched, and whose tubes are asked for.
#[derive(Clone, Copy)]
pub(crate) struct Search<'a> {
    pub(crate) alloc: Global,
    pub(crate) ask: &'a ModuleAsk<'a>,
    pub(crate) grid: &'a Grid,
    /// How often the grid is coarser than the narrowest one.
    pub(crate) times: u32,
    pub(crate) orders: &'a [Order],
}

/// Where a block lies, where its held tube stays, and where its holds of the safe node end, as sets
/// of these sums.
#[derive(Clone, Copy)]
pub(crate) struct Returning<'a> {
    pub(crate) own: &'a Sums,
    pub(crate) tube: &'a Sums,
    pub(crate) ends: &'a Sums,
}

/// What is asked of a block. A smaller block does it too, since its tubes are narrower.
#[derive(Clone, Copy)]
pub(crate) enum Good<'a> {
    /// It lies in the set of these sums.
    Within(&'a Sums),
    /// Its held tube stays in the set.
    Held(&'a Sums),
    /// It lies in the set, and its held tube stays there.
    Keeps(&'a Sums),
    /// It lies in the set, and its tube under any commands stays there.
    KeepsAny(&'a Sums),
    /// It lies, its held tube stays, and its holds end in these sets.
    Returns(Returning<'a>),
}

/// What a block is worth.
#[derive(Clone, Copy)]
pub(crate) enum Worth<'a> {
    /// Its atoms.
    Atoms,
    /// Its atoms in the set.
    In(&'a AtomSet),
    /// Its atoms that are not in the set.
    Outside(&'a AtomSet),
}

/// How many atoms of a block are not in a set.
pub(crate) fn outside(grid: &Grid, block: &Block, set: &AtomSet) -> u64 {
    atoms_in(block).saturating_sub(set.count(grid, block) as u64)
}

fn worth_of(grid: &Grid, block: &Block, worth: Worth<'_>) -> u64 {
    match worth {
        Worth::Atoms => atoms_in(block),
        Worth::In(set) => set.count(grid, block) as u64,
        Worth::Outside(set) => outside(grid, block, set),
    }
}

impl Search<'_> {
    // The atoms of a set, which are counted by look-ups.
    fn among<'s>(&'s self, sums: &'s Sums) -> Among<'s> {
        Among::Atoms(self.grid, sums)
    }

    // Whether the held tube of a block stays in the set of these sums.
    fn stays(&self, block: &Block, sums: &Sums) -> bool
        requires { IsSearch self.now }
    {
        held_stays(self.ask, &self.grid.area(block), self.among(sums))
    }

    // Whether the tube of a block under any commands stays there.
    fn any_stays(&self, block: &Block, sums: &Sums) -> bool
        requires { IsSearch self.now }
    {
        any_stays(self.ask, &self.grid.area(block), self.among(sums))
    }

    // Whether the holds of a block end in the set of these sums.
    fn lands(&self, block: &Block, sums: &Sums) -> bool
        requires { IsSearch self.now }
    {
        held_lands(self.ask, &self.grid.area(block), self.among(sums))
    }

    // Whether a block lies, its held tube stays, and its holds end where it is asked.
    fn returns(&self, block: &Block, asked: Returning<'_>) -> bool
        requires { IsSearch self.now }
    {
        asked.own.has_all(self.grid, block)
            && self.lands(block, asked.ends)
            && self.stays(block, asked.tube)
    }

    /// Whether the holds of some atom of a block may end where it is asked.
    pub(crate) fn may_return(&self, block: &Block, asked: Returning<'_>) -> bool
        requires { IsSearch self.now }
    {
        held_may_land(self.ask, &self.grid.area(block), self.grid, asked.ends)
    }

    /// Whether a block is good.
    pub(crate) fn is_good(&self, block: &Block, good: Good<'_>) -> bool
        requires { IsSearch self.now }
    {
        match good {
            Good::Within(sums) => sums.has_all(self.grid, block),
            Good::Held(sums) => self.stays(block, sums),
            Good::Keeps(sums) => sums.has_all(self.grid, block) && self.stays(block, sums),
            Good::KeepsAny(sums) => sums.has_all(self.grid, block) && self.any_stays(block, sums),
            Good::Returns(asked) => self.returns(block, asked),
        }
    }

    // Moves one end of a block as far as it stays good, inside another one, by steps that double
    // while they are good, and then halve.
    fn push(&self, from: &Block, within: &Block, k: usize, end: End, good: Good<'_>) -> Block
        requires search { IsSearch self.now }
        requires below { k < 4 }
    {
        let mut block = *from;
        let mut step = 1usize;
        let mut doubling = true;
        for _time in 0..128 {
            if step == 0 {
                break;
            }
            let wider = grown(&block, k, end, step);
            let fits = step <= room(&block, within, k, end);
            if fits && self.is_good(&wider, good) {
                block = wider;
            } else {
                doubling = false;
            }
            step = if doubling {
                step.saturating_mul(2)
            } else {
                step / 2
            };
        }
        block
    }

    // Moves all ends of a block as far as it stays good, inside another one, axis by axis.
    fn grow(&self, from: &Block, within: &Block, order: Order, good: Good<'_>) -> Block
        requires { IsSearch self.now }
    {
        let mut block = *from;
        for i in 0..4 {
            let k = order.axis(i);
            block = self.push(&block, within, k, End::Upper, good);
            block = self.push(&block, within, k, End::Lower, good);
        }
        block
    }

    /// Of the blocks that grow from this one in all orders the first one of the greatest worth.
    pub(crate) fn best(
        &self,
        from: &Block,
        within: &Block,
        good: Good<'_>,
        worth: Worth<'_>,
    ) -> Block
        requires { IsSearch self.now }
    {
        let mut best = *from;
        let mut greatest = None;
        for order in self.orders {
            let block = self.grow(from, within, *order, good);
            if block == best && greatest.is_some() {
                continue;
            }
            let found = worth_of(self.grid, &block, worth);
            if greatest.is_none_or(|most| most < found) {
                best = block;
                greatest = Some(found);
            }
        }
        best
    }
}
