//! Seeds: blocks that grow from atoms that are spread over a set.

ghost use Rattle.std.specs.Prelude.{◌<◌, length, IfSome};
ghost use Rattle.sot_regions.specs.Searches.{IsSearch};

use crate::search::{Good, Search, Worth, outside};
use sot_atoms::{AtomSet, Block, Grid, atoms_in};
use std::alloc::AllocError;

// How many seeds are laid at most.
const SEEDS: usize = 256;

/// A block, and the number of atoms that it is known to add at most.
#[derive(Clone, Copy)]
pub(crate) struct Seed {
    pub(crate) gain: u64,
    pub(crate) block: Block,
}

fn has(seeds: &[Seed], block: &Block) -> bool {
    for seed in seeds {
        if seed.block == *block {
            return true;
        }
    }
    false
}

/// The seeds of a set: of its atoms, at most 256 at equal distances in order, the best blocks
/// around those that are good, each once.
pub(crate) fn seeds_in(
    search: &Search<'_>,
    left: &AtomSet,
    good: Good<'_>,
) -> Result<Vec<Seed>, AllocError>
    requires { IsSearch search.now }
{
    let grid = search.grid;
    let each = left.members().div_ceil(SEEDS);
    let mut seeds = Vec::new(search.alloc);
    for number in &left.spread(search.alloc, each)? {
        let atom = grid.atom(*number);
        if !search.is_good(&atom, good) {
            continue;
        }
        let block = search.best(&atom, &grid.whole(), good, Worth::In(left));
        if !has(&seeds, &block) {
            seeds.push(Seed {
                gain: atoms_in(&block),
                block,
            })?;
        }
    }
    Ok(seeds)
}

// The first seed of the greatest gain.
fn greatest(seeds: &[Seed]) -> Option<usize>
    ensures { IfSome result (λ i. i < length seeds.now) }
{
    if seeds.is_empty() {
        return None;
    }
    let mut place = 0;
    for i in 1..seeds.len() {
        if seeds[place].gain < seeds[i].gain {
            place = i;
        }
    }
    Some(place)
}

/// The first seed that adds most atoms to a set, where one adds some. What a seed adds never grows,
/// so one whose number is right and the greatest is the richest.
pub(crate) fn richest(grid: &Grid, seeds: &mut [Seed], set: &AtomSet) -> Option<usize>
    ensures { IfSome result (λ i. i < length seeds.new) }
{
    // Each turn but the last one puts a number right.
    for _turn in 0..seeds.len() + 1 {
        let place = greatest(seeds)?;
        let gain = outside(grid, &seeds[place].block, set);
        if gain == seeds[place].gain {
            return if gain > 0 { Some(place) } else { None };
        }
        seeds[place].gain = gain;
    }
    None
}
