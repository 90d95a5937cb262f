//! Cells that show that a region is closed.

ghost use Rattle.std.specs.Prelude.{◌≤◌, length, IfOk, IfSome};
ghost use Rattle.sot_regions.specs.Searches.{IsSearch};

use crate::search::{Good, Search, Worth};
use sot_atoms::{AtomSet, Block, Sums};
use std::alloc::AllocError;

/// The most cells of a list.
pub(crate) const MOST_CELLS: usize = 4096;

/// Blocks that have all atoms of a region, whose sums these are, and whose held tubes stay in it.
/// `None` where there would be more than 4,096.
pub(crate) fn cells_of(
    search: &Search<'_>,
    region: &AtomSet,
    sums: &Sums,
) -> Result<Option<Vec<Block>>, AllocError>
    requires { IsSearch search.now }
    ensures { IfOk result (λ found. IfSome found (λ v. length v.items ≤ 4096)) }
{
    let grid = search.grid;
    let mut left = region.copied()?;
    let mut cells = Vec::new(search.alloc);
    let mut from = 0;
    for _cell in 0..MOST_CELLS {
        let Some(number) = left.next(from) else {
            return Ok(Some(cells));
        };
        let worth = Worth::In(&left);
        let cell = search.best(&grid.atom(number), &grid.whole(), Good::Keeps(sums), worth);
        left.take(grid, &cell);
        cells.push(cell)?;
        from = number;
    }
    if left.next(from).is_none() {
        Ok(Some(cells))
    } else {
        Ok(None)
    }
}
