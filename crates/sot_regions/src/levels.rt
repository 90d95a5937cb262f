//! Cells by levels: by how many holds of the safe node a plant is back in the safer region.
//!
//! The first level is what these holds keep in the safer region. Each further one has what a single
//! hold brings into those before it. A cell of a level ends its holds in lower levels, so holds lead
//! back from everywhere where the levels have all of the safe region.

ghost use Rattle.std.specs.Prelude.{◌≡◌, ◌≤◌, length, IfOk, IfSome, OnOk};
ghost use Rattle.sot_regions.specs.Searches.{IsSearch};

use crate::cells::MOST_CELLS;
use crate::search::{Good, Returning, Search, Worth};
use sot_atoms::{AtomSet, Block, Grid, Sums, halves_of};
use sot_box::Region;
use sot_invariant_atoms::atoms_of;
use std::alloc::AllocError;

// How many atoms all levels together may look at.
const MOST_LOOKS: usize = 1_073_741_824;

// How many sweeps or levels there may be.
fn most_levels(grid: &Grid) -> usize
    ensures { result ≤ 4096 }
{
    (MOST_LOOKS / grid.total().max(1)).min(MOST_CELLS)
}

/// How much of a level is covered before the next one is begun, in larger cells.
#[derive(Clone, Copy)]
enum Covering {
    /// All of it.
    Whole,
    /// More than half of it.
    Half,
}

// Whether so many of all atoms of a level may be left to the next one.
fn may_leave(covering: Covering, left: usize, all: usize) -> bool {
    match covering {
        Covering::Whole => false,
        Covering::Half => left < all - left.min(all),
    }
}

// Puts the atoms of a set in a block that return as it is asked, and of good blocks all atoms.
fn put_returning(
    search: &Search<'_>,
    atoms: &AtomSet,
    asked: Returning<'_>,
    block: &Block,
    found: &mut AtomSet,
)
    requires { IsSearch search.now }
{
    let grid = search.grid;
    if atoms.has_none(grid, block) {
        return;
    }
    if search.is_good(block, Good::Returns(asked)) {
        found.put(grid, block);
        return;
    }
    if !search.may_return(block, asked) {
        return;
    }
    if let Some(halves) = halves_of(block) {
        put_returning(search, atoms, asked, &halves.low, found);
        put_returning(search, atoms, asked, &halves.high, found);
    }
}

// The atoms of a set that are not in another.
fn without(set: &AtomSet, other: &AtomSet) -> Result<AtomSet, AllocError> {
    let mut rest = set.copied()?;
    rest.take_those(other);
    Ok(rest)
}

// The atoms of a set that return as it is asked.
fn returning(
    search: &Search<'_>,
    atoms: &AtomSet,
    asked: Returning<'_>,
) -> Result<AtomSet, AllocError>
    requires { IsSearch search.now }
{
    let mut found = AtomSet::none(search.alloc, search.grid)?;
    put_returning(search, atoms, asked, &search.grid.whole(), &mut found);
    let rest = without(atoms, &found)?;
    without(atoms, &rest)
}

// Adds cells that return as it is asked around the atoms of a level. False says that there would be
// more than 4,096.
fn add_cells(
    search: &Search<'_>,
    level: AtomSet,
    asked: Returning<'_>,
    covering: Covering,
    cells: &mut Vec<Block>,
) -> Result<bool, AllocError>
    requires search { IsSearch search.now }
    requires few { length cells.old.items ≤ 4096 }
    ensures { OnOk result (length cells.new.items ≤ 4096) }
{
    let grid = search.grid;
    let all = level.members();
    let mut left = level;
    let mut count = all;
    let mut from = 0;
    for _cell in 0..MOST_CELLS {
        let Some(number) = left.next(from) else {
            return Ok(true);
        };
        if may_leave(covering, count, all) {
            return Ok(true);
        }
        if cells.len() >= MOST_CELLS {
            return Ok(false);
        }
        let worth = Worth::In(&left);
        let cell = search.best(
            &grid.atom(number),
            &grid.whole(),
            Good::Returns(asked),
            worth,
        );
        count = count.saturating_sub(left.count(grid, &cell));
        left.take(grid, &cell);
        cells.push(cell)?;
        from = number;
    }
    Ok(left.next(from).is_none())
}

/// What holds of the safe node are to lead back into, and from where.
#[derive(Drop)]
struct Ground {
    safe: AtomSet,
    safe_sums: Sums,
    safer_sums: Sums,
    core: AtomSet,
}

// What holds of the safe node keep in a set: atoms whose held tube leaves it are taken out, and
// those whose holds may end elsewhere than among what is left, until there are none.
fn core_of(
    search: &Search<'_>,
    safer: AtomSet,
    safer_sums: &Sums,
) -> Result<Option<AtomSet>, AllocError>
    requires { IsSearch search.now }
{
    let mut core = safer;
    for _sweep in 0..most_levels(search.grid) {
        let sums = Sums::of(search.alloc, search.grid, &core)?;
        let asked = Returning {
            own: &sums,
            tube: safer_sums,
            ends: &sums,
        };
        let kept = returning(search, &core, asked)?;
        if kept.members() == core.members() {
            return Ok(Some(core));
        }
        core = kept;
    }
    Ok(None)
}

// The ground of these regions. `None` where its core takes too much work.
fn ground_of(
    search: &Search<'_>,
    safe: &Region,
    safer: &Region,
) -> Result<Option<Ground>, AllocError>
    requires search { IsSearch search.now }
    requires safe { safe.now.width ≡ search.now.grid.now.width }
    requires safer { safer.now.width ≡ search.now.grid.now.width }
{
    let grid = search.grid;
    let safe = atoms_of(search.alloc, grid, safe)?;
    let safer = atoms_of(search.alloc, grid, safer)?;
    let safe_sums = Sums::of(search.alloc, grid, &safe)?;
    let safer_sums = Sums::of(search.alloc, grid, &safer)?;
    let Some(core) = core_of(search, safer, &safer_sums)? else {
        return Ok(None);
    };
    Ok(Some(Ground {
        safe,
        safe_sums,
        safer_sums,
        core,
    }))
}

// Whether holds of the safe node lead back from all of the safe region, in levels that are few
// enough.
fn all_return(search: &Search<'_>, ground: &Ground) -> Result<bool, AllocError>
    requires { IsSearch search.now }
{
    let mut reached = ground.core.copied()?;
    let mut left = without(&ground.safe, &reached)?;
    for _level in 0..most_levels(search.grid) {
        if left.next(0).is_none() {
            return Ok(true);
        }
        let sums = Sums::of(search.alloc, search.grid, &reached)?;
        let asked = Returning {
            own: &ground.safe_sums,
            tube: &ground.safe_sums,
            ends: &sums,
        };
        let next = returning(search, &left, asked)?;
        if next.next(0).is_none() {
            return Ok(false);
        }
        left.take_those(&next);
        reached = without(&ground.safe, &left)?;
    }
    Ok(left.next(0).is_none())
}

// Puts the atoms of cells, from this one on.
fn put_cells(grid: &Grid, cells: &[Block], first: usize, reached: &mut AtomSet) {
    for place in first..cells.len() {
        reached.put(grid, &cells[place]);
    }
}

// The cells of the core.
fn core_cells(search: &Search<'_>, ground: &Ground) -> Result<Option<Vec<Block>>, AllocError>
    requires { IsSearch search.now }
    ensures { IfOk result (λ found. IfSome found (λ v. length v.items ≤ 4096)) }
{
    let sums = Sums::of(search.alloc, search.grid, &ground.core)?;
    let asked = Returning {
        own: &sums,
        tube: &ground.safer_sums,
        ends: &sums,
    };
    let mut cells = Vec::new(search.alloc);
    let core = ground.core.copied()?;
    if add_cells(search, core, asked, Covering::Whole, &mut cells)? {
        Ok(Some(cells))
    } else {
        Ok(None)
    }
}

// Adds the cells of the next level. False says that there would be too many, or that none returns.
fn add_level(
    search: &Search<'_>,
    ground: &Ground,
    covering: Covering,
    reached: &mut AtomSet,
    cells: &mut Vec<Block>,
) -> Result<bool, AllocError>
    requires search { IsSearch search.now }
    requires few { length cells.old.items ≤ 4096 }
    ensures { OnOk result (length cells.new.items ≤ 4096) }
{
    let left = without(&ground.safe, reached)?;
    let sums = Sums::of(search.alloc, search.grid, reached)?;
    let asked = Returning {
        own: &ground.safe_sums,
        tube: &ground.safe_sums,
        ends: &sums,
    };
    let next = returning(search, &left, asked)?;
    let first = cells.len();
    if next.next(0).is_none() || !add_cells(search, next, asked, covering, cells)? {
        return Ok(false);
    }
    put_cells(search.grid, cells, first, reached);
    Ok(true)
}

// The cells of all levels, which are covered so. `None` where there would be too many.
fn cells_with(
    search: &Search<'_>,
    ground: &Ground,
    covering: Covering,
) -> Result<Option<Vec<Block>>, AllocError>
    requires { IsSearch search.now }
    ensures { IfOk result (λ found. IfSome found (λ v. length v.items ≤ 4096)) }
{
    let Some(mut cells) = core_cells(search, ground)? else {
        return Ok(None);
    };
    let mut reached = ground.core.copied()?;
    for _level in 0..most_levels(search.grid) {
        if without(&ground.safe, &reached)?.next(0).is_none() {
            return Ok(Some(cells));
        }
        if !add_level(search, ground, covering, &mut reached, &mut cells)? {
            return Ok(None);
        }
    }
    Ok(None)
}

/// At most 4,096 blocks that have all atoms of the safe region, of which each ends its holds of the
/// safe node in earlier ones or, in the safer region, in the first ones. `None` where holds do not
/// lead back from everywhere, or the levels or their cells are too many.
pub(crate) fn cells_by_levels(
    search: &Search<'_>,
    safe: &Region,
    safer: &Region,
) -> Result<Option<Vec<Block>>, AllocError>
    requires search { IsSearch search.now }
    requires safe { safe.now.width ≡ search.now.grid.now.width }
    requires safer { safer.now.width ≡ search.now.grid.now.width }
    ensures { IfOk result (λ found. IfSome found (λ v. length v.items ≤ 4096)) }
{
    let Some(ground) = ground_of(search, safe, safer)? else {
        return Ok(None);
    };
    if !all_return(search, &ground)? {
        return Ok(None);
    }
    match cells_with(search, &ground, Covering::Whole)? {
        Some(cells) => Ok(Some(cells)),
        None => cells_with(search, &ground, Covering::Half),
    }
}
