//! Regions inside one that is given, with coarser and coarser grains.

ghost use Rattle.std.specs.Prelude.{◌≡◌, ◌≤◌, ◌<◌, ℤ, List, length, IfOk, IfErr, IfSome, OnOk};
ghost use Rattle.sot_atoms.specs.Grids.{CutsHull};
ghost use Rattle.sot_invariant_atoms.specs.Asking.{asked_width};
ghost use Rattle.sot_regions.specs.Shapes.{AreWide, HasShape};
ghost use Rattle.sot_regions.specs.Searches.{IsSearch, IsBest, AreGoneThrough};
ghost use Rattle.sot_regions.specs.declared.found.RegionsFail.TheVariants.{SafeNone};

use crate::cells::cells_of;
use crate::cover::{Adding, Cover, cover_of};
use crate::found::{FoundRegions, RegionsFail};
use crate::growing::orders;
use crate::levels::cells_by_levels;
use crate::search::{Good, Search};
use crate::walks::Outside;
use sot_atoms::{AtomSet, Block, Grid, MOST_ATOMS, Sums, atoms_in};
use sot_box::{BoxN, Region};
use sot_invariant_atoms::{ModuleAsk, atoms_of, greatest};
use sot_rta::node_at;
use std::alloc::{AllocError, Global};

// More grains than there are until each side is one place.
const GRAINS: u32 = 64;

// How many ticks of held tubes there may be from all atoms together.
const MOST_TICKS: u64 = 134_217_728;

// The best regions so far.
#[derive(Drop)]
struct Best {
    // how many atoms of the narrowest grain the safe region has
    worth: u64,
    found: Option<FoundRegions>,
    // how often their grid is coarser than the narrowest one
    times: u32,
    // whether some safe region had no safer one
    no_safer: bool,
    // how many grains were gone through, and whether coarser ones would find nothing better
    grains: u32,
    done: bool,
}

// How many atoms of the narrowest grid the atoms of a set of a coarser one have.
fn worth_of(grid: &Grid, narrowest: &Grid, set: &AtomSet) -> u64
    requires { grid.now.width ≡ narrowest.now.width }
{
    if grid.total() == narrowest.total() {
        return set.members() as u64;
    }
    let mut worth = 0u64;
    let mut from = 0;
    for _atom in 0..set.len() {
        let Some(number) = set.next(from) else {
            break;
        };
        if let Some(block) = narrowest.block(&grid.area(&grid.atom(number))) {
            worth = worth.saturating_add(atoms_in(&block));
        }
        from = number + 1;
    }
    worth
}

// The points of some blocks.
fn areas(alloc: Global, grid: &Grid, blocks: &[Block]) -> Result<Vec<BoxN>, AllocError>
    ensures count { IfOk result (λ v. length v.items ≡ length blocks.now) }
    ensures wide { IfOk result (λ v. AreWide grid.now.width v.items) }
{
    let mut boxes = Vec::new(alloc);
    for block in blocks {
        boxes.push(grid.area(block))?;
    }
    Ok(boxes)
}

// The cells and the safer region of a safe region, where there are few cells. The best regions are
// these where they have a box from which any commands keep.
fn improve(search: &Search<'_>, safe: Cover, worth: u64, best: &mut Best) -> Result<(), AllocError>
    requires search { IsSearch search.now }
    requires some { 0 < length safe.boxes.items }
    requires few { length safe.boxes.items ≤ 256 }
    requires best { IsBest search.now.grid.now.width best.old }
    ensures best { OnOk result (IsBest search.now.grid.now.width best.new) }
    ensures grains { best.new.grains ≡ best.old.grains }
{
    let grid = search.grid;
    let Cover { boxes, set } = safe;
    let sums = Sums::of(search.alloc, grid, &set)?;
    let Some(cells) = cells_of(search, &set, &sums)? else {
        return Ok(());
    };
    let safer = cover_of(search, set, Good::KeepsAny(&sums), Adding::Plain)?;
    if safer.boxes.is_empty() {
        best.no_safer = true;
        return Ok(());
    }
    let found = FoundRegions {
        safe: areas(search.alloc, grid, &boxes)?,
        safer: areas(search.alloc, grid, &safer.boxes)?,
        cells: areas(search.alloc, grid, &cells)?,
    };
    best.worth = worth;
    best.found = Some(found);
    best.times = search.times;
    Ok(())
}

// Looks for regions among the atoms of a closed set.
fn look(
    search: &Search<'_>,
    narrowest: &Grid,
    set: &AtomSet,
    best: &mut Best,
) -> Result<(), AllocError>
    requires search { IsSearch search.now }
    requires narrowest { narrowest.now.width ≡ search.now.grid.now.width }
    requires best { IsBest search.now.grid.now.width best.old }
    ensures best { OnOk result (IsBest search.now.grid.now.width best.new) }
    ensures grains { best.new.grains ≡ best.old.grains }
{
    let grid = search.grid;
    let most = worth_of(grid, narrowest, set);
    if most <= best.worth {
        best.done = true;
        return Ok(());
    }
    let sums = Sums::of(search.alloc, grid, set)?;
    let safe = cover_of(
        search,
        set.copied()?,
        Good::Within(&sums),
        Adding::Closed(&sums),
    )?;
    drop(sums);
    let worth = worth_of(grid, narrowest, &safe.set);
    if best.worth < worth && !safe.boxes.is_empty() {
        improve(search, safe, worth, best)?;
    }
    best.done = most <= best.worth || grid.total() <= 1;
    Ok(())
}

/// The greatest closed set of atoms inside a region.
pub(crate) fn closed_in(
    alloc: Global,
    ask: &ModuleAsk<'_>,
    grid: &Grid,
    given: &Region,
) -> Result<AtomSet, AllocError>
    requires grid { grid.now.width ≡ asked_width ask.now }
    requires given { given.now.width ≡ asked_width ask.now }
{
    let mut set = atoms_of(alloc, grid, given)?;
    greatest(alloc, ask, grid, &mut set)?;
    Ok(set)
}

// The most atoms of a grid, by how long held tubes are.
fn most_atoms(ask: &ModuleAsk<'_>) -> u64 {
    let period = node_at(ask.program(), ask.info().sc).period;
    let ticks = u64::from(period).saturating_add(u64::from(ask.jitter()));
    (MOST_ATOMS as u64).min(MOST_TICKS / ticks.max(1))
}

// Looks with the narrowest grains.
fn look_first(
    alloc: Global,
    ask: &ModuleAsk<'_>,
    narrowest: &Grid,
    set: &AtomSet,
    best: &mut Best,
) -> Result<(), AllocError>
    requires narrowest { narrowest.now.width ≡ asked_width ask.now }
    requires best { IsBest (asked_width ask.now) best.old }
    ensures { OnOk result (IsBest (asked_width ask.now) best.new) }
{
    let orders = orders(alloc, narrowest.width())?;
    let search = Search {
        alloc,
        ask: &*ask,
        grid: &*narrowest,
        times: 0,
        orders: &orders,
    };
    look(&search, narrowest, set, best)
}

// Looks with coarser and coarser grains for better regions, until none would find some. Want of
// memory is never such an end.
fn coarsen(
    alloc: Global,
    ask: &ModuleAsk<'_>,
    given: &Region,
    narrowest: &Grid,
    best: &mut Best,
) -> Result<(), AllocError>
    requires narrowest { narrowest.now.width ≡ asked_width ask.now }
    requires given { given.now.width ≡ asked_width ask.now }
    requires best { IsBest (asked_width ask.now) best.old }
    ensures best { OnOk result (IsBest (asked_width ask.now) best.new) }
    ensures through { OnOk result (AreGoneThrough best.new) }
{
    let orders = orders(alloc, narrowest.width())?;
    best.grains = 1;
    for times in 1..GRAINS {
        if best.done {
            return Ok(());
        }
        if let Some(grid) = narrowest.coarser(times) {
            let set = closed_in(alloc, ask, &grid, given)?;
            let search = Search {
                alloc,
                ask: &*ask,
                grid: &grid,
                times,
                orders: &orders,
            };
            look(&search, narrowest, &set, best)?;
        }
        best.grains = times + 1;
    }
    Ok(())
}

/// The grid of a hull with the narrowest grains that have few enough atoms. There is always one.
pub(crate) fn narrowest_grid(ask: &ModuleAsk<'_>, hull: &BoxN) -> Option<Grid>
    ensures width { IfSome result (λ g. g.width ≡ length hull.now) }
    ensures cuts { IfSome result (λ g. CutsHull g hull.now) }
{
    Grid::of(hull, most_atoms(ask), 0)
}

// The points of some boxes.
fn region_of(alloc: Global, width: usize, boxes: &[BoxN]) -> Result<Region, AllocError>
    requires { AreWide width boxes.now }
    ensures { IfOk result (λ r. r.width ≡ width) }
{
    let mut region = Region::none(alloc, width);
    for b in boxes {
        if region.push(*b).is_err() {
            return Err(AllocError);
        }
    }
    Ok(region)
}

// The cells by levels of regions in a grid, as boxes.
fn level_cells(search: &Search<'_>, found: &FoundRegions) -> Result<Option<Vec<BoxN>>, AllocError>
    requires search { IsSearch search.now }
    requires shape { HasShape search.now.grid.now.width found.now }
    ensures { IfOk result (λ made. IfSome made (λ v. (length v.items ≤ 4096)
        × AreWide search.now.grid.now.width v.items)) }
{
    let width = search.grid.width();
    let safe = region_of(search.alloc, width, &found.safe)?;
    let safer = region_of(search.alloc, width, &found.safer)?;
    match cells_by_levels(search, &safe, &safer)? {
        None => Ok(None),
        Some(cells) => Ok(Some(areas(search.alloc, search.grid, &cells)?)),
    }
}

// The cells by levels of regions in one grid, as boxes.
fn cells_in(
    alloc: Global,
    ask: &ModuleAsk<'_>,
    grid: &Grid,
    found: &FoundRegions,
) -> Result<Option<Vec<BoxN>>, AllocError>
    requires grid { grid.now.width ≡ asked_width ask.now }
    requires shape { HasShape grid.now.width found.now }
    ensures { IfOk result (λ made. IfSome made (λ v. (length v.items ≤ 4096)
        × AreWide grid.now.width v.items)) }
{
    let orders = orders(alloc, grid.width())?;
    let search = Search {
        alloc,
        ask: &*ask,
        grid: &*grid,
        times: 0,
        orders: &orders,
    };
    level_cells(&search, found)
}

// Whether an atom of a grid is known to be in no level of regions.
fn is_without_level(
    alloc: Global,
    ask: &ModuleAsk<'_>,
    grid: &Grid,
    found: &FoundRegions,
) -> Result<bool, AllocError>
    requires grid { grid.now.width ≡ asked_width ask.now }
    requires shape { HasShape grid.now.width found.now }
{
    let safe = region_of(alloc, grid.width(), &found.safe)?;
    let safer = region_of(alloc, grid.width(), &found.safer)?;
    let outside = Outside {
        alloc,
        ask: &*ask,
        grid: &*grid,
        safe: &safe,
        safer: &safer,
    };
    outside.has_endless()
}

// The same regions with cells by levels, in the grid that is so often coarser than the narrowest
// one, or else in the coarsest finer one in which there are some; as they are where there is none.
fn with_levels(
    alloc: Global,
    ask: &ModuleAsk<'_>,
    narrowest: &Grid,
    times: u32,
    found: FoundRegions,
) -> Result<FoundRegions, AllocError>
    requires narrowest { narrowest.now.width ≡ asked_width ask.now }
    requires shape { HasShape (asked_width ask.now) found }
    ensures { IfOk result (HasShape (asked_width ask.now)) }
{
    let mut found = found;
    if is_without_level(alloc, ask, narrowest, &found)? {
        return Ok(found);
    }
    for finer in 0..times {
        if let Some(grid) = narrowest.coarser(times - finer) {
            if let Some(cells) = cells_in(alloc, ask, &grid, &found)? {
                found.cells = cells;
                return Ok(found);
            }
        }
    }
    if let Some(cells) = cells_in(alloc, ask, narrowest, &found)? {
        found.cells = cells;
    }
    Ok(found)
}

// The best regions where all grains were gone through, with cells by levels.
fn best_of(
    alloc: Global,
    ask: &ModuleAsk<'_>,
    narrowest: &Grid,
    best: Best,
) -> Result<FoundRegions, RegionsFail>
    requires narrowest { narrowest.now.width ≡ asked_width ask.now }
    requires best { IsBest (asked_width ask.now) best }
    requires through { AreGoneThrough best }
    ensures shape { IfOk result (HasShape (asked_width ask.now)) }
    ensures fail { IfErr result (λ e. (grain : List ℤ) → e ≡ SafeNone grain → ⊥) }
{
    let Best {
        found,
        times,
        no_safer,
        ..
    } = best;
    match found {
        Some(found) => Ok(with_levels(alloc, ask, narrowest, times, found)?),
        None if no_safer => Err(RegionsFail::SaferNone),
        None => Err(RegionsFail::TooMany),
    }
}

/// The best regions inside the given one, of whose atoms on the narrowest grid these are closed.
pub(crate) fn regions_from(
    alloc: Global,
    ask: &ModuleAsk<'_>,
    given: &Region,
    narrowest: &Grid,
    set: &AtomSet,
) -> Result<FoundRegions, RegionsFail>
    requires narrowest { narrowest.now.width ≡ asked_width ask.now }
    requires given { given.now.width ≡ asked_width ask.now }
    ensures shape { IfOk result (HasShape (asked_width ask.now)) }
    ensures fail { IfErr result (λ e. (grain : List ℤ) → e ≡ SafeNone grain → ⊥) }
{
    let mut best = Best {
        worth: 0,
        found: None,
        times: 0,
        no_safer: false,
        grains: 0,
        done: false,
    };
    look_first(alloc, ask, narrowest, set, &mut best)?;
    coarsen(alloc, ask, given, narrowest, &mut best)?;
    best_of(alloc, ask, narrowest, best)
}
