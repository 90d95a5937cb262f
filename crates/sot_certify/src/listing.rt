//! One list of cells.

ghost use Rattle.std.specs.Prelude.{◌≡◌, ℕ, List, [], ◌∷◌, ◌++◌, ◌<◌, ◌≤◌, ◌⊎◌, length, reverse};
ghost use Rattle.std.specs.Prelude.{IfOk, IfErr, OnOk, MatchResult};
ghost use Rattle.sot_lists.specs.Places.{At};
ghost use Rattle.sot_box.specs.Sides.{Side, AreOrdered};
ghost use Rattle.sot_box.specs.Boxes.{lows};
ghost use Rattle.sot_certify.specs.Cuts.{IsOnePoint, AreHalves};
ghost use Rattle.sot_lang.specs.OwnerNames.{width_of};
ghost use Rattle.sot_lang.specs.TableRules.{MeetsTableRules};
ghost use Rattle.sot_rta.specs.Cells.{MayHaveCells};
ghost use Rattle.sot_certify.specs.Made.{IsGood, region_of};
ghost use Rattle.sot_certify.specs.Steps.{IsTaken, IsNotTaken, IsNotMade, IsListOf};
ghost use Rattle.sot_certify.specs.declared.listing.ListFail.TheVariants.{Point as AtPoint};
ghost use Rattle.sot_certify.specs.declared.listing.ListFail.TheVariants.{TooMany, Memory};

use crate::good::is_good;
use crate::halves::{halves_of, low_corner};
use sot_box::{BoxN, Point, Region};
use sot_lang::{ModuleInfo, Typed};
use sot_rta::plant_at;
use std::alloc::{AllocError, AllocFailed, Global};

// The most cells of a list.
const CELL_LIMIT: usize = 4096;

/// Why a list of cells is not made.
#[derive(Clone, Copy, Debug, PartialEq, Eq)]
pub enum ListFail {
    Point(Point),
    TooMany,
    Memory,
}

impl From<AllocError> for ListFail {
    ghost from_gives = { λ _ e. e ≡ Memory };

    fn from(_e: AllocError) -> ListFail {
        ListFail::Memory
    }
}

impl<T: Drop> From<AllocFailed<T>> for ListFail {
    ghost from_gives = { λ _ e. e ≡ Memory };

    fn from(_e: AllocFailed<T>) -> ListFail {
        ListFail::Memory
    }
}

// Keeps a good box as a cell.
fn keep(cells: &mut Region, cell: BoxN) -> Result<(), ListFail>
    requires width { length cell ≡ cells.old.width }
    ensures ok { OnOk result (cells.new.boxes ≡ cells.old.boxes ++ cell ∷ []) }
    ensures few { OnOk result (length cells.new.boxes ≤ 4096) }
    ensures width { cells.new.width ≡ cells.old.width }
    ensures fail { IfErr result (λ e. (e ≡ TooMany) × (4096 ≤ length cells.old.boxes)
        ⊎ (e ≡ Memory)) }
{
    if cells.len() >= CELL_LIMIT {
        return Err(ListFail::TooMany);
    }
    match cells.push(cell) {
        Ok(()) => Ok(()),
        Err(_) => Err(ListFail::Memory),
    }
}

// Opens the two halves of a box, the low one as the next, or says that the box is one point.
fn open_halves(pending: &mut Vec<BoxN>, cell: &BoxN) -> Result<(), ListFail>
    ensures ok { OnOk result ((low high : List Side) × AreHalves cell.now low high
        × (pending.new.items ≡ (pending.old.items ++ high ∷ []) ++ low ∷ [])) }
    ensures fail { IfErr result (λ e. (IsOnePoint cell.now × (e ≡ AtPoint (lows cell.now)))
        ⊎ (e ≡ Memory)) }
{
    let Some(halves) = halves_of(cell) else {
        return Err(ListFail::Point(low_corner(cell)));
    };
    pending.push(halves.high)?;
    pending.push(halves.low)?;
    Ok(())
}

// Takes the next box.
fn take(
    p: &Typed,
    module: u32,
    info: &ModuleInfo,
    reach: bool,
    cell: BoxN,
    pending: &mut Vec<BoxN>,
    cells: &mut Region,
) -> Result<(), ListFail>
    requires is { At p.now.modules «module» info.now }
    requires rules { MeetsTableRules p.now }
    requires may { MayHaveCells p.now }
    requires width { length cell ≡ width_of p.now.plants info.now.plant }
    requires region { cells.old.width ≡ width_of p.now.plants info.now.plant }
    ensures ok { OnOk result (IsTaken (IsGood p.now info.now reach) cell pending.old.items
        pending.new.items cells.old.boxes cells.new.boxes) }
    ensures few { OnOk result (length cells.old.boxes ≤ 4096 → length cells.new.boxes ≤ 4096) }
    ensures ordered { AreOrdered cell }
    ensures region { cells.new.width ≡ cells.old.width }
    ensures fail { IfErr result (λ e. IsNotTaken (IsGood p.now info.now reach) cell cells.old.boxes
        e) }
{
    if is_good(p, module, info, reach, &cell) {
        keep(cells, cell)
    } else {
        open_halves(pending, &cell)
    }
}

// The boxes of a region, the first one last.
fn opened(alloc: Global, region: &Region) -> Result<Vec<BoxN>, ListFail>
    ensures ok { IfOk result (λ v. v.items ≡ reverse region.now.boxes) }
    ensures fail { IfErr result (λ e. e ≡ Memory) }
{
    let mut pending = Vec::new(alloc);
    let mut left = region.len();
    while left > 0 {
        left -= 1;
        pending.push(region.at(left))?;
    }
    Ok(pending)
}

// The region whose cells a list gives.
fn region_of(info: &ModuleInfo, reach: bool) -> &Region
    ensures { result.now ≡ region_of info.now reach }
{
    if reach { &info.safer } else { &info.safe }
}

// How many state variables the module's plant has.
#[tactic(auto, using(sot_lang::proofs::Owners::width_at))]
fn width_of(p: &Typed, info: &ModuleInfo) -> usize
    requires { info.now.plant < length p.now.plants }
    ensures { result ≡ width_of p.now.plants info.now.plant }
{
    plant_at(p, info.plant).states.len()
}

/// One list of cells of a module: the boxes of its region are halved until each is good.
pub fn list_of(
    alloc: Global,
    p: &Typed,
    module: u32,
    info: &ModuleInfo,
    reach: bool,
) -> Result<Region, ListFail>
    requires is { At p.now.modules «module» info.now }
    requires rules { MeetsTableRules p.now }
    requires may { MayHaveCells p.now }
    ensures { MatchResult result (IsListOf p.now info.now reach) (IsNotMade p.now info.now reach) }
{
    let region = region_of(info, reach);
    let mut pending = opened(alloc, region)?;
    let mut cells = Region::none(alloc, width_of(p, info));
    while let Some(cell) = pending.pop() {
        if let Err(fail) = take(p, module, info, reach, cell, &mut pending, &mut cells) {
            return Err(fail);
        }
    }
    cells.settle()?;
    Ok(cells)
}
