//! Whether a box may be a cell.

ghost use Rattle.std.specs.Prelude.{◌≡◌, length, false, true, MatchBool};
ghost use Rattle.sot_lists.specs.Places.{At};
ghost use Rattle.sot_box.specs.Sides.{AreOrdered};
ghost use Rattle.sot_lang.specs.OwnerNames.{width_of};
ghost use Rattle.sot_lang.specs.TableRules.{MeetsTableRules};
ghost use Rattle.sot_rta.specs.Cells.{MayHaveCells};
ghost use Rattle.sot_certify.specs.Made.{IsGood};

use sot_box::BoxN;
use sot_lang::{ModuleInfo, Typed};
use sot_rta::{check_closed_cell, check_reach_cell};

fn is_good_closed(p: &Typed, module: u32, info: &ModuleInfo, cell: &BoxN) -> bool
    requires is { At p.now.modules «module» info.now }
    requires rules { MeetsTableRules p.now }
    requires may { MayHaveCells p.now }
    requires width { length cell.now ≡ width_of p.now.plants info.now.plant }
    requires ordered { AreOrdered cell.now }
    ensures { MatchBool result (IsGood p.now info.now false cell.now)
        (¬ IsGood p.now info.now false cell.now) }
{
    match check_closed_cell(p, 0, module, info, 0, cell) {
        Ok(()) => true,
        Err(_) => false,
    }
}

fn is_good_reach(p: &Typed, module: u32, info: &ModuleInfo, cell: &BoxN) -> bool
    requires is { At p.now.modules «module» info.now }
    requires rules { MeetsTableRules p.now }
    requires may { MayHaveCells p.now }
    requires width { length cell.now ≡ width_of p.now.plants info.now.plant }
    ensures { MatchBool result (IsGood p.now info.now true cell.now)
        (¬ IsGood p.now info.now true cell.now) }
{
    match check_reach_cell(p, 0, module, info, 0, cell) {
        Ok(()) => true,
        Err(_) => false,
    }
}

/// Whether a box is good as a closed cell, or as a reach cell.
pub fn is_good(p: &Typed, module: u32, info: &ModuleInfo, reach: bool, cell: &BoxN) -> bool
    requires is { At p.now.modules «module» info.now }
    requires rules { MeetsTableRules p.now }
    requires may { MayHaveCells p.now }
    requires width { length cell.now ≡ width_of p.now.plants info.now.plant }
    ensures good { MatchBool result (IsGood p.now info.now reach cell.now)
        (¬ IsGood p.now info.now reach cell.now) }
    ensures ordered { AreOrdered cell.now }
{
    let _axes = cell.len();
    if reach {
        is_good_reach(p, module, info, cell)
    } else {
        is_good_closed(p, module, info, cell)
    }
}
