//! The regions of one module of a program.

ghost use Rattle.std.specs.Prelude.{◌≡◌, ◌<◌, ℤ, List, IfOk, IfErr};
ghost use Rattle.sot_lists.specs.Places.{At};
ghost use Rattle.sot_lang.specs.declared.tables.ModuleInfo.{ModuleInfo as AModule};
ghost use Rattle.sot_lang.specs.OwnerNames.{width_of};
ghost use Rattle.sot_invariant_atoms.specs.Asking.{MayAsk};
ghost use Rattle.sot_atoms.specs.Grids.{IsCut};
ghost use Rattle.sot_law_invariant_regions.specs.Following.{HasNoHeldRegion};
ghost use Rattle.sot_regions.specs.Shapes.{HasShape};
ghost use Rattle.sot_regions.specs.Grains.{IsUnitGrain, IsToldGrain, AreToldGrains};
ghost use Rattle.sot_regions.specs.Grains.{HasNoClosedSetAt};
ghost use Rattle.sot_regions.specs.declared.found.RegionsFail.TheVariants.{SafeNone};

use crate::asked::{narrowest_grid, regions_from};
use crate::found::{FoundRegions, RegionsFail};
use crate::narrowing::narrowed;
use sot_atoms::Grid;
use sot_box::Point;
use sot_invariant_atoms::{ModuleAsk, closed_atoms};
use sot_lang::Typed;
use sot_rta::module_at;
use std::alloc::Global;

// The grain of a side; the greatest number where it is longer.
fn grain_of(grid: &Grid, side: usize) -> i64
    requires { side < grid.now.width }
    ensures { IsToldGrain grid.now side result }
{
    i64::try_from(grid.grain(side)).unwrap_or(i64::MAX)
}

// The grain of each side.
fn grains(grid: &Grid) -> Point
    ensures told { AreToldGrains grid.now result }
    ensures cut { IsCut grid.now.width grid.now.last grid.now.axes }
{
    // A look at the axes brings how they are made.
    let _axes = grid.axes();
    let mut numbers = [0i64; 4];
    for side in 0..grid.width() {
        numbers[side] = grain_of(grid, side);
    }
    Point::of(&numbers[..grid.width()]).unwrap()
}

/// Regions and cells for a module of a program, inside its safe region, which is what must never be
/// left. `jitter` is how many ticks each node may be late.
pub fn regions_of(
    alloc: Global,
    p: &Typed,
    module: u32,
    jitter: u32,
) -> Result<FoundRegions, RegionsFail>
    requires { MayAsk p.now «module» jitter }
    ensures shape { IfOk result (λ found. (info : AModule) → At p.now.modules «module» info
        → HasShape (width_of p.now.plants info.plant) found) }
    ensures none { IfErr result (λ e. (grain : List ℤ) (info : AModule) → e ≡ SafeNone grain
        → IsUnitGrain grain → At p.now.modules «module» info
        → HasNoHeldRegion p.now jitter info) }
    ensures closed { IfErr result (λ e. (grain : List ℤ) (info : AModule) → e ≡ SafeNone grain
        → At p.now.modules «module» info → HasNoClosedSetAt p.now jitter info grain) }
{
    let given = &module_at(p, module).safe;
    let ask = ModuleAsk::of(p, module, jitter);
    let Some(hull) = given.hull() else {
        return Err(RegionsFail::TooMany);
    };
    let Some(narrowest) = narrowest_grid(&ask, &hull) else {
        return Err(RegionsFail::TooMany);
    };
    let set = closed_atoms(alloc, &ask, &narrowest)?;
    if set.next(0).is_none() {
        let grain = grains(&narrowest);
        return Err(RegionsFail::SafeNone { grain });
    }
    match regions_from(alloc, &ask, given, &narrowest, &set) {
        Err(RegionsFail::TooMany) => narrowed(alloc, &ask, given, &hull),
        first => first,
    }
}
