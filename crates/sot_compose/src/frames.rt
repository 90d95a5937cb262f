//! The conditions that speak of no cells.

ghost use Rattle.std.specs.Prelude.{◌≡◌};
ghost use Rattle.sot_lists.specs.Places.{At};
ghost use Rattle.sot_lang.specs.TableRules.{MeetsTableRules};
ghost use Rattle.sot_tube.specs.Checks.{for_each};
ghost use Rattle.sot_tube.specs.Verdict.{boxes};
ghost use Rattle.sot_rta.specs.Refused.{Answers};
ghost use Rattle.sot_compose.specs.Frames.{seen_with, frame, without_cells};

use crate::check::check_codes;
use crate::composition::check_composition;
use crate::looked::LookedAt;
use sot_lang::{ModuleInfo, Typed};
use sot_rta::{Refusal, check_nodes, check_regions, module_at};

fn check_safe(module: u32, info: &ModuleInfo) -> Result<(), Refusal>
    ensures { Answers (boxes «module» (seen_with LookedAt.SafeAlone info.now)) result }
{
    if info.safe.len() == 0 {
        return Err(Refusal::EmptyRegion {
            module,
            safer: false,
        });
    }
    Ok(())
}

// Whether the regions that are looked at have a box.
fn check_boxes(module: u32, info: &ModuleInfo, looked: LookedAt) -> Result<(), Refusal>
    ensures { Answers (boxes «module» (seen_with looked info.now)) result }
{
    match looked {
        LookedAt::BothRegions => check_regions(module, info),
        LookedAt::SafeAlone => check_safe(module, info),
    }
}

fn check_frame(p: &Typed, module: u32, info: &ModuleInfo, looked: LookedAt) -> Result<(), Refusal>
    requires is { At p.now.modules «module» info.now }
    requires rules { MeetsTableRules p.now }
    ensures { Answers (frame looked p.now «module» info.now) result }
{
    if let Err(refusal) = check_nodes(p, module) {
        return Err(refusal);
    }
    check_boxes(module, info, looked)
}

fn check_frames(p: &Typed, looked: LookedAt) -> Result<(), Refusal>
    requires rules { MeetsTableRules p.now }
    ensures { Answers (for_each p.now.modules (frame looked p.now)) result }
{
    for module in 0..p.modules.len() as u32 {
        if let Err(refusal) = check_frame(p, module, module_at(p, module), looked) {
            return Err(refusal);
        }
    }
    Ok(())
}

/// The first condition that fails, of those that speak of no cells: how modules are put together,
/// then the shape of each, of whose regions these are looked at, then each coded node. Takes no
/// memory.
pub fn check_without_cells(p: &Typed, looked: LookedAt) -> Result<(), Refusal>
    requires rules { MeetsTableRules p.now }
    ensures { Answers (without_cells looked p.now) result }
{
    if let Err(refusal) = check_composition(p) {
        return Err(refusal);
    }
    if let Err(refusal) = check_frames(p, looked) {
        return Err(refusal);
    }
    check_codes(p)
}
