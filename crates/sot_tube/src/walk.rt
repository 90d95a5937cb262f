//! A tube, followed box by box.

ghost use Rattle.std.specs.Prelude.{◌≡◌, ◌<◌, true, length, MatchResult};
ghost use Rattle.sot_lang.specs.declared.tables.PlantInfo.{PlantInfo};
ghost use Rattle.sot_lists.specs.Places.{At};
ghost use Rattle.sot_iv.specs.PlantTicks.{MayTickBox};
ghost use Rattle.sot_lang.specs.TableRules.{MeetsTableRules};
ghost use Rattle.sot_tube.specs.Tubes.{StaysInside};
ghost use Rattle.sot_tube.specs.Leaves.{Leaves};

use crate::cover::is_covered_with;
use crate::leave::Leave;
use sot_box::{BoxN, Interval, Region};
use sot_iv::{Ranges, iv_plant_over, put_front, put_plant_ranges};
use sot_lang::Typed;

/// Follows the tube of a plant, with commands and the states of seen plants in these intervals.
pub(crate) fn walk(
    p: &Typed,
    plant: u32,
    region: &Region,
    b: &BoxN,
    held: &[Interval],
    seen: &[Interval],
    ticks: u32,
) -> Result<(), Leave>
    requires rules { MeetsTableRules p.now }
    requires step { MayTickBox p.now plant b.now held.now seen.now }
    requires width { length b.now ≡ region.now.width }
    ensures { (info : PlantInfo) → At p.now.plants plant info → MatchResult result
        (λ _. StaysInside info held.now seen.now region.now.boxes b.now ticks)
        (λ leave. Leaves info held.now seen.now region.now.boxes b.now 0 ticks leave) }
{
    if stays(p, plant, region, b, held, seen, ticks) {
        Ok(())
    } else {
        test_each(p, plant, region, b, held, seen, ticks)
    }
}

// Whether it is seen that the tube stays inside. Most tubes grow: where a box lies in the next one,
// that one alone is tested.
fn stays(
    p: &Typed,
    plant: u32,
    region: &Region,
    b: &BoxN,
    held: &[Interval],
    seen: &[Interval],
    ticks: u32,
) -> bool
    requires rules { MeetsTableRules p.now }
    requires step { MayTickBox p.now plant b.now held.now seen.now }
    requires width { length b.now ≡ region.now.width }
    ensures { result ≡ true → (info : PlantInfo) → At p.now.plants plant info
        → StaysInside info held.now seen.now region.now.boxes b.now ticks }
{
    let mut area = *b;
    let mut names = Ranges::none();
    put_plant_ranges(p, plant, b, held, seen, &mut names);
    for _tick in 0..ticks {
        let Ok(next) = iv_plant_over(p, plant, &names) else {
            return false;
        };
        if !is_covered_with(region, &area, &next) {
            return false;
        }
        put_front(&next, &mut names);
        area = next;
    }
    region.covers(&area)
}

// Tests each box of the tube, so that it tells how the tube first leaves.
fn test_each(
    p: &Typed,
    plant: u32,
    region: &Region,
    b: &BoxN,
    held: &[Interval],
    seen: &[Interval],
    ticks: u32,
) -> Result<(), Leave>
    requires rules { MeetsTableRules p.now }
    requires step { MayTickBox p.now plant b.now held.now seen.now }
    requires width { length b.now ≡ region.now.width }
    ensures { (info : PlantInfo) → At p.now.plants plant info → MatchResult result
        (λ _. StaysInside info held.now seen.now region.now.boxes b.now ticks)
        (λ leave. Leaves info held.now seen.now region.now.boxes b.now 0 ticks leave) }
{
    let mut area = *b;
    let mut names = Ranges::none();
    put_plant_ranges(p, plant, b, held, seen, &mut names);
    for tick in 0..ticks {
        if let Some(point) = region.gap(&area) {
            return Err(Leave::Out { tick, area, point });
        }
        match iv_plant_over(p, plant, &names) {
            Ok(next) => {
                put_front(&next, &mut names);
                area = next;
            }
            Err(trap) => return Err(Leave::Trap { tick, at: trap.at }),
        }
    }
    match region.gap(&area) {
        Some(point) => Err(Leave::Out {
            tick: ticks,
            area,
            point,
        }),
        None => Ok(()),
    }
}
