//! The boxes of a tube.

ghost use Rattle.std.specs.Prelude.{ℕ, List, ◌≡◌, ◌+◌, ◌<◌, ◌≤◌, length, drop, OnOk};
ghost use Rattle.sot_lists.specs.Places.{At, Has};
ghost use Rattle.sot_lang.specs.declared.tables.PlantInfo.{PlantInfo as Plant};
ghost use Rattle.sot_lang.specs.TableRules.{MeetsTableRules};
ghost use Rattle.sot_lang.specs.CertRules.{FitsTables};
ghost use Rattle.sot_tube.specs.Certified.{IsWellCertified};
ghost use Rattle.sot_iv.specs.PlantTicks.{MayTickBox};
ghost use Rattle.sot_law_runs.specs.Holds.{Guarded};
ghost use Rattle.sot_recover.specs.Tubes.{GoesOn, AreTubeBoxes, IsTubeOf};

use sot_box::{BoxN, Interval};
use sot_iv::{Ranges, iv_plant_over, put_front, put_plant_ranges, seen_hulls};
use sot_lang::{Cert, Typed};
use sot_rta::{held_commands, module_at, node_at, plant_at};
use std::alloc::AllocError;

// Replaces `boxes` by the first box and the box after each tick, with commands and the states of
// seen plants in these intervals.
fn put_boxes(
    p: &Typed,
    plant: u32,
    first: &BoxN,
    held: &[Interval],
    seen: &[Interval],
    ticks: u32,
    boxes: &mut Vec<BoxN>,
) -> Result<(), AllocError>
    requires rules { MeetsTableRules p.now }
    requires step { MayTickBox p.now plant first.now held.now seen.now }
    requires goes { (info : Plant) → At p.now.plants plant info
        → GoesOn info held.now seen.now first.now ticks }
    ensures { OnOk result ((info : Plant) → At p.now.plants plant info
        → AreTubeBoxes info held.now seen.now first.now ticks boxes.new.items) }
{
    boxes.clear();
    boxes.push(*first)?;
    let mut names = Ranges::none();
    let mut area = *first;
    put_plant_ranges(p, plant, first, held, seen, &mut names);
    for _tick in 0..ticks {
        let next = iv_plant_over(p, plant, &names).unwrap();
        put_front(&next, &mut names);
        boxes.push(next)?;
        area = next;
    }
    let _last = area;
    Ok(())
}

/// Replaces `boxes` by those of the tube of a closed cell, tick by tick, for the safe node's period
/// and the jitter.
pub(crate) fn put_tube(
    p: &Typed,
    cert: &Cert,
    module: u32,
    cell: &BoxN,
    boxes: &mut Vec<BoxN>,
) -> Result<(), AllocError>
    requires module_is { «module» < length p.now.modules }
    requires certified { IsWellCertified p.now cert.now.jitter cert.now }
    requires fits { FitsTables p.now cert.now }
    requires closed { (g : Guarded p.now cert.now «module») → Has g.cells.closed.boxes cell.now }
    ensures { OnOk result ((g : Guarded p.now cert.now «module»)
        → IsTubeOf g cell.now boxes.new.items) }
{
    let info = module_at(p, module);
    let plant = plant_at(p, info.plant);
    let sc = node_at(p, info.sc);
    let mut inline = [Interval { lo: 0, hi: 0 }; 8];
    let (held, _) = inline.split_at_mut(plant.inputs.len());
    held_commands(p, info, cell, held);
    let seen = seen_hulls(p, &plant.sees);
    let ticks = sc.period + cert.jitter;
    put_boxes(p, info.plant, cell, held, seen.as_slice(), ticks, boxes)?;
    Ok(())
}

/// The place of the first landing among the boxes of a tube.
pub(crate) fn first_landing(p: &Typed, cert: &Cert, module: u32) -> usize
    requires module_is { «module» < length p.now.modules }
    requires fits { FitsTables p.now cert.now }
    ensures { (g : Guarded p.now cert.now «module») → result + cert.now.jitter ≡ g.sc.period }
{
    let sc = node_at(p, module_at(p, module).sc);
    (sc.period - cert.jitter) as usize
}

/// The boxes of a tube from this place on.
pub(crate) fn boxes_from(boxes: &[BoxN], first: usize) -> &[BoxN]
    requires { first ≤ length boxes.now }
    ensures { result.now ≡ drop first boxes.now }
{
    &boxes[first..]
}
