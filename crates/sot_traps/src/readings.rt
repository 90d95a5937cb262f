//! The intervals of what a node reads.

ghost use Rattle.std.specs.Prelude.{ℕ, ◌≤◌, ◌<◌, [], ◌≢◌, length};
ghost use Rattle.sot_lists.specs.Places.{At, Has};
ghost use Rattle.sot_lang.specs.OwnerNames.{width_of};
ghost use Rattle.sot_lang.specs.SafeRegions.{safe_of};
ghost use Rattle.sot_lang.specs.declared.tables.Slot.{Slot as Read};
ghost use Rattle.sot_traps.specs.Readings.{IsHullSide, IsReading, AreReadings, CanBeRead};

use sot_box::Interval;
use sot_iv::{Ranges, safe_hull, scalar_side};
use sot_lang::{Slot, Typed};

// The side of the hull of a plant's safe region on the axis of one state variable.
fn state_side(p: &Typed, plant: u32, var: u32) -> Interval
    requires boxes { safe_of p.now.modules plant ≢ [] }
    requires inside { var < width_of p.now.plants plant }
    ensures { IsHullSide p.now plant var result }
{
    let hull = safe_hull(p, plant).unwrap();
    hull.side(var as usize)
}

/// The interval of what a slot shows: a topic's scalar anywhere in its range, a plant anywhere in
/// the hull of its safe region.
pub fn slot_side(p: &Typed, slot: Slot) -> Interval
    requires { CanBeRead p.now slot }
    ensures { IsReading p.now slot result }
{
    match slot {
        Slot::Scalar(scalar) => scalar_side(p, scalar),
        Slot::State { plant, var } => state_side(p, plant, var),
    }
}

/// The intervals of what some slots show, in order.
pub(crate) fn readings(p: &Typed, slots: &[Slot]) -> Ranges
    requires few { length slots.now ≤ 64 }
    requires readable { (k : ℕ) (s : Read) → At slots.now k s → CanBeRead p.now s }
    ensures { AreReadings p.now slots.now result }
{
    let mut sides = Ranges::none();
    for slot in slots {
        let side = slot_side(p, *slot);
        sides.push(side);
    }
    sides
}
