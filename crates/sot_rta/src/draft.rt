//! What a safe node drafts with its plant in a cell.

ghost use Rattle.std.specs.Prelude.{ℕ, ◌≡◌, ◌<◌, ◌≤◌, List, [], length, map, slice_set};
ghost use Rattle.sot_box.specs.Sides.{Side};
ghost use Rattle.sot_lists.specs.Places.{At};
ghost use Rattle.sot_lang.specs.declared.act.Act.{Act};
ghost use Rattle.sot_lang.specs.declared.tables.Slot.{Slot as Read};
ghost use Rattle.sot_lang.specs.OwnerNames.{width_of};
ghost use Rattle.sot_lang.specs.SafeRegions.{AllHulls};
ghost use Rattle.sot_lang.specs.TableRules.{MeetsTableRules, IsCoded};
ghost use Rattle.sot_iv.specs.NodeIntervals.{interval_at, IsNodeExecution};
ghost use Rattle.sot_iv.specs.NodeFirings.{drafts_of};
ghost use Rattle.sot_traps.specs.Readings.{CanBeRead};
ghost use Rattle.sot_traps.specs.Verdict.{HaveSafeBoxes};
ghost use Rattle.sot_rta.specs.Drafts.{IsCellReading, AreCellReadings, IsCellDraft};

use sot_box::{BoxN, Interval};
use sot_iv::{IvDraft, MayTrap, Ranges, iv_node, put_locals};
use sot_lang::{ModuleInfo, NodeInfo, Slot, Typed};
use sot_traps::slot_side;

// The interval of what a slot shows, with one plant in a cell.
fn cell_side(p: &Typed, slot: Slot, plant: u32, cell: &BoxN) -> Interval
    requires readable { CanBeRead p.now slot }
    requires rules { MeetsTableRules p.now }
    requires there { plant < length p.now.plants }
    requires width { length cell.now ≡ width_of p.now.plants plant }
    ensures { IsCellReading p.now plant cell.now slot result }
{
    match slot {
        Slot::Scalar(_) => slot_side(p, slot),
        Slot::State { plant: other, var } => {
            if other == plant {
                cell.side(var as usize)
            } else {
                slot_side(p, slot)
            }
        }
    }
}

// The intervals of what some slots show, with one plant in a cell, in an empty list.
fn put_cell_readings(p: &Typed, slots: &[Slot], plant: u32, cell: &BoxN, sides: &mut Ranges)
    requires few { length slots.now ≤ 64 }
    requires readable { (k : ℕ) (s : Read) → At slots.now k s → CanBeRead p.now s }
    requires rules { MeetsTableRules p.now }
    requires there { plant < length p.now.plants }
    requires width { length cell.now ≡ width_of p.now.plants plant }
    requires empty { sides.old ≡ [] }
    ensures { AreCellReadings p.now plant cell.now slots.now sides.new }
{
    for slot in slots {
        let side = cell_side(p, *slot, plant, cell);
        sides.push(side);
    }
}

/// What the safe node of a module drafts with its plant in a cell, the other plants anywhere in the
/// hulls of their safe regions.
pub fn cell_draft(
    p: &Typed,
    info: &ModuleInfo,
    sc: &NodeInfo,
    cell: &BoxN,
) -> Result<IvDraft, MayTrap>
    requires rules { MeetsTableRules p.now }
    requires boxes { HaveSafeBoxes p.now }
    requires node { At p.now.nodes info.now.sc sc.now }
    requires coded { (acts : List Act) × IsCoded sc.now acts }
    requires there { info.now.plant < length p.now.plants }
    requires width { length cell.now ≡ width_of p.now.plants info.now.plant }
    ensures { IsCellDraft p.now info.now.plant cell.now sc.now result }
{
    let mut ranges = Ranges::none();
    put_cell_readings(p, &sc.reads, info.plant, cell, &mut ranges);
    put_locals(&sc.locals, &mut ranges);
    iv_node(p, info.sc, &ranges)
}
