//! Whether a coded node never traps.

ghost use Rattle.sot_traps.specs.Verdict.{IsCodedNode, HaveSafeBoxes, IsTrapVerdict};

use crate::readings::readings;
use sot_iv::{MayTrap, iv_node, put_locals};
use sot_lang::Typed;

/// Whether a coded node never traps while topics and locals are in their declared ranges and plants
/// in the hulls of their safe regions, each of which has a box; else the first operands or target
/// of which some trap. Takes no memory.
pub fn trap_free(p: &Typed, node: u32) -> Result<(), MayTrap>
    requires boxes { HaveSafeBoxes p.now }
    requires coded { IsCodedNode p.now node }
    ensures { IsTrapVerdict p.now node result }
{
    let info = &p.nodes[node as usize];
    let mut ranges = readings(p, &info.reads);
    put_locals(&info.locals, &mut ranges);
    iv_node(p, node, &ranges)?;
    Ok(())
}
