//! The held tube and the tube of any commands, beside a set of atoms.

ghost use Rattle.std.specs.Prelude.{◌≡◌, List, length};
ghost use Rattle.sot_box.specs.Sides.{Side};
ghost use Rattle.sot_iv.specs.Monotony.{AreNarrower};
ghost use Rattle.sot_invariant_atoms.specs.Asking.{asked_width};
ghost use Rattle.sot_law_invariant_regions.specs.Following.{HeldStays};
ghost use Rattle.sot_invariant_atoms.specs.Greatest.{IsAmong};
ghost use Rattle.sot_invariant_atoms.specs.declared.tube.TubeInAtoms.TheVariants.{Leaves, Apart};

use crate::ask::ModuleAsk;
use crate::tube::{TubeInAtoms, follow};
use crate::walk::Walk;
use sot_atoms::{AtomSet, Grid};
use sot_box::BoxN;

/// How the held tube of a box lies to a set of atoms: with what the safe node surely drafts there,
/// for the node's period and the jitter. Takes no memory.
pub fn held_tube(ask: &ModuleAsk<'_>, area: &BoxN, grid: &Grid, set: &AtomSet) -> TubeInAtoms
    requires width { length area.now ≡ asked_width ask.now }
    requires grid { grid.now.width ≡ asked_width ask.now }
    ensures leaves { result ≡ Leaves → HeldStays (IsAmong grid.now set.now) ask.now.program
        ask.now.jitter ask.now.info area.now → ⊥ }
    ensures apart { result ≡ Apart → (box : List Side) → AreNarrower box area.now
        → HeldStays (IsAmong grid.now set.now) ask.now.program ask.now.jitter ask.now.info box
        → ⊥ }
{
    match Walk::held(ask, area) {
        None => TubeInAtoms::Leaves,
        Some(mut walk) => follow(&mut walk, grid, set),
    }
}
