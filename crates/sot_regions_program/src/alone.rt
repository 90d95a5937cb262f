//! Whether another plant concerns a module.

ghost use Rattle.std.specs.Prelude.{◌≡◌, ◌<◌, ◌↔◌, ℕ, length, IsTrue};
ghost use Rattle.sot_lists.specs.Places.{At};
ghost use Rattle.sot_lang.specs.declared.tables.ModuleInfo.{ModuleInfo as Info};
ghost use Rattle.sot_lang.specs.declared.tables.Slot.TheVariants.{State};
ghost use Rattle.sot_lang.specs.TableRules.{MeetsTableRules};
ghost use Rattle.sot_law_invariant_regions.specs.Alone.{IsAlone};
ghost use Rattle.sot_regions_program.specs.Answers.{IsAloneAt};

use sot_lang::{Slot, Typed};
use sot_rta::{module_at, node_at, plant_at};

// Whether a number that a node reads is no state of another plant.
fn is_own(slot: Slot, plant: u32) -> bool
    ensures { IsTrue result ↔ ((k v : ℕ) → slot ≡ State k v → k ≡ plant) }
{
    match slot {
        Slot::State { plant: other, .. } => other == plant,
        Slot::Scalar(_) => true,
    }
}

// Whether all states among these slots are those of one plant.
#[tactic(auto, using(crate::proofs::Own::one_other, crate::proofs::Own::no_other))]
fn are_own(reads: &[Slot], plant: u32) -> bool
    ensures { IsTrue result ↔ ((i k v : ℕ) → At reads.now i (State k v) → k ≡ plant) }
{
    for i in 0..reads.len() {
        if !is_own(reads[i], plant) {
            return false;
        }
    }
    true
}

/// Whether no other plant concerns a module: its plant sees none, and its safe node reads none.
#[tactic(auto, using(sot_rta::proofs::Found::plant_there, sot_rta::proofs::Found::sc_there))]
pub fn is_alone(p: &Typed, module: u32) -> bool
    requires there { «module» < length p.now.modules }
    requires rules { MeetsTableRules p.now }
    ensures yes { IsTrue result → IsAloneAt p.now «module» }
    ensures no { (a : Info) → At p.now.modules «module» a → IsAlone p.now a → IsTrue result }
{
    let info = module_at(p, module);
    if plant_at(p, info.plant).sees.len() > 0 {
        return false;
    }
    are_own(&node_at(p, info.sc).reads, info.plant)
}
