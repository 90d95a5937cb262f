//! What is looked at before regions are searched.

ghost use Rattle.std.specs.Prelude.{◌↔◌, IsTrue};
ghost use Rattle.sot_lang.specs.TableRules.{MeetsTableRules};
ghost use Rattle.sot_rta.specs.Refused.{Answers};
ghost use Rattle.sot_regions_program.specs.AsAsked.{IsNodeLate, IsModuleLate, IsLate, as_asked};

use sot_compose::{LookedAt, check_without_cells};
use sot_lang::Typed;
use sot_rta::{Refusal, module_at, node_at};

#[tactic(auto, using(crate::proofs::Late::node_late, crate::proofs::Late::no_node_late))]
fn is_node_late(p: &Typed, jitter: u32) -> bool
    requires rules { MeetsTableRules p.now }
    ensures { IsTrue result ↔ IsNodeLate p.now jitter }
{
    for node in 0..p.nodes.len() as u32 {
        if node_at(p, node).period <= jitter {
            return true;
        }
    }
    false
}

#[tactic(auto, using(crate::proofs::Late::module_late, crate::proofs::Late::no_module_late))]
fn is_module_late(p: &Typed, jitter: u32) -> bool
    requires rules { MeetsTableRules p.now }
    ensures { IsTrue result ↔ IsModuleLate p.now jitter }
{
    for module in 0..p.modules.len() as u32 {
        if module_at(p, module).period <= jitter {
            return true;
        }
    }
    false
}

/// Whether a jitter is not below the period of some node or module.
#[tactic(auto, using(crate::proofs::Late::either_late))]
pub fn is_late(p: &Typed, jitter: u32) -> bool
    requires rules { MeetsTableRules p.now }
    ensures { IsTrue result ↔ IsLate p.now jitter }
{
    let node = is_node_late(p, jitter);
    let module = is_module_late(p, jitter);
    node || module
}

/// The first condition that fails of a program, of those that speak of no cells, with `safer` read
/// as `safe`.
pub fn check_as_asked(p: &Typed) -> Result<(), Refusal>
    requires rules { MeetsTableRules p.now }
    ensures { Answers (as_asked p.now) result }
{
    check_without_cells(p, LookedAt::SafeAlone)
}
