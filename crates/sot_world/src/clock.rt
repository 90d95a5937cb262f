//! When what may be late was due, and when its deadline is.

ghost use Rattle.std.specs.Prelude.{◌≡◌, ℕ, ◌<◌, ◌≤◌, length, IsTrue, ◌↔◌};
ghost use Rattle.sot_lists.specs.Places.{At};
ghost use Rattle.sot_calendar.specs.Due.{IsDueWithin, IsDeadline};
ghost use Rattle.sot_lang.specs.declared.tables.NodeInfo.{NodeInfo as Node};
ghost use Rattle.sot_lang.specs.declared.tables.ModuleInfo.{ModuleInfo as Module};
ghost use Rattle.sot_world.specs.Deadlines.{NoNodeAtDeadline, NoDecisionAtDeadline};

use sot_calendar::{due, next_due};
use sot_lang::{ModuleInfo, NodeInfo};

/// Whether something was due at `t`, or at most `jitter` ticks before.
pub fn due_within(jitter: u32, period: u32, offset: u32, t: u32) -> bool
    requires offset { offset < period }
    requires period { period ≤ 1000 }
    requires time { t ≤ 100000 }
    ensures { IsTrue result ↔ IsDueWithin jitter period offset t }
{
    next_due(period, offset, t.saturating_sub(jitter)) <= t
}

/// Whether what was due last has its deadline at `t`.
pub fn at_deadline(jitter: u32, period: u32, offset: u32, t: u32) -> bool
    requires jitter { jitter < period }
    requires offset { offset < period }
    requires period { period ≤ 1000 }
    requires time { t ≤ 100000 }
    ensures { IsTrue result ↔ IsDeadline jitter period offset t }
{
    t >= jitter && due(period, offset, t - jitter)
}

/// Whether no node that is left to fire has its deadline at a time.
pub fn no_node_at_deadline(jitter: u32, nodes: &[NodeInfo], left: &[bool], time: u32) -> bool
    requires periods { (n : ℕ) (node : Node) → At nodes.now n node
        → (jitter < node.period) × (node.offset < node.period) × (node.period ≤ 1000) }
    requires time { time ≤ 100000 }
    requires size { length left.now ≡ length nodes.now }
    ensures { IsTrue result ↔ NoNodeAtDeadline jitter nodes.now left.now time }
{
    for n in 0..nodes.len() {
        let info = &nodes[n];
        if left[n] && at_deadline(jitter, info.period, info.offset, time) {
            return false;
        }
    }
    true
}

/// Whether no decision that is left to be made has its deadline at a time.
pub fn no_decision_at_deadline(
    jitter: u32,
    modules: &[ModuleInfo],
    left: &[bool],
    time: u32,
) -> bool
    requires periods { (m : ℕ) (a : Module) → At modules.now m a
        → (jitter < a.period) × (a.offset < a.period) × (a.period ≤ 1000) }
    requires time { time ≤ 100000 }
    requires size { length left.now ≡ length modules.now }
    ensures { IsTrue result ↔ NoDecisionAtDeadline jitter modules.now left.now time }
{
    for m in 0..modules.len() {
        let info = &modules[m];
        if left[m] && at_deadline(jitter, info.period, info.offset, time) {
            return false;
        }
    }
    true
}
