//! When nodes and decisions are due next, so that a tick has nothing to work out for what is not
//! due.

ghost use Rattle.std.specs.Prelude.{◌≡◌, ℕ, ◌≤◌, ◌⊎◌, true, false, length, map, slice_index_or};
ghost use Rattle.std.specs.Prelude.{IsTrue, ◌↔◌, IfOk};
ghost use Rattle.sot_lists.specs.Places.{At};
ghost use Rattle.sot_world.specs.Schedules.{first, after};

use sot_lang::{ModuleInfo, NodeInfo};
use std::alloc::{AllocError, Global};

/// When something is due next, and how long until it is due again.
#[derive(Clone, Copy)]
pub(crate) struct Schedule {
    next: u32,
    period: u32,
}

// When something is due for the first time after 0.
fn first(period: u32, offset: u32) -> Schedule
    ensures { result ≡ first period offset }
{
    let next = if offset == 0 { period } else { offset };
    Schedule { next, period }
}

/// When each node is due for the first time after 0.
pub(crate) fn node_schedules(alloc: Global, nodes: &[NodeInfo]) -> Result<Vec<Schedule>, AllocError>
    ensures { IfOk result (λ v. v.items ≡ map (λ k. first k.period k.offset) nodes.now) }
{
    let mut schedules = Vec::with_capacity(alloc, nodes.len())?;
    for info in nodes {
        schedules.push(first(info.period, info.offset))?;
    }
    Ok(schedules)
}

/// When each module's decision is due for the first time after 0.
pub(crate) fn decision_schedules(
    alloc: Global,
    modules: &[ModuleInfo],
) -> Result<Vec<Schedule>, AllocError>
    ensures { IfOk result (λ v. v.items ≡ map (λ k. first k.period k.offset) modules.now) }
{
    let mut schedules = Vec::with_capacity(alloc, modules.len())?;
    for info in modules {
        schedules.push(first(info.period, info.offset))?;
    }
    Ok(schedules)
}

// Whether something is due at a time. If so it is due next a period later.
fn falls_due(schedule: &mut Schedule, time: u32) -> bool
    requires period { schedule.old.period ≤ 1000 }
    requires time { time ≤ 100000 }
    ensures due { IsTrue result ↔ (schedule.old.next ≡ time) }
    ensures after { schedule.new ≡ after time schedule.old }
{
    if schedule.next != time {
        return false;
    }
    schedule.next = time + schedule.period;
    true
}

/// What is due at a time is left, beside what is left already, and is due next a period later.
pub(crate) fn leave(time: u32, schedules: &mut [Schedule], left: &mut [bool])
    requires time { time ≤ 100000 }
    requires periods { (k : ℕ) (s : _) → At schedules.old k s → s.period ≤ 1000 }
    requires size { length left.old ≡ length schedules.old }
    ensures left { (k : ℕ) (s : _) → At schedules.old k s →
        (slice_index_or left.new k false ≡ true)
        ↔ ((slice_index_or left.old k false ≡ true) ⊎ (s.next ≡ time)) }
    ensures after { schedules.new ≡ map (after time) schedules.old }
{
    for k in 0..schedules.len() {
        if falls_due(&mut schedules[k], time) {
            left[k] = true;
        }
    }
}
