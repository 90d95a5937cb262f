//! What is due at a time, and how long it is until a node fires.

ghost use Rattle.std.specs.Prelude.{◌≡◌, ℕ, ◌<◌, ◌≤◌, ◌⊎◌, ◌↔◌, true, false, length};
ghost use Rattle.std.specs.Prelude.{slice_index_or, IsTrue, IfOk};
ghost use Rattle.sot_lists.specs.Places.{At};
ghost use Rattle.sot_calendar.specs.Due.{IsDue};
ghost use Rattle.sot_guard.specs.Changes.{IsSafeNode};
ghost use Rattle.sot_guard.specs.HeldParts.{IsUntilFrom};
ghost use Rattle.sot_lang.specs.declared.tables.NodeInfo.{NodeInfo as Node};
ghost use Rattle.sot_lang.specs.declared.tables.ModuleInfo.{ModuleInfo as Module};

use crate::blank::no_flags;
use sot_lang::{ModuleInfo, NodeInfo};
use std::alloc::{AllocError, Global};

// Whether it is due at a time.
fn is_due(period: u32, offset: u32, time: u64) -> bool
    requires offset { offset < period }
    ensures { IsTrue result ↔ IsDue period offset time }
{
    let first = u64::from(offset);
    time >= first && (time - first) % u64::from(period) == 0
}

/// The ticks until it surely fires, where exactly what is due now is left: the jitter where it is
/// due now, and else the ticks until it is due next and the jitter.
pub(crate) fn ticks_until(period: u32, offset: u32, jitter: u32, time: u64) -> u32
    requires offset { offset < period }
    requires period { period ≤ 1000 }
    requires jitter { jitter < 1000 }
    ensures { IsUntilFrom jitter period offset time result }
{
    let first = u64::from(offset);
    if time < first {
        return (first - time) as u32 + jitter;
    }
    let past = ((time - first) % u64::from(period)) as u32;
    if past == 0 {
        jitter
    } else {
        period - past + jitter
    }
}

/// The nodes that are due at a time are left to fire, beside those that are left already.
pub(crate) fn leave_nodes(nodes: &[NodeInfo], time: u64, left: &mut [bool])
    requires periods { (n : ℕ) (node : Node) → At nodes.now n node
        → node.offset < node.period }
    requires size { length left.old ≡ length nodes.now }
    ensures left { (n : ℕ) (node : Node) → At nodes.now n node →
        (slice_index_or left.new n false ≡ true)
        ↔ ((slice_index_or left.old n false ≡ true) ⊎ IsDue node.period node.offset time) }
    ensures size { length left.new ≡ length left.old }
{
    for n in 0..nodes.len() {
        let info = &nodes[n];
        if is_due(info.period, info.offset, time) {
            left[n] = true;
        }
    }
}

/// The decisions that are due at a time are left to be made, beside those that are left already.
pub(crate) fn leave_decisions(modules: &[ModuleInfo], time: u64, left: &mut [bool])
    requires periods { (m : ℕ) (a : Module) → At modules.now m a
        → a.offset < a.period }
    requires size { length left.old ≡ length modules.now }
    ensures left { (m : ℕ) (a : Module) → At modules.now m a →
        (slice_index_or left.new m false ≡ true)
        ↔ ((slice_index_or left.old m false ≡ true) ⊎ IsDue a.period a.offset time) }
    ensures size { length left.new ≡ length left.old }
{
    for m in 0..modules.len() {
        let info = &modules[m];
        if is_due(info.period, info.offset, time) {
            left[m] = true;
        }
    }
}

/// The safe node of each module is left to fire, beside what is left already.
pub(crate) fn leave_safe_nodes(modules: &[ModuleInfo], left: &mut [bool])
    requires inside { (m : ℕ) (a : Module) → At modules.now m a → a.sc < length left.old }
    ensures left { (n : ℕ) → (slice_index_or left.new n false ≡ true)
        ↔ ((slice_index_or left.old n false ≡ true) ⊎ IsSafeNode modules.now n) }
    ensures size { length left.new ≡ length left.old }
{
    for m in 0..modules.len() {
        left[modules[m].sc as usize] = true;
    }
}

/// The nodes that are due at a time are left to fire, and no others.
pub(crate) fn leave_due_nodes(nodes: &[NodeInfo], time: u64, left: &mut [bool])
    requires periods { (n : ℕ) (node : Node) → At nodes.now n node → node.offset < node.period }
    requires size { length left.old ≡ length nodes.now }
    ensures left { (n : ℕ) (node : Node) → At nodes.now n node →
        (slice_index_or left.new n false ≡ true) ↔ IsDue node.period node.offset time }
    ensures size { length left.new ≡ length left.old }
{
    for n in 0..nodes.len() {
        let info = &nodes[n];
        left[n] = is_due(info.period, info.offset, time);
    }
}

/// The decisions that are due at a time are left to be made, and no others.
pub(crate) fn leave_due_decisions(modules: &[ModuleInfo], time: u64, left: &mut [bool])
    requires periods { (m : ℕ) (a : Module) → At modules.now m a → a.offset < a.period }
    requires size { length left.old ≡ length modules.now }
    ensures left { (m : ℕ) (a : Module) → At modules.now m a →
        (slice_index_or left.new m false ≡ true) ↔ IsDue a.period a.offset time }
    ensures size { length left.new ≡ length left.old }
{
    for m in 0..modules.len() {
        let info = &modules[m];
        left[m] = is_due(info.period, info.offset, time);
    }
}

/// Flags of the nodes that are due at a time.
pub(crate) fn nodes_due(
    alloc: Global,
    nodes: &[NodeInfo],
    time: u64,
) -> Result<Vec<bool>, AllocError>
    requires periods { (n : ℕ) (node : Node) → At nodes.now n node → node.offset < node.period }
    ensures left { IfOk result (λ v. (n : ℕ) (node : Node) → At nodes.now n node →
        (slice_index_or v.items n false ≡ true) ↔ IsDue node.period node.offset time) }
    ensures size { IfOk result (λ v. length v.items ≡ length nodes.now) }
{
    let mut left = no_flags(alloc, nodes)?;
    leave_due_nodes(nodes, time, &mut left);
    Ok(left)
}

/// Flags of the modules whose decisions are due at a time.
pub(crate) fn decisions_due(
    alloc: Global,
    modules: &[ModuleInfo],
    time: u64,
) -> Result<Vec<bool>, AllocError>
    requires periods { (m : ℕ) (a : Module) → At modules.now m a → a.offset < a.period }
    ensures left { IfOk result (λ v. (m : ℕ) (a : Module) → At modules.now m a →
        (slice_index_or v.items m false ≡ true) ↔ IsDue a.period a.offset time) }
    ensures size { IfOk result (λ v. length v.items ≡ length modules.now) }
{
    let mut left = vec![in alloc; false; modules.len()]?;
    leave_due_decisions(modules, time, &mut left);
    Ok(left)
}
