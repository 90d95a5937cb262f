//! All that is left in an instant.

ghost use Rattle.std.specs.Prelude.{◌≡◌, ◌+◌, ◌<◌, ◌≤◌, ◌∷◌, ◌++◌, [], true, length, vec_len};
ghost use Rattle.std.specs.Prelude.{vec_capacity};
ghost use Rattle.sot_world.specs.Configurations.{is_left};
ghost use Rattle.sot_world.specs.Calendar.{NothingLeft};
ghost use Rattle.sot_guard.specs.Instants.{AreTold, AreInOrder, FiresNode};
ghost use Rattle.sot_guard.specs.InstantParts.{HasDecided, HasFired};

use crate::guard::Guard;
use crate::told::Told;
use sot_lang::Draft;
use sot_world::{Firing, is_coded};

// Tells one thing more, for which there is room.
fn add(told: &mut Vec<Told>, more: Told)
    requires { vec_len told.old < vec_capacity told.old }
    ensures items { told.new.items ≡ told.old.items ++ more ∷ [] }
    ensures len { vec_len told.new ≡ vec_len told.old + 1 }
    ensures room { vec_capacity told.old ≤ vec_capacity told.new }
{
    let _ = told.push(more);
}

// The modules that are left to decide do so, in declared order.
fn decide_all(guard: &mut Guard<'_>, told: &mut Vec<Told>)
    requires room { vec_len told.old + length guard.old.accepted.program.modules
        ≤ vec_capacity told.old }
    ensures decided { HasDecided guard.old guard.new told.old.items told.new.items
        (length guard.old.accepted.program.modules) }
    ensures accepted { guard.new.accepted ≡ guard.old.accepted }
    ensures trusted { guard.new.trusted ≡ guard.old.trusted }
    ensures len { vec_len told.new ≤ vec_len told.old + length guard.old.accepted.program.modules }
    ensures room { vec_capacity told.old ≤ vec_capacity told.new }
{
    let count = guard.typed().modules.len() as u32;
    for module in 0..count {
        if guard.left_dm(module) {
            let mode = guard.decide(module);
            add(told, Told::Decided { module, mode });
        }
    }
}

// A node, which is left, fires: by its body, or with this draft where it is external.
fn fire(guard: &mut Guard<'_>, node: u32, draft: &Draft) -> Firing
    requires there { node < length guard.old.accepted.program.nodes }
    requires left { is_left guard.old.at node ≡ true }
    ensures fires { FiresNode guard.old.trusted guard.old.accepted.program node draft.now
        guard.old.at guard.new.at result }
    ensures accepted { guard.new.accepted ≡ guard.old.accepted }
    ensures trusted { guard.new.trusted ≡ guard.old.trusted }
{
    if is_coded(guard.typed(), node) {
        guard.fire_code(node)
    } else {
        guard.fire_guest(node, draft)
    }
}

// The nodes that are left to fire do so, in declared order.
fn fire_all(guard: &mut Guard<'_>, drafts: &[Draft], told: &mut Vec<Told>)
    requires drafts { length drafts.now ≡ length guard.old.accepted.program.nodes }
    requires room { vec_len told.old + length guard.old.accepted.program.nodes
        ≤ vec_capacity told.old }
    ensures fired { HasFired guard.old guard.new drafts.now told.old.items told.new.items
        (length guard.old.accepted.program.nodes) }
    ensures accepted { guard.new.accepted ≡ guard.old.accepted }
    ensures trusted { guard.new.trusted ≡ guard.old.trusted }
    ensures room { vec_capacity told.old ≤ vec_capacity told.new }
{
    let count = guard.typed().nodes.len() as u32;
    for node in 0..count {
        if guard.left(node) {
            let firing = fire(guard, node, &drafts[node as usize]);
            add(told, Told::Fired { node, firing });
        }
    }
}

/// All that is left in this instant: the decisions, and then the firings, each in declared order.
/// An external node fires with its draft, of which there is one for each node, blank where nothing
/// was drafted. All of it is told, in place of what was told before, and in room that was taken
/// before.
pub fn go(guard: &mut Guard<'_>, drafts: &[Draft], told: &mut Vec<Told>)
    requires drafts { length drafts.now ≡ length guard.old.accepted.program.nodes }
    requires room { length guard.old.accepted.program.modules
        + length guard.old.accepted.program.nodes ≤ vec_capacity told.old }
    ensures happened { AreTold guard.old.trusted guard.old.accepted.program
        guard.old.accepted.cert.jitter drafts.now guard.old.at told.new.items guard.new.at }
    ensures order { AreInOrder guard.old.accepted.program told.new.items }
    ensures settled { NothingLeft guard.old.accepted.program guard.new.at }
    ensures time { guard.new.at.time ≡ guard.old.at.time }
    ensures points { guard.new.at.points ≡ guard.old.at.points }
    ensures accepted { guard.new.accepted ≡ guard.old.accepted }
    ensures trusted { guard.new.trusted ≡ guard.old.trusted }
    ensures room { vec_capacity told.old ≤ vec_capacity told.new }
{
    told.clear();
    decide_all(guard, told);
    fire_all(guard, drafts, told);
}
