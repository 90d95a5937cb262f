//! A turn that is taken.

ghost use Rattle.std.specs.Prelude.{◌≡◌, Some};
ghost use Rattle.sot_turn.specs.Prefixes.{IsPrefix};
ghost use Rattle.sot_turn.specs.Passes.{lock_of, pass_lock, pass_ground, pass_seen, pass_added};
ghost use Rattle.sot_turn.specs.Passes.{held_lock, held_ground, held_seen, held_added, held_value};
ghost use Rattle.sot_board.specs.Versions.{drafts_of};
ghost use Rattle.sot_ordered_board.specs.Turns.{FiresNext};
ghost use Rattle.sot_fly_worker.specs.Holds.{HasNode};

use crate::bells::Bells;
use crate::order::is_next;
use sot_lang::Draft;
use sot_ordered_board::OrderedBoard;
use sot_turn::{Held, Pass, Turn};
use std::sync::Wait;
use std::thread;

/// Waits without end.
pub fn stop<R: Wait>(rt: &R)
    ensures { ⊥ }
{
    for _ in rt.forever() {
        thread::yield_now();
    }
    unreachable!()
}

/// Takes the turn. Where the node has not fired as often as there are drafts, it gives the turn
/// back and waits without end.
pub(crate) fn take_in_step<'t, 'a, R: Wait>(
    rt: &R,
    turn: &'t Turn<OrderedBoard<'a>>,
    pass: Pass<OrderedBoard<'a>>,
    node: u32,
    drafts: &Vec<Draft>,
) -> Held<'t, OrderedBoard<'a>>
    requires lock { pass_lock pass ≡ lock_of turn.now }
    requires there { HasNode (pass_ground pass) node }
    requires drafts { drafts.now.items ≡ drafts_of node (pass_seen pass) }
    ensures lock { held_lock result ≡ pass_lock pass.entry }
    ensures ground { held_ground result ≡ pass_ground pass.entry }
    ensures ground_now { pass_ground pass.entry
        ≡ Some ((held_value result).accepted, (held_value result).plan) }
    ensures seen { held_seen result ≡ (held_value result).entries }
    ensures goes_on { IsPrefix (pass_seen pass.entry) (held_value result).entries }
    ensures added { held_added result ≡ pass_added pass.entry }
    ensures in_step { drafts_of node (held_value result).entries ≡ drafts.now.items }
{
    let mut held = turn.take(rt, pass);
    let fired = held.lend().fired(node);
    if fired as usize != drafts.len() {
        // Kept to the end that never comes, since to let a pass go is dear to prove.
        let _pass = turn.give(held);
        stop(rt);
        unreachable!()
    }
    held
}

/// Takes the turn once the node, which no guest flies, is the one that fires next. Where it is not,
/// it gives the turn back and parks.
pub(crate) fn take_next<'t, 'a, R: Wait>(
    rt: &R,
    turn: &'t Turn<OrderedBoard<'a>>,
    bells: &Bells,
    pass: Pass<OrderedBoard<'a>>,
    node: u32,
    drafts: &Vec<Draft>,
) -> Held<'t, OrderedBoard<'a>>
    requires lock { pass_lock pass ≡ lock_of turn.now }
    requires there { HasNode (pass_ground pass) node }
    requires drafts { drafts.now.items ≡ drafts_of node (pass_seen pass) }
    ensures lock { held_lock result ≡ pass_lock pass.entry }
    ensures ground { held_ground result ≡ pass_ground pass.entry }
    ensures ground_now { pass_ground pass.entry
        ≡ Some ((held_value result).accepted, (held_value result).plan) }
    ensures seen { held_seen result ≡ (held_value result).entries }
    ensures goes_on { IsPrefix (pass_seen pass.entry) (held_value result).entries }
    ensures added { held_added result ≡ pass_added pass.entry }
    ensures in_step { drafts_of node (held_value result).entries ≡ drafts.now.items }
    ensures next { FiresNext (held_value result) node }
{
    let mut pass = pass;
    for _ in rt.forever() {
        let mut held = take_in_step(rt, turn, pass, node, drafts);
        if is_next(held.lend(), node) {
            return held;
        }
        pass = turn.give(held);
        bells.park_next(rt, node);
    }
    unreachable!()
}
