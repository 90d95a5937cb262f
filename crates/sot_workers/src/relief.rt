//! The workers of nodes that no guest flies at the end of a flight: their threads are joined, and
//! their lists come back.

ghost use Rattle.std.specs.Prelude.{◌≡◌, ◌≤◌, ℕ, List, Bool, [], vec_len, vec_capacity, true, Some};
ghost use Rattle.sot_tube.specs.Admitted.{Admitted};
ghost use Rattle.sot_world.specs.HistoryEntry.{Logged};
ghost use Rattle.sot_flight.specs.Plans.{Plan};
ghost use Rattle.sot_turn.specs.Prefixes.{IsPrefix};
ghost use Rattle.sot_turn.specs.Passes.{lock_of, pass_lock, pass_ground, pass_seen};
ghost use Rattle.sot_fly_worker.specs.Shifts.{IsOnShift};
ghost use Rattle.sot_workers.specs.Pairs.{EachFrom};
ghost use Rattle.sot_workers.specs.Lists.{AreMine, AreOwnLists};
ghost use Rattle.sot_workers.specs.Sent.{HasSeenWhole};
ghost use Rattle.sot_workers.specs.Stations.{IsNodeShift, IsStationed, IsRelieved};

use crate::back::put_list;
use crate::join::finish;
use crate::lists::NodeList;
use crate::place::Station;
use sot_fly_worker::{Bells, Controller, Shift};
use sot_ordered_board::OrderedBoard;
use sot_turn::{Pass, Turn};
use std::sync::Wait;
use std::thread::Threads;

// A finished shift gives its pass and its list back.
fn part<'a, C: Controller>(
    turn: &Turn<OrderedBoard<'a>>,
    pass: Pass<OrderedBoard<'a>>,
    shift: Shift<'a, C>,
) -> (Pass<OrderedBoard<'a>>, NodeList)
    requires lock { (pass_lock pass ≡ lock_of turn.now)
        × (pass_lock shift.pass ≡ lock_of turn.now) }
    ensures lock { pass_lock result.0 ≡ pass_lock pass.entry }
    ensures ground { pass_ground result.0 ≡ pass_ground pass.entry }
    ensures seen { IsPrefix (pass_seen pass.entry) (pass_seen result.0)
        × IsPrefix (pass_seen shift.entry.pass) (pass_seen result.0) }
    ensures list { (result.1.node ≡ shift.entry.node) × (result.1.drafts ≡ shift.entry.drafts) }
{
    let Shift {
        node,
        finished: _,
        pass: other,
        drafts,
        guest: _,
        form: _,
    } = shift;
    let pass = turn.join(pass, other);
    (pass, NodeList { node, drafts })
}

// A shift that came back from its thread comes to its end.
fn end<'a, C: Controller, R: Wait>(
    rt: &R,
    turn: &Turn<OrderedBoard<'a>>,
    bells: &Bells,
    pass: Pass<OrderedBoard<'a>>,
    shift: Shift<'a, C>,
) -> (Pass<OrderedBoard<'a>>, NodeList)
    requires lock { pass_lock pass ≡ lock_of turn.now }
    requires began { (a : Admitted) × (f : Plan) × (n : ℕ) × (began : Shift C.row.Denot)
        × IsNodeShift (lock_of turn.now) a f n began × IsOnShift C.asked began shift }
    ensures lock { pass_lock result.0 ≡ pass_lock pass.entry }
    ensures ground { pass_ground result.0 ≡ pass_ground pass.entry }
    ensures seen { IsPrefix (pass_seen pass.entry) (pass_seen result.0) }
    ensures list { (a : Admitted) (f : Plan) (whole : List Logged) (n : ℕ) (began : _)
        → HasSeenWhole a f whole (pass_seen pass.entry)
        → IsNodeShift (lock_of turn.now) a f n began → IsOnShift C.asked began shift.entry
        → IsRelieved whole n true (Some result.1) }
{
    let shift = finish(rt, turn, bells, shift);
    part(turn, pass, shift)
}

fn relieve<'a, C: Controller, R: Threads + Wait>(
    rt: &R,
    turn: &Turn<OrderedBoard<'a>>,
    bells: &Bells,
    pass: Pass<OrderedBoard<'a>>,
    station: Station<'a, C>,
) -> (Pass<OrderedBoard<'a>>, Option<NodeList>)
    requires lock { pass_lock pass ≡ lock_of turn.now }
    requires stationed { (a : Admitted) × (f : Plan) × (n : ℕ) × (away : Bool)
        × IsStationed (lock_of turn.now) a f n away station }
    ensures lock { pass_lock result.0 ≡ pass_lock pass.entry }
    ensures ground { pass_ground result.0 ≡ pass_ground pass.entry }
    ensures seen { IsPrefix (pass_seen pass.entry) (pass_seen result.0) }
    ensures list { (a : Admitted) (f : Plan) (whole : List Logged) (n : ℕ) (away : Bool)
        → HasSeenWhole a f whole (pass_seen pass.entry)
        → IsStationed (lock_of turn.now) a f n away station.entry
        → IsRelieved whole n away result.1 }
{
    match station {
        Station::Guest => (pass, None),
        Station::Caller(other) => (turn.join(pass, other), None),
        Station::Thread(child) => {
            let (pass, list) = end(rt, turn, bells, pass, child.join(rt));
            (pass, Some(list))
        }
    }
}

/// All workers are relieved, one after another: each is rung for, and its thread waited for.
pub(crate) fn relieve_each<'a, C: Controller, R: Threads + Wait>(
    rt: &R,
    turn: &Turn<OrderedBoard<'a>>,
    bells: &Bells,
    pass: Pass<OrderedBoard<'a>>,
    stations: Vec<Station<'a, C>>,
    mut relieved: Vec<Option<NodeList>>,
) -> (Pass<OrderedBoard<'a>>, Vec<Option<NodeList>>)
    requires lock { pass_lock pass ≡ lock_of turn.now }
    requires stationed { (a : Admitted) × (f : Plan) × (away : List Bool)
        × EachFrom (IsStationed (lock_of turn.now) a f) 0 away stations.items }
    requires room { (relieved.items ≡ []) × (vec_len stations ≤ vec_capacity relieved) }
    ensures lock { pass_lock result.0 ≡ pass_lock pass.entry }
    ensures ground { pass_ground result.0 ≡ pass_ground pass.entry }
    ensures seen { IsPrefix (pass_seen pass.entry) (pass_seen result.0) }
    ensures relieved { (a : Admitted) (f : Plan) (whole : List Logged) (away : List Bool)
        → HasSeenWhole a f whole (pass_seen pass.entry)
        → EachFrom (IsStationed (lock_of turn.now) a f) 0 away stations.entry.items
        → EachFrom (IsRelieved whole) 0 away result.1.items }
{
    let mut pass = pass;
    let mut node: u32 = 0;
    for station in stations {
        bells.ring(node);
        node = node.saturating_add(1);
        let (back, list) = relieve(rt, turn, bells, pass, station);
        pass = back;
        relieved.push_reserved(list);
    }
    (pass, relieved)
}

/// The lists come back to their nodes.
pub(crate) fn put_each(relieved: Vec<Option<NodeList>>, lists: &mut Vec<NodeList>)
    ensures { (count : ℕ) (f : Plan) (away : List Bool) (history : List Logged)
        → EachFrom (IsRelieved history) 0 away relieved.items
        → AreMine count f away lists.old.items history
        → AreOwnLists count f lists.new.items history }
{
    for list in relieved {
        put_list(lists, list);
    }
}
