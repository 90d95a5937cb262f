//! Joining the guests' shifts at the end of a flight.

ghost use Rattle.std.specs.Prelude.{◌≡◌, ◌≤◌, ℕ, List, [], vec_len, vec_capacity, true, Some};
ghost use Rattle.sot_tube.specs.Admitted.{Admitted};
ghost use Rattle.sot_world.specs.HistoryEntry.{Logged};
ghost use Rattle.sot_flight.specs.Plans.{Plan};
ghost use Rattle.sot_turn.specs.Prefixes.{IsPrefix};
ghost use Rattle.sot_turn.specs.Passes.{lock_of, pass_lock, pass_ground, pass_seen};
ghost use Rattle.sot_fly_worker.specs.Shifts.{IsOnShift};
ghost use Rattle.sot_workers.specs.Pairs.{EachFrom};
ghost use Rattle.sot_workers.specs.Sent.{IsShiftOf, IsPlaced, IsDone, HasSeenWhole};

use crate::lists::NodeList;
use crate::place::{Done, Place};
use sot_fly_worker::{Bells, Controller, Shift, take_turn};
use sot_ordered_board::OrderedBoard;
use sot_turn::{Pass, Turn};
use std::sync::Wait;
use std::thread::Threads;

/// A shift takes turns until it has seen the end of the flight. One that came back unflown does all
/// of its work here.
pub(crate) fn finish<'a, C: Controller, R: Wait>(
    rt: &R,
    turn: &Turn<OrderedBoard<'a>>,
    bells: &Bells,
    shift: Shift<'a, C>,
) -> Shift<'a, C>
    requires lock { pass_lock shift.pass ≡ lock_of turn.now }
    requires on_shift { (began : Shift C.row.Denot) × IsOnShift C.asked began shift }
    ensures on_shift { (began : _) → IsOnShift C.asked began shift.entry
        → IsOnShift C.asked began result }
    ensures finished { result.finished ≡ true }
{
    let mut shift = shift;
    for _ in rt.forever() {
        if shift.finished {
            return shift;
        }
        shift = take_turn(rt, turn, bells, shift);
    }
    unreachable!()
}

// A finished shift gives its pass, its list and its guest back.
fn part<'a, C: Controller>(
    turn: &Turn<OrderedBoard<'a>>,
    pass: Pass<OrderedBoard<'a>>,
    shift: Shift<'a, C>,
) -> (Pass<OrderedBoard<'a>>, Done<C>)
    requires lock { (pass_lock pass ≡ lock_of turn.now)
        × (pass_lock shift.pass ≡ lock_of turn.now) }
    requires guest { (guest : C) × (shift.guest ≡ Some guest) }
    ensures lock { pass_lock result.0 ≡ pass_lock pass.entry }
    ensures ground { pass_ground result.0 ≡ pass_ground pass.entry }
    ensures seen { IsPrefix (pass_seen pass.entry) (pass_seen result.0)
        × IsPrefix (pass_seen shift.entry.pass) (pass_seen result.0) }
    ensures guest { shift.entry.guest ≡ Some result.1.guest }
    ensures list { (list : NodeList) × (result.1.list ≡ Some list) × (list.node ≡ shift.entry.node)
        × (list.drafts ≡ shift.entry.drafts) }
{
    let Shift {
        node,
        finished: _,
        pass: other,
        drafts,
        guest,
        form: _,
    } = shift;
    let pass = turn.join(pass, other);
    let list = Some(NodeList { node, drafts });
    match guest {
        Some(guest) => (pass, Done { guest, list }),
        None => unreachable!(),
    }
}

// The shift of a guest comes to its end, and gives back what it has.
fn end<'a, C: Controller, R: Wait>(
    rt: &R,
    turn: &Turn<OrderedBoard<'a>>,
    bells: &Bells,
    pass: Pass<OrderedBoard<'a>>,
    shift: Shift<'a, C>,
) -> (Pass<OrderedBoard<'a>>, Done<C>)
    requires lock { pass_lock pass ≡ lock_of turn.now }
    requires placed { (a : Admitted) × (f : Plan) × (number : ℕ) × (guest : C)
        × (began : Shift C.row.Denot) × IsShiftOf (lock_of turn.now) a f number guest began
        × IsOnShift C.asked began shift }
    ensures lock { pass_lock result.0 ≡ pass_lock pass.entry }
    ensures ground { pass_ground result.0 ≡ pass_ground pass.entry }
    ensures seen { IsPrefix (pass_seen pass.entry) (pass_seen result.0) }
    ensures done { (a : Admitted) (f : Plan) (whole : List Logged) (number : ℕ) (guest : C)
        (began : _) → HasSeenWhole a f whole (pass_seen pass.entry)
        → IsShiftOf (lock_of turn.now) a f number guest began → IsOnShift C.asked began shift.entry
        → IsDone C.asked a f whole number guest result.1 }
{
    let shift = finish(rt, turn, bells, shift);
    part(turn, pass, shift)
}

fn join_one<'a, C: Controller, R: Threads + Wait>(
    rt: &R,
    turn: &Turn<OrderedBoard<'a>>,
    bells: &Bells,
    pass: Pass<OrderedBoard<'a>>,
    place: Place<'a, C>,
) -> (Pass<OrderedBoard<'a>>, Done<C>)
    requires lock { pass_lock pass ≡ lock_of turn.now }
    requires placed { (a : Admitted) × (f : Plan) × (number : ℕ) × (guest : C)
        × IsPlaced C.asked (lock_of turn.now) a f number guest place }
    ensures lock { pass_lock result.0 ≡ pass_lock pass.entry }
    ensures ground { pass_ground result.0 ≡ pass_ground pass.entry }
    ensures seen { IsPrefix (pass_seen pass.entry) (pass_seen result.0) }
    ensures done { (a : Admitted) (f : Plan) (whole : List Logged) (number : ℕ) (guest : C)
        → HasSeenWhole a f whole (pass_seen pass.entry)
        → IsPlaced C.asked (lock_of turn.now) a f number guest place.entry
        → IsDone C.asked a f whole number guest result.1 }
{
    match place {
        Place::Stays(guest) => (pass, Done { guest, list: None }),
        Place::Out(child) => end(rt, turn, bells, pass, child.join(rt)),
        Place::Here(Some(shift)) => end(rt, turn, bells, pass, shift),
        Place::Here(None) => unreachable!(),
    }
}

/// All guests come back, each thread being waited for.
pub(crate) fn join_each<'a, C: Controller, R: Threads + Wait>(
    rt: &R,
    turn: &Turn<OrderedBoard<'a>>,
    bells: &Bells,
    pass: Pass<OrderedBoard<'a>>,
    places: Vec<Place<'a, C>>,
    mut dones: Vec<Done<C>>,
) -> (Pass<OrderedBoard<'a>>, Vec<Done<C>>)
    requires lock { pass_lock pass ≡ lock_of turn.now }
    requires placed { (a : Admitted) × (f : Plan) × (guests : List C)
        × EachFrom (IsPlaced C.asked (lock_of turn.now) a f) 0 guests places.items }
    requires room { (dones.items ≡ []) × (vec_len places ≤ vec_capacity dones) }
    ensures lock { pass_lock result.0 ≡ pass_lock pass.entry }
    ensures ground { pass_ground result.0 ≡ pass_ground pass.entry }
    ensures seen { IsPrefix (pass_seen pass.entry) (pass_seen result.0) }
    ensures done { (a : Admitted) (f : Plan) (whole : List Logged) (guests : List C)
        → HasSeenWhole a f whole (pass_seen pass.entry)
        → EachFrom (IsPlaced C.asked (lock_of turn.now) a f) 0 guests places.entry.items
        → EachFrom (IsDone C.asked a f whole) 0 guests result.1.items }
{
    let mut pass = pass;
    for place in places {
        let (back, done) = join_one(rt, turn, bells, pass, place);
        pass = back;
        dones.push_reserved(done);
    }
    (pass, dones)
}
