//! What the caller does while the guests are out.

ghost use Rattle.std.specs.Prelude.{◌≡◌, ◌<◌, ℕ, List, true, length, Some};
ghost use Rattle.sot_tube.specs.Admitted.{Admitted};
ghost use Rattle.sot_world.specs.HistoryEntry.{Logged};
ghost use Rattle.sot_flight.specs.Plans.{Plan};
ghost use Rattle.sot_turn.specs.Prefixes.{IsPrefix};
ghost use Rattle.sot_turn.specs.Passes.{lock_of, pass_lock, pass_ground, pass_seen};
ghost use Rattle.sot_board.specs.Flown.{FlownBy};
ghost use Rattle.sot_workers.specs.Flying.{IsMine};
ghost use Rattle.sot_workers.specs.Instants.{GoesOn};
ghost use Rattle.sot_workers.specs.Lists.{AreMine, KeepsLists, HaveRoomIn, KeepsRoom};
ghost use Rattle.sot_workers.specs.Pairs.{EachFrom};
ghost use Rattle.sot_workers.specs.Sent.{IsCallers, IsPlaced};

use crate::lists::NodeList;
use crate::own::{compare, work_on};
use crate::place::Place;
use crate::rings::Rings;
use sot_fly_worker::{Bells, Controller, take_turn};
use sot_ordered_board::OrderedBoard;
use sot_turn::{Pass, Turn};
use std::sync::Wait;

// All that the caller does in one turn. It answers whether the flight is at its end.
fn work_in_turn<R: Wait>(
    rt: &R,
    board: &mut OrderedBoard<'_>,
    bells: &Bells,
    away: &[bool],
    long: &[bool],
    rings: &mut Rings,
    lists: &mut Vec<NodeList>,
) -> bool
    requires lists { (seen : List Logged) × IsPrefix seen board.old.entries
        × AreMine (length board.old.accepted.program.nodes) board.old.plan
        away.now lists.old.items seen }
    requires room { KeepsRoom board.old away.now lists.old.items }
    ensures goes_on { GoesOn board.old board.new }
    ensures lists { KeepsLists board.new away.now lists.new.items }
    ensures room { KeepsRoom board.new away.now lists.new.items }
    ensures finished { result ≡ true → FlownBy board.new.accepted.program
        board.new.accepted.cert.jitter board.new.plan board.new.entries }
{
    compare(rt, board, away, lists);
    work_on(board, bells, away, lists);
    rings.note(board, long);
    board.reveal_invariant();
    board.finished()
}

// One turn of the caller, and the rings after it. It answers whether the flight is at its end.
fn take_own_turn<'a, R: Wait>(
    rt: &R,
    turn: &Turn<OrderedBoard<'a>>,
    pass: Pass<OrderedBoard<'a>>,
    bells: &Bells,
    away: &[bool],
    long: &[bool],
    rings: &mut Rings,
    lists: &mut Vec<NodeList>,
) -> (Pass<OrderedBoard<'a>>, bool)
    requires lock { pass_lock pass ≡ lock_of turn.now }
    requires callers { (a : Admitted) × (f : Plan)
        × IsCallers a f away.now (pass_ground pass) (pass_seen pass) lists.old.items }
    requires room { HaveRoomIn (pass_ground pass) (λ f. IsMine f away.now) lists.old.items }
    ensures lock { pass_lock result.0 ≡ pass_lock pass.entry }
    ensures ground { pass_ground result.0 ≡ pass_ground pass.entry }
    ensures callers { (a : Admitted) (f : Plan) → pass_ground pass.entry ≡ Some (a, f)
        → IsCallers a f away.now (pass_ground result.0) (pass_seen result.0) lists.new.items }
    ensures room { HaveRoomIn (pass_ground pass.entry) (λ f. IsMine f away.now) lists.new.items }
    ensures finished { result.1 ≡ true → (a : Admitted) (f : Plan)
        → pass_ground pass.entry ≡ Some (a, f)
        → FlownBy a.program a.cert.jitter f (pass_seen result.0) }
{
    let mut held = turn.take(rt, pass);
    let finished = work_in_turn(rt, held.lend(), bells, away, long, rings, lists);
    let pass = turn.give(held);
    rings.ring(bells);
    (pass, finished)
}

// A guest's shift that could not be started takes one turn. It answers whether its node has fired.
fn turn_here<'a, C: Controller, R: Wait>(
    rt: &R,
    turn: &Turn<OrderedBoard<'a>>,
    bells: &Bells,
    place: &mut Place<'a, C>,
) -> bool
    requires { (a : Admitted) × (f : Plan) × (number : ℕ) × (guest : C)
        × IsPlaced C.asked (lock_of turn.now) a f number guest place.old }
    ensures { (a : Admitted) (f : Plan) (number : ℕ) (guest : C)
        → IsPlaced C.asked (lock_of turn.now) a f number guest place.old
        → IsPlaced C.asked (lock_of turn.now) a f number guest place.new }
{
    if let Place::Here(shift) = place {
        if let Some(now) = shift.take() {
            let before = now.drafts.len();
            let later = take_turn(rt, turn, bells, now);
            let fired = later.drafts.len() > before;
            *shift = Some(later);
            return fired;
        }
    }
    false
}

// Each guest's shift that could not be started takes one turn. It answers whether a node has fired.
fn turn_each<'a, C: Controller, R: Wait>(
    rt: &R,
    turn: &Turn<OrderedBoard<'a>>,
    bells: &Bells,
    places: &mut Vec<Place<'a, C>>,
) -> bool
    requires { (a : Admitted) × (f : Plan) × (guests : List C)
        × EachFrom (IsPlaced C.asked (lock_of turn.now) a f) 0 guests places.old.items }
    ensures { (a : Admitted) (f : Plan) (guests : List C)
        → EachFrom (IsPlaced C.asked (lock_of turn.now) a f) 0 guests places.old.items
        → EachFrom (IsPlaced C.asked (lock_of turn.now) a f) 0 guests places.new.items }
{
    let mut any = false;
    for i in 0..places.len() {
        if turn_here(rt, turn, bells, &mut places[i]) {
            any = true;
        }
    }
    any
}

/// Takes turns, and those of guests' shifts that could not be started, until the flight is at its
/// end. Where none of these has fired, it parks until a worker in a thread rings.
pub(crate) fn watch<'a, C: Controller, R: Wait>(
    rt: &R,
    turn: &Turn<OrderedBoard<'a>>,
    bells: &Bells,
    away: &[bool],
    long: &[bool],
    rings: &mut Rings,
    pass: Pass<OrderedBoard<'a>>,
    lists: &mut Vec<NodeList>,
    places: &mut Vec<Place<'a, C>>,
) -> Pass<OrderedBoard<'a>>
    requires lock { pass_lock pass ≡ lock_of turn.now }
    requires callers { (a : Admitted) × (f : Plan)
        × IsCallers a f away.now (pass_ground pass) (pass_seen pass) lists.old.items }
    requires room { HaveRoomIn (pass_ground pass) (λ f. IsMine f away.now) lists.old.items }
    requires places { (a : Admitted) × (f : Plan) × (guests : List C)
        × EachFrom (IsPlaced C.asked (lock_of turn.now) a f) 0 guests places.old.items }
    ensures lock { pass_lock result ≡ pass_lock pass.entry }
    ensures ground { pass_ground result ≡ pass_ground pass.entry }
    ensures callers { (a : Admitted) (f : Plan) → pass_ground pass.entry ≡ Some (a, f)
        → IsCallers a f away.now (pass_ground result) (pass_seen result) lists.new.items }
    ensures finished { (a : Admitted) (f : Plan) → pass_ground pass.entry ≡ Some (a, f)
        → FlownBy a.program a.cert.jitter f (pass_seen result) }
    ensures places { (a : Admitted) (f : Plan) (guests : List C)
        → EachFrom (IsPlaced C.asked (lock_of turn.now) a f) 0 guests places.old.items
        → EachFrom (IsPlaced C.asked (lock_of turn.now) a f) 0 guests places.new.items }
{
    let mut pass = pass;
    for _ in rt.forever() {
        let (back, finished) = take_own_turn(rt, turn, pass, bells, away, long, rings, lists);
        pass = back;
        if finished {
            return pass;
        }
        if !turn_each(rt, turn, bells, places) {
            bells.park_caller(rt);
        }
    }
    unreachable!()
}
