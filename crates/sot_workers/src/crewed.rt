//! A whole flight, with its guests.

ghost use Rattle.std.specs.Prelude.{◌≡◌, ◌<◌, ◌≤◌, ℕ, List, [], length, vec_len, vec_capacity};
ghost use Rattle.std.specs.Prelude.{slice_index_or, IfOk, IfErr, Some};
ghost use Rattle.sot_lists.specs.Places.{At};
ghost use Rattle.sot_tube.specs.Admitted.{Admitted};
ghost use Rattle.sot_world.specs.HistoryEntry.{Logged};
ghost use Rattle.sot_flight.specs.Plans.{Plan, Guest};
ghost use Rattle.sot_turn.specs.Prefixes.{IsPrefix};
ghost use Rattle.sot_turn.specs.Passes.{lock_of, pass_lock, pass_ground, pass_seen};
ghost use Rattle.sot_board.specs.Flown.{FlownBy};
ghost use Rattle.sot_ordered_board.specs.Order.{IsInOrder, FliesInOrder};
ghost use Rattle.sot_fly_worker.specs.Answers.{Answered};
ghost use Rattle.sot_workers.specs.Flying.{IsFrom, IsUnnamed};
ghost use Rattle.sot_workers.specs.Forms.{AreFormsOf};
ghost use Rattle.sot_workers.specs.Lists.{AreLists, HaveRoomIn};
ghost use Rattle.sot_workers.specs.Pairs.{EachFrom};
ghost use Rattle.sot_workers.specs.Rooms.{HasRoom};
ghost use Rattle.sot_workers.specs.Leaving.{IsLeaving, HasLanded};
ghost use Rattle.sot_workers.specs.Sent.{HasSeenWhole};
ghost use Rattle.sot_workers.specs.Asked.{EachAnswered, EachUnnamedStays};
ghost use Rattle.sot_workers.specs.Back.{IsGuestBack, AreListsBack};

use crate::back::put_back;
use crate::join::join_each;
use crate::lists::NodeList;
use crate::place::Done;
use crate::relief::{put_each, relieve_each};
use crate::room::{Room, room_for};
use crate::start::place_each;
use crate::station::station_each;
use crate::watch::watch;
use sot_board::Board;
use sot_flight::Flight;
use sot_fly_worker::{Bells, Controller, whole_histories_end};
use sot_ordered_board::OrderedBoard;
use sot_turn::{Pass, Turn};
use std::alloc::{AllocError, Global};
use std::mem::swap;
use std::sync::Wait;
use std::thread;
use std::thread::{Scope, Threads};

/// A board at the end of its flight, and for each node, in declared order, the drafts of its
/// firings.
#[derive(Drop)]
pub struct Flown<'a> {
    pub board: Board<'a>,
    pub lists: Vec<NodeList>,
}

/// What is there once the guests are back: the caller's pass, its lists, and the guests with
/// theirs.
#[derive(Drop)]
pub(crate) struct Landed<'a, C: Controller> {
    pub(crate) pass: Pass<OrderedBoard<'a>>,
    pub(crate) lists: Vec<NodeList>,
    pub(crate) dones: Vec<Done<C>>,
}

/// What leaves with the guests: the caller's pass, and the memory of the flight.
#[derive(Drop)]
pub(crate) struct Leaving<'a, C: Controller> {
    pub(crate) pass: Pass<OrderedBoard<'a>>,
    pub(crate) room: Room<'a, C>,
}

// What is done while threads may run: the guests leave, the flight is flown, and the guests come
// back.
fn fly_in<'s, 'a: 's, E, C: Controller + Send + 's, R: Threads + Wait + Sync>(
    rt: &'s R,
    alloc: Global,
    scope: &Scope<'s, E>,
    turn: &'s Turn<OrderedBoard<'a>>,
    bells: &'s Bells,
    flight: &Flight,
    leaving: Leaving<'a, C>,
) -> Landed<'a, C>
    requires { IsLeaving (lock_of turn.now) flight.now leaving }
    ensures { HasLanded C.asked flight.now leaving.entry result }
{
    let Leaving { pass, room } = leaving;
    let Room {
        mut lists,
        mut rings,
        tried,
        long,
        forms,
        stations,
        away,
        relieved,
        places,
        dones,
        guests,
    } = room;
    let (pass, mut places) = place_each(
        rt, alloc, scope, turn, bells, flight, pass, &mut lists, guests, places,
    );
    let (pass, stations, away) = station_each(
        rt, alloc, scope, turn, bells, flight, &tried, pass, &mut lists, forms, stations, away,
    );
    let pass = watch(
        rt,
        turn,
        bells,
        away.as_slice(),
        long.as_slice(),
        &mut rings,
        pass,
        &mut lists,
        &mut places,
    );
    let (pass, relieved) = relieve_each(rt, turn, bells, pass, stations, relieved);
    put_each(relieved, &mut lists);
    let (pass, dones) = join_each(rt, turn, bells, pass, places, dones);
    Landed { pass, lists, dones }
}

// The guests leave, the flight is flown, and the guests come back, in a scope of threads of its
// own: at its end all of them have ended.
fn fly_out<'a, C: Controller + Send, R: Threads + Wait + Sync>(
    rt: &R,
    alloc: Global,
    turn: &Turn<OrderedBoard<'a>>,
    bells: &Bells,
    flight: &Flight,
    leaving: Leaving<'a, C>,
) -> Landed<'a, C>
    requires { IsLeaving (lock_of turn.now) flight.now leaving }
    ensures { HasLanded C.asked flight.now leaving.entry result }
{
    thread::scope(
        thread::scope_env(),
        rt,
        move |scope| -> Landed<'_, C>
            requires { IsLeaving (lock_of turn.now) flight.now leaving }
            ensures { HasLanded C.asked flight.entry.now leaving.entry result }
        { fly_in(rt, alloc, scope, turn, bells, flight, leaving) },
    )
}

// The board at the end of its flight, of which a whole history was seen.
fn close<'a, R: Wait>(
    rt: &R,
    turn: Turn<OrderedBoard<'a>>,
    pass: Pass<OrderedBoard<'a>>,
) -> Board<'a>
    requires lock { pass_lock pass ≡ lock_of turn }
    ensures ground { pass_ground pass.entry ≡ Some (result.accepted, result.plan) }
    ensures order { IsInOrder result }
    ensures whole { (a : Admitted) (f : Plan) (whole : List Logged)
        → pass_ground pass.entry ≡ Some (a, f) → HasSeenWhole a f whole (pass_seen pass.entry)
        → result.entries ≡ whole }
{
    whole_histories_end();
    let ordered = turn.close(rt, pass);
    ordered.reveal_invariant();
    ordered.into_board()
}

// Flies behind the lock, and puts the lists and the guests back.
fn fly_behind<'a, C: Controller + Send, R: Threads + Wait + Sync>(
    rt: &R,
    alloc: Global,
    turn: Turn<OrderedBoard<'a>>,
    bells: &Bells,
    flight: &Flight,
    pass: Pass<OrderedBoard<'a>>,
    room: Room<'a, C>,
    guests: &mut Vec<C>,
) -> Flown<'a>
    requires lock { pass_lock pass ≡ lock_of turn }
    requires ground { (a : Admitted) × (pass_ground pass ≡ Some (a, flight.now))
        × (length flight.now.crews ≡ length a.program.nodes) }
    requires seen { pass_seen pass ≡ [] }
    requires room { HasRoom (length flight.now.crews) (vec_len room.guests) room }
    requires lists { HaveRoomIn (pass_ground pass) (IsFrom 0) room.lists.items }
    requires forms { (a : Admitted) → pass_ground pass ≡ Some (a, flight.now)
        → AreFormsOf a.program room.forms.items }
    requires back { (guests.old.items ≡ []) × (vec_len room.guests ≤ vec_capacity guests.old) }
    ensures ground { pass_ground pass.entry ≡ Some (result.board.accepted, result.board.plan) }
    ensures flown { FlownBy result.board.accepted.program result.board.accepted.cert.jitter
        result.board.plan result.board.entries }
    ensures order { FliesInOrder result.board.accepted.program result.board.accepted.cert.jitter
        result.board.plan result.board.entries }
    ensures guests { EachFrom (IsGuestBack C.asked result.board.accepted result.board.plan
        result.board.entries) 0 room.entry.guests.items guests.new.items }
    ensures lists { AreListsBack (length result.board.accepted.program.nodes) result.board.plan
        (length room.entry.guests.items) result.lists.items result.board.entries }
{
    let leaving = Leaving { pass, room };
    let Landed {
        pass,
        mut lists,
        dones,
    } = fly_out(rt, alloc, &turn, bells, flight, leaving);
    let board = close(rt, turn, pass);
    board.reveal_invariant();
    put_back(dones, &mut lists, guests);
    Flown { board, lists }
}

/// Flies a newly opened board to the end of its flight. Each node has a job, a pass with its list
/// of drafts, which a worker takes to a thread of its own where the rule says that the start of one
/// is tried, and where it can be made. A guest that the flight names drafts for its node there. The
/// caller fires the nodes whose jobs stayed, and does all else. It never waits for a guest before
/// it has to: time goes on while a guest is asked, as far as the jitter allows. The nodes that no
/// guest flies fire as soon as they are due and in declared order, whoever runs their code.
///
/// All memory is taken before the first event. Where there is none, no guest was asked, and the
/// board is dropped. It waits for the guests, and nobody promises that it returns.
pub fn fly<'a, C: Controller + Send, R: Threads + Wait + Sync>(
    rt: &R,
    alloc: Global,
    board: Board<'a>,
    guests: &mut Vec<C>,
) -> Result<Flown<'a>, AllocError>
    requires opened { board.entries ≡ [] }
    requires there { (n i : ℕ) → At board.plan.crews n (Guest i) → i < vec_len guests.old }
    ensures flown { IfOk result (λ r. FlownBy r.board.accepted.program r.board.accepted.cert.jitter
        r.board.plan r.board.entries) }
    ensures order { IfOk result (λ r. FliesInOrder r.board.accepted.program
        r.board.accepted.cert.jitter r.board.plan r.board.entries) }
    ensures accepted { IfOk result (λ r. r.board.accepted ≡ board.entry.accepted) }
    ensures plan { IfOk result (λ r. r.board.plan ≡ board.entry.plan) }
    ensures lists { IfOk result (λ r. AreLists (length r.board.accepted.program.nodes) r.lists.items
        r.board.entries) }
    ensures length { vec_len guests.new ≡ vec_len guests.old }
    ensures asked { IfOk result (λ r. EachAnswered C.asked r.board.accepted r.board.plan
        r.board.entries guests.old.items guests.new.items) }
    ensures unnamed { IfOk result (λ r.
        EachUnnamedStays r.board.plan guests.old.items guests.new.items) }
    ensures memory { IfErr result (λ _. guests.new.items ≡ guests.old.items) }
{
    board.reveal_invariant();
    let flight = board.flight();
    let p = board.typed();
    let mut room = room_for(alloc, p, flight, guests.len())?;
    let bells = Bells::new(alloc, p.nodes.len())?;
    let ordered = OrderedBoard::new(board);
    let (turn, pass) = Turn::new(alloc, ordered)?;
    swap(guests, &mut room.guests);
    Ok(fly_behind(rt, alloc, turn, &bells, flight, pass, room, guests))
}
