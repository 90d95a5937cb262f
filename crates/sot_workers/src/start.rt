//! Starting the shifts of guests, each in a thread of its own where one can be made.

ghost use Rattle.std.specs.Prelude.{◌≡◌, ◌<◌, ◌≤◌, ℕ, [], length, vec_len, vec_capacity, Some};
ghost use Rattle.sot_tube.specs.Admitted.{Admitted};
ghost use Rattle.sot_flight.specs.Plans.{Plan};
ghost use Rattle.sot_turn.specs.Passes.{lock_of, pass_lock, pass_ground, pass_seen};
ghost use Rattle.sot_fly_worker.specs.Shifts.{IsReady, HasWorked};
ghost use Rattle.sot_ordered_board.specs.Crews.{IsOwn};
ghost use Rattle.sot_workers.specs.Flying.{IsFrom};
ghost use Rattle.sot_workers.specs.Lists.{AreEmpty, HaveRoomIn};
ghost use Rattle.sot_workers.specs.Pairs.{EachFrom};
ghost use Rattle.sot_workers.specs.Sent.{IsJob, IsStarted, IsPlaced};

use crate::lists::NodeList;
use crate::place::{Job, Place};
use crate::seat::job_of;
use sot_flight::Flight;
use sot_fly_worker::{Bells, Controller, Shift, Works, work};
use sot_ordered_board::OrderedBoard;
use sot_turn::{Pass, Turn};
use std::alloc::Global;
use std::snapshot::Snapshot;
use std::sync::Wait;
use std::thread::{Scope, Threads};

/// A shift is started, or stays here where no thread can be made for it.
pub(crate) fn start<'s, 'a: 's, E, C: Controller + Send + 's, R: Threads + Wait + Sync>(
    rt: &'s R,
    scope: &Scope<'s, E>,
    turn: &'s Turn<OrderedBoard<'a>>,
    bells: &'s Bells,
    shift: Shift<'a, C>,
) -> Place<'a, C>
    requires { IsReady (lock_of turn.now) shift }
    ensures { IsStarted C.asked shift.entry result }
{
    let node = shift.node;
    let promise = Works(Snapshot::of(&shift));
    match scope.spawn_with(
        promise,
        move || -> Shift<'_, C>
            requires { IsReady (lock_of turn.now) shift }
            ensures { HasWorked C.asked shift.entry result }
        { work(rt, turn, bells, shift) },
    ) {
        Ok(child) => Place::Out(child),
        Err(refused) => {
            bells.refuse(node);
            Place::Here(Some((refused.value)()))
        }
    }
}

// A guest leaves with its shift, or stays.
fn place<'s, 'a: 's, E, C: Controller + Send + 's, R: Threads + Wait + Sync>(
    rt: &'s R,
    scope: &Scope<'s, E>,
    turn: &'s Turn<OrderedBoard<'a>>,
    bells: &'s Bells,
    job: Job<'a, C>,
) -> Place<'a, C>
    requires { (a : Admitted) × (f : Plan) × (number : ℕ) × (guest : C)
        × IsJob (lock_of turn.now) a f number guest job }
    ensures { (a : Admitted) (f : Plan) (number : ℕ) (guest : C)
        → IsJob (lock_of turn.now) a f number guest job.entry
        → IsPlaced C.asked (lock_of turn.now) a f number guest result }
{
    match job {
        Job::Stays(guest) => Place::Stays(guest),
        Job::Leaves(shift) => start(rt, scope, turn, bells, shift),
    }
}

/// The guests leave their places: each with a shift, in a thread of its own where one can be made,
/// where the flight names it.
pub(crate) fn place_each<'s, 'a: 's, E, C: Controller + Send + 's, R: Threads + Wait + Sync>(
    rt: &'s R,
    alloc: Global,
    scope: &Scope<'s, E>,
    turn: &'s Turn<OrderedBoard<'a>>,
    bells: &'s Bells,
    flight: &Flight,
    pass: Pass<OrderedBoard<'a>>,
    lists: &mut Vec<NodeList>,
    guests: Vec<C>,
    mut places: Vec<Place<'a, C>>,
) -> (Pass<OrderedBoard<'a>>, Vec<Place<'a, C>>)
    requires lock { pass_lock pass ≡ lock_of turn.now }
    requires ground { (a : Admitted) × (pass_ground pass ≡ Some (a, flight.now))
        × (length flight.now.crews ≡ length a.program.nodes) }
    requires seen { pass_seen pass ≡ [] }
    requires lists { AreEmpty (length flight.now.crews) lists.old.items }
    requires drafts { HaveRoomIn (pass_ground pass) (IsFrom 0) lists.old.items }
    requires room { (places.items ≡ []) × (vec_len guests ≤ vec_capacity places) }
    ensures lock { pass_lock result.0 ≡ pass_lock pass.entry }
    ensures ground { pass_ground result.0 ≡ pass_ground pass.entry }
    ensures seen { pass_seen result.0 ≡ [] }
    ensures lists { AreEmpty (length flight.now.crews) lists.new.items }
    ensures drafts { HaveRoomIn (pass_ground pass.entry) IsOwn lists.new.items }
    ensures placed { (a : Admitted) → pass_ground pass.entry ≡ Some (a, flight.now)
        → EachFrom (IsPlaced C.asked (lock_of turn.now) a flight.now) 0 guests.items
        result.1.items }
{
    let mut pass = pass;
    for guest in guests {
        let number = places.len();
        let (back, job) = job_of(alloc, turn, flight, pass, lists, number, guest);
        pass = back;
        places.push_reserved(place(rt, scope, turn, bells, job));
    }
    (pass, places)
}
