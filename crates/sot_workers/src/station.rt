//! Starting the workers of nodes that no guest flies.

ghost use Rattle.std.specs.Prelude.{◌≡◌, ◌≢◌, ◌<◌, ◌≤◌, ◌↔◌, ℕ, [], length, vec_capacity};
ghost use Rattle.std.specs.Prelude.{Some, IsTrue, false};
ghost use Rattle.sot_lists.specs.Places.{At};
ghost use Rattle.sot_eval_flat.specs.FlatForm.{IsFormOf};
ghost use Rattle.sot_tube.specs.Admitted.{Admitted};
ghost use Rattle.sot_turn.specs.Passes.{lock_of, pass_lock, pass_ground, pass_seen};
ghost use Rattle.sot_fly_worker.specs.Shifts.{IsReady, HasWorked};
ghost use Rattle.sot_ordered_board.specs.Crews.{IsOwn};
ghost use Rattle.sot_workers.specs.declared.lists.NodeList.{NodeList};
ghost use Rattle.sot_workers.specs.Flying.{IsMine};
ghost use Rattle.sot_workers.specs.Forms.{AreFormsOf};
ghost use Rattle.sot_workers.specs.Lists.{AreEmpty, AreKept, HaveRoomIn};
ghost use Rattle.sot_workers.specs.Pairs.{EachFrom};
ghost use Rattle.sot_workers.specs.Stations.{IsSent, IsAt, IsStationed, has_thread};

use crate::lists::NodeList;
use crate::place::{Place, Station};
use crate::rule::is_noted;
use crate::seat::{give_list, take_form, take_list};
use crate::start::start;
use sot_eval_flat::Flat;
use sot_flight::Flight;
use sot_fly_worker::{Bells, Controller, Shift, stop};
use sot_ordered_board::OrderedBoard;
use sot_turn::{Pass, Turn};
use std::alloc::Global;
use std::sync::Wait;
use std::thread::{Scope, Threads};

// A shift stays with the caller: it gives its empty list back, and leaves its pass.
fn stay<'a, C: Controller>(lists: &mut Vec<NodeList>, shift: Shift<'a, C>) -> Station<'a, C>
    requires none { shift.drafts.items ≡ [] }
    requires there { shift.node < length lists.old.items }
    ensures lists { (count : ℕ) → AreEmpty count lists.old.items → AreEmpty count lists.new.items }
    ensures others { AreKept (λ n. n ≢ shift.entry.node) lists.old.items lists.new.items }
    ensures room { (list : NodeList) → At lists.new.items shift.entry.node list
        → list.drafts ≡ shift.entry.drafts }
    ensures station { (lock : _) (began : _) → pass_lock shift.entry.pass ≡ lock
        → IsSent lock began result }
{
    let Shift {
        node,
        finished: _,
        pass,
        drafts,
        guest: _,
        form: _,
    } = shift;
    give_list(lists, node, drafts);
    Station::Caller(pass)
}

// A shift whose thread could not be started stays with the caller. One that worked all the same
// keeps all, and the caller waits without end.
fn keep<'a, C: Controller, R: Wait>(
    rt: &R,
    lists: &mut Vec<NodeList>,
    shift: Shift<'a, C>,
) -> Station<'a, C>
    requires worked { (began : Shift C.row.Denot) × HasWorked C.asked began shift
        × (began.drafts.items ≡ []) }
    requires there { shift.node < length lists.old.items }
    ensures lists { (count : ℕ) → AreEmpty count lists.old.items → AreEmpty count lists.new.items }
    ensures others { AreKept (λ n. n ≢ shift.entry.node) lists.old.items lists.new.items }
    ensures room { (began : _) (list : NodeList) → HasWorked C.asked began shift.entry
        → At lists.new.items shift.entry.node list
        → vec_capacity list.drafts ≡ vec_capacity began.drafts }
    ensures station { (lock : _) (began : _) → IsReady lock began
        → HasWorked C.asked began shift.entry → IsSent lock began result }
{
    if shift.finished {
        stop(rt);
    }
    stay(lists, shift)
}

// A shift is started in a thread of its own, or comes back.
fn send<'s, 'a: 's, E, C: Controller + Send + 's, R: Threads + Wait + Sync>(
    rt: &'s R,
    scope: &Scope<'s, E>,
    turn: &'s Turn<OrderedBoard<'a>>,
    bells: &'s Bells,
    lists: &mut Vec<NodeList>,
    shift: Shift<'a, C>,
) -> Station<'a, C>
    requires ready { IsReady (lock_of turn.now) shift }
    requires there { shift.node < length lists.old.items }
    ensures lists { (count : ℕ) → AreEmpty count lists.old.items → AreEmpty count lists.new.items }
    ensures others { AreKept (λ n. n ≢ shift.entry.node) lists.old.items lists.new.items }
    ensures room { (list : NodeList) → At lists.new.items shift.entry.node list
        → has_thread result ≡ false
        → vec_capacity list.drafts ≡ vec_capacity shift.entry.drafts }
    ensures station { IsSent (lock_of turn.now) shift.entry result }
{
    let node = shift.node;
    match start(rt, scope, turn, bells, shift) {
        Place::Out(child) => {
            bells.send_out(node);
            Station::Thread(child)
        }
        Place::Here(Some(back)) => keep(rt, lists, back),
        Place::Here(None) => unreachable!(),
        Place::Stays(_) => unreachable!(),
    }
}

// A shift leaves for a thread of its own, or stays with the caller.
fn assign<'s, 'a: 's, E, C: Controller + Send + 's, R: Threads + Wait + Sync>(
    rt: &'s R,
    scope: &Scope<'s, E>,
    turn: &'s Turn<OrderedBoard<'a>>,
    bells: &'s Bells,
    lists: &mut Vec<NodeList>,
    shift: Shift<'a, C>,
    is_tried: bool,
) -> Station<'a, C>
    requires ready { IsReady (lock_of turn.now) shift }
    requires there { shift.node < length lists.old.items }
    ensures lists { (count : ℕ) → AreEmpty count lists.old.items → AreEmpty count lists.new.items }
    ensures others { AreKept (λ n. n ≢ shift.entry.node) lists.old.items lists.new.items }
    ensures room { (list : NodeList) → At lists.new.items shift.entry.node list
        → has_thread result ≡ false
        → vec_capacity list.drafts ≡ vec_capacity shift.entry.drafts }
    ensures station { IsSent (lock_of turn.now) shift.entry result }
{
    if is_tried {
        send(rt, scope, turn, bells, lists, shift)
    } else {
        stay(lists, shift)
    }
}

// Whether no guest flies a node.
fn is_own(flight: &Flight, node: u32) -> bool
    requires { node < length flight.now.crews }
    ensures { IsTrue result ↔ IsOwn flight.now node }
{
    flight.guest(node).is_none()
}

// The worker of a node is stationed, with a job of its own.
fn station_of<'s, 'a: 's, E, C: Controller + Send + 's, R: Threads + Wait + Sync>(
    rt: &'s R,
    alloc: Global,
    scope: &Scope<'s, E>,
    turn: &'s Turn<OrderedBoard<'a>>,
    bells: &'s Bells,
    flight: &Flight,
    pass: Pass<OrderedBoard<'a>>,
    lists: &mut Vec<NodeList>,
    node: u32,
    is_tried: bool,
    form: Option<Flat>,
) -> (Pass<OrderedBoard<'a>>, Station<'a, C>)
    requires lock { pass_lock pass ≡ lock_of turn.now }
    requires ground { (a : Admitted) × (pass_ground pass ≡ Some (a, flight.now))
        × (length flight.now.crews ≡ length a.program.nodes) }
    requires seen { pass_seen pass ≡ [] }
    requires lists { AreEmpty (length flight.now.crews) lists.old.items }
    requires there { node < length flight.now.crews }
    requires room { HaveRoomIn (pass_ground pass) (λ f n. IsOwn f n × (n ≡ node))
        lists.old.items }
    requires form { (a : Admitted) → pass_ground pass ≡ Some (a, flight.now)
        → IsFormOf a.program node form }
    ensures lock { pass_lock result.0 ≡ pass_lock pass.entry }
    ensures ground { pass_ground result.0 ≡ pass_ground pass.entry }
    ensures seen { pass_seen result.0 ≡ [] }
    ensures lists { AreEmpty (length flight.now.crews) lists.new.items }
    ensures others { AreKept (λ n. n ≢ node) lists.old.items lists.new.items }
    ensures room { has_thread result.1 ≡ false → HaveRoomIn (pass_ground pass.entry)
        (λ f n. IsOwn f n × (n ≡ node)) lists.new.items }
    ensures station { (a : Admitted) → pass_ground pass.entry ≡ Some (a, flight.now)
        → IsAt (lock_of turn.now) a flight.now node result.1 }
{
    if !is_own(flight, node) {
        return (pass, Station::Guest);
    }
    let (pass, other) = turn.split(pass);
    let shift = Shift {
        node,
        finished: false,
        pass: other,
        drafts: take_list(alloc, lists, node),
        guest: None,
        form,
    };
    (pass, assign(rt, scope, turn, bells, lists, shift, is_tried))
}

// Whether the worker has a thread.
fn is_thread<'a, C: Controller>(station: &Station<'a, C>) -> bool
    ensures { result ≡ has_thread station.now }
{
    match station {
        Station::Guest => false,
        Station::Caller(_) => false,
        Station::Thread(_) => true,
    }
}

/// The workers of the nodes that no guest flies are stationed, each with a job of its own: in a
/// thread where the start of one is to be tried and one can be made, and else with the caller. With
/// each it is noted whether it has a thread.
pub(crate) fn station_each<'s, 'a: 's, E, C: Controller + Send + 's, R: Threads + Wait + Sync>(
    rt: &'s R,
    alloc: Global,
    scope: &Scope<'s, E>,
    turn: &'s Turn<OrderedBoard<'a>>,
    bells: &'s Bells,
    flight: &Flight,
    tried: &Vec<bool>,
    pass: Pass<OrderedBoard<'a>>,
    lists: &mut Vec<NodeList>,
    mut forms: Vec<Option<Flat>>,
    mut stations: Vec<Station<'a, C>>,
    mut away: Vec<bool>,
) -> (Pass<OrderedBoard<'a>>, Vec<Station<'a, C>>, Vec<bool>)
    requires lock { pass_lock pass ≡ lock_of turn.now }
    requires ground { (a : Admitted) × (pass_ground pass ≡ Some (a, flight.now))
        × (length flight.now.crews ≡ length a.program.nodes) }
    requires seen { pass_seen pass ≡ [] }
    requires lists { AreEmpty (length flight.now.crews) lists.old.items }
    requires room { HaveRoomIn (pass_ground pass) IsOwn lists.old.items }
    requires forms { (a : Admitted) → pass_ground pass ≡ Some (a, flight.now)
        → AreFormsOf a.program forms.items }
    requires stations { (stations.items ≡ []) × (length flight.now.crews ≤ vec_capacity stations) }
    requires away { (away.items ≡ []) × (length flight.now.crews ≤ vec_capacity away) }
    ensures lock { pass_lock result.0 ≡ pass_lock pass.entry }
    ensures ground { pass_ground result.0 ≡ pass_ground pass.entry }
    ensures seen { pass_seen result.0 ≡ [] }
    ensures lists { AreEmpty (length flight.now.crews) lists.new.items }
    ensures room { HaveRoomIn (pass_ground pass.entry) (λ f. IsMine f result.2.items)
        lists.new.items }
    ensures count { length result.1.items ≡ length flight.now.crews }
    ensures stationed { (a : Admitted) → pass_ground pass.entry ≡ Some (a, flight.now)
        → EachFrom (IsStationed (lock_of turn.now) a flight.now) 0 result.2.items result.1.items }
{
    let mut pass = pass;
    let count = lists.len();
    for place in 0..count {
        let node = lists[place].node;
        let is_tried = is_noted(tried, place);
        let form = take_form(&mut forms, node);
        let (back, station) = station_of(
            rt, alloc, scope, turn, bells, flight, pass, lists, node, is_tried, form,
        );
        pass = back;
        away.push_reserved(is_thread(&station));
        stations.push_reserved(station);
    }
    (pass, stations, away)
}
