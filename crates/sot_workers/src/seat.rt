//! Shifts for the guests of a flight.

ghost use Rattle.std.specs.Prelude.{◌≡◌, ◌≢◌, ℕ, ◌+◌, ◌<◌, [], length, Some, MatchOption};
ghost use Rattle.sot_lists.specs.Places.{At};
ghost use Rattle.sot_lang.specs.Tables.{Tables};
ghost use Rattle.sot_eval_flat.specs.FlatForm.{IsFormOf};
ghost use Rattle.sot_tube.specs.Admitted.{Admitted};
ghost use Rattle.sot_flight.specs.Plans.{Guest};
ghost use Rattle.sot_turn.specs.Passes.{lock_of, pass_lock, pass_ground, pass_seen};
ghost use Rattle.sot_workers.specs.declared.lists.NodeList.{NodeList};
ghost use Rattle.sot_workers.specs.Flying.{IsFrom, IsUnnamed};
ghost use Rattle.sot_workers.specs.Forms.{AreFormsOf};
ghost use Rattle.sot_workers.specs.Lists.{HasNodes, AreEmpty, AreKept, HaveRoomIn};
ghost use Rattle.sot_workers.specs.Sent.{IsJob};

use crate::lists::NodeList;
use crate::place::Job;
use sot_eval_flat::Flat;
use sot_flight::Flight;
use sot_fly_worker::{Controller, Shift};
use sot_lang::Draft;
use sot_ordered_board::OrderedBoard;
use sot_turn::{Pass, Turn};
use std::alloc::Global;
use std::mem::replace;

/// The node that the guest of this number flies, if any.
pub(crate) fn node_of(flight: &Flight, lists: &Vec<NodeList>, number: usize) -> Option<u32>
    requires { HasNodes (length flight.now.crews) lists.now.items }
    ensures { MatchOption result (IsUnnamed flight.now number)
        (λ node. At flight.now.crews node (Guest number)) }
{
    for i in 0..lists.len() {
        let node = lists[i].node;
        if let Some(guest) = flight.guest(node) {
            if guest as usize == number {
                return Some(node);
            }
        }
    }
    None
}

/// The list of a node leaves its place, and another empty one comes there.
pub(crate) fn take_list(alloc: Global, lists: &mut Vec<NodeList>, node: u32) -> Vec<Draft>
    requires lists { AreEmpty (length lists.old.items) lists.old.items }
    requires there { node < length lists.old.items }
    ensures lists { (count : ℕ) → AreEmpty count lists.old.items → AreEmpty count lists.new.items }
    ensures none { result.items ≡ [] }
    ensures was { (list : NodeList) → At lists.old.items node list → result ≡ list.drafts }
    ensures others { AreKept (λ n. n ≢ node) lists.old.items lists.new.items }
{
    replace(&mut lists[node as usize].drafts, Vec::new(alloc))
}

/// An empty list of a node comes back to its place.
pub(crate) fn give_list(lists: &mut Vec<NodeList>, node: u32, drafts: Vec<Draft>)
    requires there { node < length lists.old.items }
    requires none { drafts.items ≡ [] }
    ensures lists { (count : ℕ) → AreEmpty count lists.old.items → AreEmpty count lists.new.items }
    ensures here { (list : NodeList) → At lists.new.items node list → list.drafts ≡ drafts }
    ensures others { AreKept (λ n. n ≢ node) lists.old.items lists.new.items }
{
    lists[node as usize].drafts = drafts;
}

/// The flat form of a node's body, if any, leaves its place.
pub(crate) fn take_form(forms: &mut Vec<Option<Flat>>, node: u32) -> Option<Flat>
    ensures stay { (p : Tables) → AreFormsOf p forms.old.items → AreFormsOf p forms.new.items }
    ensures form { (p : Tables) → AreFormsOf p forms.old.items → IsFormOf p node result }
{
    let place = node as usize;
    if place >= forms.len() {
        return None;
    }
    forms[place].take()
}

/// The guest is given a pass and the list of its node, where it flies one.
pub(crate) fn job_of<'a, C: Controller>(
    alloc: Global,
    turn: &Turn<OrderedBoard<'a>>,
    flight: &Flight,
    pass: Pass<OrderedBoard<'a>>,
    lists: &mut Vec<NodeList>,
    number: usize,
    guest: C,
) -> (Pass<OrderedBoard<'a>>, Job<'a, C>)
    requires lock { pass_lock pass ≡ lock_of turn.now }
    requires ground { (a : Admitted) × (pass_ground pass ≡ Some (a, flight.now))
        × (length flight.now.crews ≡ length a.program.nodes) }
    requires seen { pass_seen pass ≡ [] }
    requires lists { AreEmpty (length flight.now.crews) lists.old.items }
    requires room { HaveRoomIn (pass_ground pass) (IsFrom number) lists.old.items }
    ensures lock { pass_lock result.0 ≡ pass_lock pass.entry }
    ensures ground { pass_ground result.0 ≡ pass_ground pass.entry }
    ensures seen { pass_seen result.0 ≡ [] }
    ensures lists { AreEmpty (length flight.now.crews) lists.new.items }
    ensures room { HaveRoomIn (pass_ground pass.entry) (IsFrom (number + 1)) lists.new.items }
    ensures job { (a : Admitted) → pass_ground pass.entry ≡ Some (a, flight.now)
        → IsJob (lock_of turn.now) a flight.now number guest result.1 }
{
    let Some(node) = node_of(flight, lists, number) else {
        return (pass, Job::Stays(guest));
    };
    let (pass, other) = turn.split(pass);
    let shift = Shift {
        node,
        finished: false,
        pass: other,
        drafts: take_list(alloc, lists, node),
        guest: Some(guest),
        form: None,
    };
    (pass, Job::Leaves(shift))
}
