//! The table of the lock. Word 0 is the number of tickets drawn, word 1 the ticket that is served,
//! word 2 the length of the value's list. The slot has the value, or nothing while it is out.
use atomic_table::{Seat, Shared, Table, TableRule};
use sot_turn_journal::Journal;
use std::alloc::Global;
use std::collections::LinkedList;
use std::marker::PhantomData;
use std::snapshot::Snapshot;

/// What a seat knows. No value of it is made.
pub struct View<Ground, Entry> {
    /// None where the view is spent.
    pub own_ground: Option<Ground>,
    /// The ticket that it has drawn, until the turn is passed.
    pub ticket: Option<u64>,
    pub turn: bool,
    /// How much of the value's list its owner has seen.
    pub seen: LinkedList<Entry>,
    /// What its owner has put behind the list, in the turns that it gave back.
    pub added: LinkedList<Entry>,
    /// The two lists that were seen before the last join.
    pub kept_lists: LinkedList<LinkedList<Entry>>,
    /// The ground of the view that was taken in by the last join.
    pub kept_grounds: LinkedList<Ground>,
}

/// The rule, for a value like the one that the lock is made with.
pub struct Turns<G> {
    value: PhantomData<G>,
}

impl<G: Journal> TableRule<Option<G>, View<G::Ground, G::Entry>, Snapshot<G>> for Turns<G> {
    ghost use Rattle.sot_turn.specs.Kept.{Kept};
    ghost use Rattle.sot_turn.specs.Views.{idle};
    ghost use Rattle.std.specs.Prelude.{Some};

    ghost holds = { λ _. Kept G.ground G.entries };

    ghost first = { λ opening. idle (Some (G.ground opening.value)) (G.entries opening.value) };
}

pub(super) type Place<G> = Seat<Option<G>, View<<G as Journal>::Ground, <G as Journal>::Entry>>;

pub(super) type Top<G> = Shared<
    Option<G>,
    View<<G as Journal>::Ground, <G as Journal>::Entry>,
    Snapshot<G>,
    Turns<G>,
>;

pub(super) type Board<G> = Table<
    Option<G>,
    View<<G as Journal>::Ground, <G as Journal>::Entry>,
    Snapshot<G>,
    Turns<G>,
    Global,
>;
