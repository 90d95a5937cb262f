//! A board as a list that only grows.

use crate::board::Board;
use sot_flight::Flight;
use sot_tube::Accepted;
use sot_turn_journal::Journal;
use sot_world::Entry;
use std::marker::Model;

/// An entry of a history, whose value for contracts is the recorded event itself.
#[derive(Drop)]
pub struct HistoryEntry<'h> {
    entry: Entry<'h>,
}

impl<'h> Model for HistoryEntry<'h> {
    ghost use Rattle.sot_world.specs.HistoryEntry.{Logged};
    ghost use Rattle.sot_world.specs.Histories.{entry_of};

    ghost Value = { Logged };

    ghost view = { λ it. entry_of it.entry };
}

/// The ground, which never changes, is the accepted program with its certificate, and the flight;
/// the list is the history.
impl<'a> Journal for Board<'a> {
    type Ground = (Accepted<'a>, Flight);

    type Entry = HistoryEntry<'a>;

    ghost ground = { λ b. (b.accepted, b.plan) };

    ghost entries = { λ b. b.entries };

    fn len(&self) -> u64 {
        self.history().len() as u64
    }
}
