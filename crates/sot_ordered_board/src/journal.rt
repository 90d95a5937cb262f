//! A board in order as a list that only grows.

use crate::ordered::OrderedBoard;
use sot_board::HistoryEntry;
use sot_flight::Flight;
use sot_tube::Accepted;
use sot_turn_journal::Journal;

/// The ground, which never changes, is the accepted program with its certificate, and the flight;
/// the list is the history.
impl<'a> Journal for OrderedBoard<'a> {
    type Ground = (Accepted<'a>, Flight);

    type Entry = HistoryEntry<'a>;

    ghost ground = { λ b. (b.accepted, b.plan) };

    ghost entries = { λ b. b.entries };

    fn len(&self) -> u64 {
        self.board.history().len() as u64
    }
}
