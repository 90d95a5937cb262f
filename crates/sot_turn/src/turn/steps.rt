//! What each kind of step tells the seat that makes it. The two that move the value by `exchange`
//! tell nothing.
ghost use Rattle.sot_turn.specs.Views.{idle, joined, spent};
ghost use Rattle.sot_turn.specs.Steps.{draws, looks, announces, passes};

use crate::turn::rule::View;
use atomic_table::{Join, Play, Split};
use sot_turn_journal::Journal;
use std::marker::PhantomData;

/// Draws a ticket: a compare-exchange of word 0 from a number to the next.
pub(super) struct Draw;

impl<Slot, Ground, Entry> Play<Slot, View<Ground, Entry>> for Draw {
    ghost then = { draws };
}

/// Looks at the word served: a load of word 1.
pub(super) struct Look<G> {
    value: PhantomData<G>,
}

impl<G: Journal> Play<Option<G>, View<G::Ground, G::Entry>> for Look<G> {
    ghost then = { looks G.ground G.entries };
}

/// Announces the new length: a store to word 2.
pub(super) struct Announce<G> {
    value: PhantomData<G>,
}

impl<G: Journal> Play<Option<G>, View<G::Ground, G::Entry>> for Announce<G> {
    ghost then = { announces G.entries };
}

/// Passes the turn: a fetch-add of 1 to word 1.
pub(super) struct PassOn;

impl<Slot, Ground, Entry> Play<Slot, View<Ground, Entry>> for PassOn {
    ghost then = { passes };
}

/// Splits a seat, or joins one to another: a load of word 0.
pub(super) struct Pair;

impl<Ground, Entry> Split<View<Ground, Entry>> for Pair {
    ghost left = { λ view. view };

    ghost right = { λ view. idle view.own_ground view.seen };
}

impl<Ground, Entry> Join<View<Ground, Entry>> for Pair {
    ghost both = { joined };

    ghost spent = { spent };
}
