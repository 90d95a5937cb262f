//! The lock, its passes, and the value while a pass has the turn.
ghost use Rattle.std.specs.Prelude.{◌≡◌, true, false, [], ◌∷◌, None, IsSome};

use sot_turn_journal::Journal;
use std::marker::PhantomData;

mod calls;
mod lend;
mod rule;
mod seats;
mod steps;

use rule::{Board, Place};

/// A value that is taken in turns.
#[derive(Drop)]
pub struct Turn<G: Journal + Drop> {
    board: Board<G>,
    ghost sized: { (board.shared.table_id.words ≡ 3) × (board.shared.table_id.slots ≡ 1) },
}

/// A right to take turns. It knows the ground, and how much of the list its owner has seen.
#[derive(Drop)]
pub struct Pass<G: Journal> {
    place: Place<G>,
    ghost empty: { place.me.1 ≡ [] },
    ghost idle: { (place.me.0.ticket ≡ None) × (place.me.0.turn ≡ false) },
    ghost grounded: { IsSome place.me.0.own_ground },
}

// A seat that has the turn, with the slot taken and nothing in it.
struct Served<G: Journal> {
    place: Place<G>,
    ghost taken: { place.me.1 ≡ (0, None) ∷ [] },
    ghost served: { place.me.0.turn ≡ true },
}

/// The value, while its holder has the turn. It can only be given back.
pub struct Held<'a, G: Journal> {
    served: Served<G>,
    value: G,
    lock: PhantomData<&'a ()>,
}
