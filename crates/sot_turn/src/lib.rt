//! A lock over a value whose list only grows.
//!
//! A [`Turn`] holds a value that stands for a ground, which never changes, and for a list, which
//! only grows (a [`Journal`]). Whoever has a [`Pass`] can take a turn: it waits for its ticket to
//! be served, and then has the value until it gives it back. A pass knows the ground, and how much
//! of the list its owner has seen; each value that it takes has that ground, and a list that goes
//! on from there. So all passes speak of one history.
//!
//! Only [`Turn::new`] takes memory. Nobody promises that a waiting pass is ever served.
#![tactic(auto)]

mod turn;

pub use sot_turn_journal::Journal;
pub use turn::{Held, Pass, Turn};
