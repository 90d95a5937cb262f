//! Boards that are flown in order: in each instant the inputs, then the decisions, then the
//! firings, each in declared order, and then the tick.
//!
//! The type of an [`OrderedBoard`] keeps that its history is in order. Each call that changes it
//! asks that its event may come next. [`next_to_fire`] says which node that is.
#![tactic(auto)]

mod calls;
mod journal;
mod laws;
mod next;
mod ordered;

pub use laws::{one_history_in_order, ordered_are_flown};
pub use next::next_to_fire;
pub use ordered::OrderedBoard;
