//! What follows of the askings of a flight's guests and of the lists of drafts, and worked askings
//! that a wrong definition would answer otherwise.
#![tactic(auto)]

mod facts;
mod laws;

pub use facts::{askings_fit_as_stated, lists_are_as_stated};
pub use laws::{
    askings_give_drafts, guests_are_answered, lists_are_the_drafts, what_was_seen_is_recent,
};
