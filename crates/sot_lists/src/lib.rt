//! Lists and their places: what stands at a place, what is in a list, and the lemmas on both that
//! every crate needs.
#![tactic(auto)]

mod facts;

pub use facts::{members_are_as_stated, places_are_as_stated};
