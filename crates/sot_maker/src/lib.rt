//! Missions that are made from two numbers.
//!
//! [`make`] gives the text of a mission of so many modules, each of them a vehicle on a line with
//! an advanced node whose drafts are random, and with a safe node. The seed decides when their
//! parts are due, how the plants are disturbed, and what is drafted.
#![tactic(auto)]

mod declarations;
mod facts;
mod laws;
mod member;
mod mission;
mod offsets;
mod order;

pub use facts::{missions_are_as_stated, offsets_are_as_stated, orders_are_as_stated};
pub use laws::{made_texts_are_short, no_two_are_due_together};
pub use mission::make;
