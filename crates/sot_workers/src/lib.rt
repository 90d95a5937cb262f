//! The flying of a flight, from the start to its horizon.
//!
//! [`fly`] takes turns at a board with the workers of the nodes, each of which has a thread of its
//! own where the rule says so (src/rule.rt) and one can be made. In its turns the caller does all
//! else: the inputs, the decisions, the firings of the other nodes, and the ticks, wherever one may
//! come. [`fly_without_guests`] does the same where there are no guests, and [`fly_alone`] with no
//! worker at all. The clauses of the board say that each of these is a step of the semantics, as
//! the flight states it; that all of them together are a history of the flight is the clause here,
//! with what became of the guests.
#![tactic(auto)]

mod back;
mod crewed;
mod forms;
mod instant;
mod join;
mod lists;
mod nobody;
mod own;
mod place;
mod relief;
mod rings;
mod room;
mod rule;
mod seat;
mod start;
mod station;
mod watch;
mod whole;

pub use crewed::{Flown, fly};
pub use lists::NodeList;
pub use nobody::{Nobody, fly_without_guests};
pub use whole::fly_alone;
