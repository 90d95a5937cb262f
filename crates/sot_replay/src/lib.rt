//! Replay: whether lines are the trace of a flight.
//!
//! [`replay`] flies a board along the lines: each is read, tested, and compared with the line of
//! the entry that the board then has.
#![tactic(auto)]

mod bounds;
mod counts;
mod decision;
mod desk;
mod end;
mod entry_line;
mod facts;
mod fail;
mod firing;
mod follow;
mod input;
mod judge;
mod judged;
mod laws;
mod missing;
mod now;
mod opening;
mod ranges;
mod read_on;
mod tick;
mod whole;

pub use facts::{lines_are_as_stated, lines_of_the_vehicle_are_as_stated};
pub use fail::{LineKind, ReplayFail};
pub use laws::{
    failing_lines_stop, first_lines_are_refused, lines_are_refused_once, lines_are_traced_once,
    next_lines_go_on, told_lines_go_on, traces_are_not_refused,
};
pub use whole::replay;
