//! The summary of a flown history.
//!
//! [`board_summary`] counts what happened on a board, and [`summary_text`] is the line that says
//! it.
#![tactic(auto)]

mod count;
mod entry;
mod facts;
mod flown;
mod fronts;
mod laws;
mod outside;
mod sum;
mod summary;
mod text;

pub use facts::summaries_are_as_stated;
pub use flown::board_summary;
pub use laws::{
    region_tests_are_exact, safe_flights_stay_inside, whole_flights_tick_to_the_horizon,
};
pub use summary::Summary;
pub use text::summary_text;
