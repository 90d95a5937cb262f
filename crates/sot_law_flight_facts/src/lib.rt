//! Worked facts and a law that tie down what flights, boards, histories and traces mean.
//!
//! When a view is current, what a flight states and which flights fit, which entries write a topic,
//! what the last line of a trace counts, what a whole history has to tell of each node and module,
//! and a flight of the running example.
#![tactic(auto)]

mod facts;
mod laws;
mod worked;

pub use facts::line_is_flown;
pub use laws::whole_flights_fire_all_that_is_due;
pub use worked::{
    flights_count_up_to_their_limits, flights_fit_as_stated, marks_are_counted,
    stated_values_are_as_stated, versions_count_writes, views_are_current_by_versions,
};
