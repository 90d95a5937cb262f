//! What follows for the histories of flights.
//!
//! Each is a run of the program, it tells what its flight states, of an accepted program's flight
//! from inside the safer regions each position is safe, and each history so far is the beginning of
//! a whole one.
#![tactic(auto)]

mod completion;
mod facts;
mod laws;

pub use completion::{flights_can_be_completed, histories_can_be_completed, possible_has_a_step};
pub use facts::counts_are_as_stated;
pub use laws::{
    beginnings_are_histories, decisions_tell_modes, drafts_are_stated,
    firings_tell_whether_enabled, flown_positions_are_safe, histories_are_runs,
    inputs_are_the_flights, ticks_are_stated, ticks_are_the_time, ticks_tell_states,
};
