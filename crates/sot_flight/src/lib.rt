//! Flights: how long one is, where its plants start, which inputs come and when, and what drives
//! disturbances and drafts.
//!
//! [`read_flight`] answers with the flight of a program that the bytes say, or with their first
//! fault in the order of the format. What a flight states for a tick, and for a firing by its
//! number, is a function of the flight and the program's tables (`specs/Stated`): the readers here
//! equal it, and take no memory.
#![tactic(auto)]

mod counts;
mod crew;
mod crews;
mod drafts;
mod draws;
mod facts;
mod few_words;
mod flight;
mod hold;
mod input;
mod inputs;
mod keys;
mod laws;
mod lists;
mod noise;
mod ranges;
mod reading;
mod relay;
mod relaying;
mod rows;
mod sent;
mod spread;
mod starts;
mod sway;
mod sways;

pub use crew::CrewKind;
pub use facts::{
    draws_are_as_stated, flight_faults_are_as_stated, flights_are_as_stated, rows_are_as_stated,
};
pub use flight::Flight;
pub use input::Given;
pub use laws::{stated_drafts_are_of_their_nodes, stated_noise_is_in_bounds};
pub use reading::{FlightFail, read_flight};
pub use sent::Sent;
pub use spread::Spread;
pub use sway::SwayKind;
