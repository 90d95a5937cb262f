//! Held regions: those whose points' held tubes stay in them, as the tubes of each region with a
//! certificate do. Nothing here runs.
#![tactic(auto)]

mod laws;

pub use laws::{certified_regions_are_held, held_regions_stay_held, none_is_certified};
