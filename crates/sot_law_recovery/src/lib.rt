//! Worked facts of ranks: of a module whose rank is 2, and of the holds that show it.
//!
//! Nothing here runs: each fact is a function with an empty body, whose contract is the fact.
#![tactic(auto)]

mod facts;

pub use facts::{the_rank_is_two, two_holds_are_needed};
