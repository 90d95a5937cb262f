//! Runs whose plants are observed, and the laws that make them as safe as runs.
//!
//! Nothing here runs: each law is a function with an empty body, whose contract is the law.
#![tactic(auto)]

mod laws;

pub use laws::{
    observed_runs_are_safe, observed_steps_keep_tubes, runs_are_observed, tubes_are_safe,
};
