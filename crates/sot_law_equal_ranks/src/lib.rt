//! Tables that look the same have the same ranks, and leave the same points out.
//!
//! Nothing here runs: each law is a function with an empty body, whose contract is the law.
#![tactic(auto)]

mod laws;

pub use laws::{modules_have_one_answer, ranks_are_alike};
