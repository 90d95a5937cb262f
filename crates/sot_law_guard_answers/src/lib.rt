//! What a guard answers to a robot is decided by its program, by where the plants were observed
//! first, and by the lines of the robot.
//!
//! Nothing here runs: each law is a function with an empty body, whose contract is the law.
#![tactic(auto)]

mod laws;

pub use laws::{lines_are_answered_once, starts_are_heard_once, talks_begin_once};
