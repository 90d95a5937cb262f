//! What is said of the recovery of an accepted program's modules.
//!
//! [`put_recovery`] asks of one module after another within how many holds it recovers, and has a
//! line for each; those that never do come first. The law says that this leaves no choice: tables
//! that look the same are told the same.
#![tactic(auto)]

mod laws;
mod lines;

pub use laws::recoveries_are_told_once;
pub use lines::put_recovery;
