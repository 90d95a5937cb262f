//! The words of a generator with a seed on a stream, one definition for whatever draws them.
//!
//! Nothing here runs: the one function has an empty body, and its contract is a law.
#![tactic(auto)]

mod laws;

pub use laws::words_follow;
