//! What a formula's text means for a program is one formula.
//!
//! Nothing here runs: the law is a function with an empty body, whose contract is the law.
#![tactic(auto)]

mod laws;

pub use laws::texts_mean_once;
