//! What a bridge says of two missions that it does not fly is decided by its words and its bytes:
//! one text, which is that of the mission at fault or refused as `fly` of `soter` tells it.
//!
//! Nothing here runs: each law is a function with an empty body, whose contract is the law.
#![tactic(auto)]

mod laws;

pub use laws::{refused_once, refuses_like_fly, rejected_once};
