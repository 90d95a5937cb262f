//! Tables that look the same have the same histories of flights: what a flight does does not depend
//! on where the parts of its program's tables lie in memory.
#![tactic(auto)]

mod laws;

pub use laws::histories_are_alike;
