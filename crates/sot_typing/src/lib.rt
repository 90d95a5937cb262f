//! The tables of a program, or the first rule of typing that it breaks.
#![tactic(auto)]

mod code;
mod facts;
mod laws;
mod names;
mod program;
mod tables;

pub use facts::tables_are_as_stated;
pub use laws::tables_meet_their_rules;
pub use program::resolve;
