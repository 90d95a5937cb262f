//! Nodes whose executions never trap.
//!
//! [`trap_free`] evaluates the body of a coded node over intervals: topics and locals anywhere in
//! their declared ranges, plants anywhere in the hulls of their safe regions. Where that succeeds,
//! no execution of the node traps while every plant is in its safe region; else the answer is the
//! first operands or target of which some trap. The definition of both stands in `sot_iv`.
#![tactic(auto)]

mod facts;
mod readings;
mod verdict;

pub use facts::trap_free_nodes_never_trap;
pub use readings::slot_side;
pub use verdict::trap_free;
