//! Least intervals of expressions, bodies and plant ticks.
#![tactic(auto)]

mod body;
mod bounds;
mod drafted;
mod ends;
mod laws;
mod may_trap;
mod node;
mod operators;
mod plant;
mod ranges;
mod term;

pub use bounds::{put_front, put_locals, put_types, safe_hull, scalar_side, seen_hulls};
pub use drafted::{Drafted, IvDraft};
pub use laws::{
    intervals_are_monotone, intervals_are_unique, intervals_hold_all_points, worked_evaluations,
    worked_intervals,
};
pub use may_trap::MayTrap;
pub use node::iv_node;
pub use plant::{iv_plant, iv_plant_over, put_plant_ranges};
pub use ranges::Ranges;
pub use term::iv_term;
