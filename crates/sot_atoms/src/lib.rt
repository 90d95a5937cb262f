//! Atoms: the hull of a region cut into small boxes of one grain, and sets of them. Nothing here
//! knows plants or programs, and only a new set takes memory.
#![tactic(auto)]

mod axis;
mod block;
mod grid;
mod rows;
mod set;
mod sums;

pub use axis::Axis;
pub use block::{Block, BlockHalves, Stretch, atoms_in, halves_of};
pub use grid::{Grid, MOST_ATOMS};
pub use set::AtomSet;
pub use sums::Sums;
