//! The greatest set of atoms of a safe region of each of which the held tube stays in the set.
#![tactic(auto)]

mod ask;
mod boxes;
mod held;
mod inside;
mod stays;
mod sweeps;
mod tiles;
mod tube;
mod walk;

pub use ask::{ModuleAsk, may_ask};
pub use boxes::held_boxes;
pub use held::held_tube;
pub use inside::atoms_of;
pub use stays::{Among, any_stays, held_lands, held_may_land, held_stays};
pub use sweeps::{closed_atoms, greatest};
pub use tube::TubeInAtoms;
