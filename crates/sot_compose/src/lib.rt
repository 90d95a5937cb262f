//! Whether a program is accepted with its certificate.
//!
//! [`check_all`] tests all fifteen conditions of a certificate in order: how the modules are put
//! together, the shape of each, each coded node, and the cells of each module. It accepts exactly
//! where all of them hold, and else gives the first that fails with its evidence. The conditions of
//! one module stand in `sot_rta`, what they show of runs in `sot_tube` and `sot_world`.
#![tactic(auto)]

mod check;
mod clash;
mod composition;
mod frames;
mod looked;
mod ordered;
mod outputs;
mod parts;

pub use check::{check_all, check_all_cells, check_codes};
pub use composition::check_composition;
pub use frames::check_without_cells;
pub use looked::LookedAt;
