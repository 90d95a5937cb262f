//! Whether one module of a program meets what its certificate claims.
#![tactic(auto)]

mod cells;
mod commands;
mod draft;
mod many;
mod places;
mod refusal;
mod shape;
mod topics;

pub use cells::{check_cells, check_closed_cell, check_reach_cell, held_commands};
pub use commands::put_commands;
pub use draft::cell_draft;
pub use places::{module_at, node_at, plant_at};
pub use refusal::Refusal;
pub use shape::{check_nodes, check_regions, check_shape};
pub use topics::{are_some_of, first_missing};
