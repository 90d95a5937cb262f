//! Tubes of boxes that hold each point a plant can come to, and what a certificate of such boxes
//! shows of a program.
#![tactic(auto)]

mod accepted;
mod cover;
mod facts;
mod keep;
mod laws;
mod leave;
mod tube;
mod walk;

pub use accepted::Accepted;
pub use facts::{line_is_certified, refusals_are_as_stated, tubes_are_as_stated};
pub use keep::{box_at, keeps};
pub use laws::{
    certified_is_well_formed, composed_by_scalars, covered_cells_never_trap, safer_points_are_kept,
    tubes_hold_the_reach, tubes_leave_in_one_way, verdicts_are_exact,
};
pub use leave::Leave;
pub use tube::{any_inside, held_inside};
