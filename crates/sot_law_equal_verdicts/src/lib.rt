//! Tables that look the same are certified and refused alike: whether a certificate is made, which
//! cells it has, and else why there is none, does not depend on where the parts of the tables lie
//! in memory. Modules with the same plant and the same safe node run alike.
#![tactic(auto)]

mod laws;
mod module_laws;

pub use laws::{
    answers_are_alike, cells_are_made_alike, entries_are_made_alike, fails_are_alike,
    refusals_are_alike, tables_certify_alike,
};
pub use module_laws::{modules_run_alike, modules_stay_alone};
