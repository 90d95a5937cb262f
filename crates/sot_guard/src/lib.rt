//! A decision module beside a real plant.
//!
//! A [`Guard`] is a mission that is decided and fired beside plants whose states are observed. A
//! [`Session`] is a guard with what was said to it in this instant, and in which turn.
#![tactic(auto)]

mod begin_fail;
mod blank;
mod decide;
mod due;
mod enabled;
mod facts;
mod fire;
mod guard;
mod hear;
mod held;
mod instant;
mod laws;
mod misheard;
mod outside;
mod put;
mod session;
mod told;
mod turn;

pub use begin_fail::BeginFail;
pub use facts::line_is_observed;
pub use guard::{Guard, LAST_TIME};
pub use instant::go;
pub use laws::{
    held_starts_keep_tubes, opens_runs_at_zero, safer_starts_are_held_safe,
    trust_comes_back_by_a_resume, trusted_sessions_are_observed, trusted_sessions_are_safe,
};
pub use misheard::Misheard;
pub use outside::{Outside, first_outside};
pub use session::Session;
pub use told::Told;
pub use turn::SessionEvent;
