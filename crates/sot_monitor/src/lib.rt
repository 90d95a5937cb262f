//! Does a formula hold, moment by moment, by one number for each of its parts?
//!
//! A [`Monitor`] is made of a formula's text, and stands for a list of moments. A step adds what
//! can be looked at now ([`Looks`]), and says whether the formula holds then. No moment is kept.
//! [`watch`] finds the first moment of a flight's history at which a formula fails.
#![tactic(auto)]

mod laws;
mod looks;
mod monitor;
mod over;
mod seen;
mod stepping;

pub use laws::moments_are_the_runs;
pub use looks::Looks;
pub use monitor::Monitor;
pub use over::watch;
pub use seen::AtScene;
pub use sot_formula::MonitorFail;
