//! Which formula does a text spell, for a program?
//!
//! [`read`] makes of a formula's text the list of its parts, each behind its own parts, with
//! references found in the program's tables; or it says why there is no such formula.
#![tactic(auto)]

mod fail;
mod finding;
mod laid;
mod laws;
mod quantity;
mod reading;
mod what;
mod whole;
mod words;

pub use fail::MonitorFail;
pub use laws::causes_exclude_each_other;
pub use quantity::{Comparison, Pairing, Quantity};
pub use what::What;
pub use whole::read;
