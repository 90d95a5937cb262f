//! A node's body as short lists of small instructions over numbered places, for bodies that run
//! long. What it drafts is what `sot_code` gives, which stays the definition.
#![tactic(auto)]

mod block;
mod compute;
mod constants;
mod flat;
mod form;
mod instruction;
mod room;
mod scaling;
mod shape;
mod step;
mod term;
mod unfit;
mod walk;

pub use flat::Flat;
pub use form::form_of;
pub use unfit::Unfit;
