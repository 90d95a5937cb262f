//! Regions for one module: boxes inside what must never be left, which the safe node keeps, boxes
//! from which any commands keep in them for a while, and cells that show the first.
#![tactic(auto)]

mod asked;
mod cells;
mod closing;
mod cover;
mod found;
mod growing;
mod levels;
mod module;
mod narrowing;
mod search;
mod seeds;
mod thin;
mod walks;

pub use found::{FoundRegions, RegionsFail};
pub use module::regions_of;
