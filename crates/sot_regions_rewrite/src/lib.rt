//! A program with other regions.
//!
//! [`with_regions`] gives each module of a program new boxes for `safe` and `safer`, written as the
//! first box of its own `safe` is, and leaves all else as it was.
#![tactic(auto)]

mod boxes;
mod modules;
mod program;

pub use modules::ModuleRegions;
pub use program::with_regions;
