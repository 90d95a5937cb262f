//! What the formats say of JSON values: small readers of values, each with its first fault as a
//! path and a kind.
//!
//! A fault is told as it stands from the value that is read; who reads a part puts the part's name
//! before its path. The words that say what a value says are public, for the formats above.
#![tactic(auto)]

mod fault;
mod path;
mod value;

pub use fault::{JsonFail, JsonFault, JsonKind};
pub use path::Path;
pub use value::{
    count_of, fault_at, fault_under, fault_under_index, has_only, member_of, needed, part_of,
    two_of, value_of, whole_of,
};
