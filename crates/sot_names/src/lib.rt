//! Names, and tables and sets of them that no text makes slow.
#![tactic(auto)]

mod hasher;
mod named;
mod set;
mod table;

pub use hasher::{NameHasher, NameKey, NameKeys, NameMap, hasher_beyond_few, hasher_of};
pub use named::{Named, are_same, declared_name};
pub use set::{FEW, NameSet, add_names, has_name, insert_name, no_name};
pub use table::add_value;
