//! Declarations: the faults of each kind, and of their parts.
pub mod behind;
pub mod kind;
pub mod limit;
pub mod module;
pub mod next;
pub mod node;
pub mod plant;
pub mod range;
pub mod region;
pub mod topic;
