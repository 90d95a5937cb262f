//! The rows of the tables, and their lists.
pub mod lists;
pub mod parts;
pub mod range;
pub mod region;
pub mod rows;
pub mod topic;
