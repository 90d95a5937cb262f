//! Names: what they mean, and which of them an owner may use.
pub mod behind;
pub mod gather;
pub mod index;
pub mod meaning;
pub mod owner;
pub mod repeats;
pub mod scope;
pub mod things;
