//! Names: what they mean, and the places that they stand for.
pub mod gather;
pub mod lookup;
pub mod numbers;
pub mod places;
pub mod things;
