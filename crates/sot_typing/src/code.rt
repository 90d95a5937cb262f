//! Expressions, statements and bodies with places for names.
pub mod acts;
pub mod bodies;
pub mod terms;
