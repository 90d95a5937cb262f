//! The canonical text of a program.
#![tactic(auto, using(crate::proofs::Laying::laying))]

mod clause;
mod declaration;
mod expression;
mod facts;
mod gap;
mod laws;
mod leaf;
mod numeral;
mod program;
mod statement;

pub use facts::{declarations_are_as_stated, expressions_are_as_stated};
pub use gap::Gap;
pub use laws::{canonical_words_are_read_back, words_are_read_back};
pub use program::print;
