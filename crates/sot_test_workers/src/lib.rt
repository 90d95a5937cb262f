//! Tests of flights with guests: who waits for whom, what guests are asked, and what is put back.
//!
//! The proofs of the crates below say what is answered, if it is. Here it is seen that flights come
//! to their end, that guests run at once, and that time goes on while one of them is held.
#![tactic(auto)]

mod keeper;
#[cfg(test)]
mod tests;

pub use keeper::{Keeper, Kept};
