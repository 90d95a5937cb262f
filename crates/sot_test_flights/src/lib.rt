//! Tests of what no text can ask of flights: guests, boards that are stepped, and views that are
//! committed late.
//!
//! The proofs of the crates below say what their functions answer. Here stand missions with what a
//! person, or a program of somebody else, says of them, and each public function is called where it
//! succeeds.
#![tactic(auto)]

#[cfg(test)]
mod tests;
