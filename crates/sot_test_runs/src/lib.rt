//! Certificates of the worked missions, and tests of the layers together: nodes and tubes, and how
//! worlds are stepped.
//!
//! Each certificate is made from the cells that are handed in, and fits the tables of its mission
//! whatever these are, so that a test can hand in cells that do not show what they should.
#![tactic(auto)]

mod certificates;

pub use certificates::{double_cert, line_cert, line_without_entry, nothing_to_certify, pair_cert};

#[cfg(test)]
mod tests;
