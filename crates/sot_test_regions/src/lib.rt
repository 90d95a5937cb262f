//! Tests of what a maker of regions stands on: atoms and sets of them, tubes beside sets, and
//! programs with other regions.
#![tactic(auto)]

#[cfg(test)]
mod tests;
