//! Tests of flights with guests through the top call: what is written, what the guests were asked,
//! and that it is legal.
//!
//! Here it is seen that whatever guests draft, flights come to their end, and the plant stays
//! inside its safe region.
#![tactic(auto)]

#[cfg(test)]
mod tests;
