//! What a printed trace tells of a mission: the names of a program that a text spells are words, so
//! that each trace of a mission's flight is the trace of one history alone.
#![tactic(auto)]

mod laws;

pub use laws::{names_are_words, traces_are_of_one_history};
