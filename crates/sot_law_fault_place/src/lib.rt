//! Where the text of a program is at fault: the place at which reading stops is the one that the
//! grammar alone gives.
#![tactic(auto)]

mod laws;

pub use laws::{
    deep_comes_before, exact_places_are_one, exact_places_exist, places_are_exact,
    programs_have_no_fault, texts_are_only_deep,
};
