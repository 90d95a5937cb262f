//! Tables that look the same mean the same.
//!
//! What certificates and flights say of a program, whether it is well certified and whether it
//! breaks a rule of typing depends neither on where the parts of its tables lie in memory nor on
//! where its parts stand in a text.
#![tactic(auto)]

mod facts;
mod laws;
mod places;

pub use facts::{forgetting_is_as_stated, the_line_is_one};
pub use laws::{
    certificates_say_alike, flights_say_alike, tables_are_certified_alike, verdicts_are_alike,
};
pub use places::{
    certificates_alike_but_for_places, certified_alike_but_for_places,
    formatted_programs_are_alike, tables_know_no_place, typing_knows_no_place,
};
