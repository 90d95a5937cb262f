//! The canonical text of a program is a text of the language, and spells that program; and what a
//! text spells is formed.
#![tactic(auto)]

mod facts;
mod laws;

pub use facts::sameness_is_as_stated;
pub use laws::{
    canonical_texts_are_printed_again, canonical_texts_are_read_back,
    canonical_texts_tell_programs_apart, same_programs_have_one_text, spelled_programs_are_formed,
};
