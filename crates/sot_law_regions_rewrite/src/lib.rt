//! A program with other regions: it is formed, its canonical text is read back, and nothing but its
//! regions is another.
#![tactic(auto)]

mod laws;

pub use laws::{
    canonical_texts_with_regions_are_read_back, nothing_but_regions_changes,
    programs_with_regions_stay_faultless, programs_with_regions_stay_formed,
    tables_have_the_regions,
};
