//! Laws of a talk whose models are not trusted.
//!
//! Nothing here runs: each law is a function with an empty body, whose contract is the law.
#![tactic(auto)]

mod laws;

pub use laws::{
    asides_keep_trust, blind_ends_trust, distrust_lasts_until_a_resume,
    distrusted_instants_are_safe, distrusted_talks_are_in_mode_sc, end_of_trust_asks_safe_nodes,
    ignored_lines_change_nothing, line_is_distrusted, modes_stay_sc, outside_ends_trust,
    trust_ends_by_an_outside,
};
