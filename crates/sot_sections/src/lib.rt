//! The sections of a mission.
//!
//! [`split`] divides a mission into its program, certificate, flight and trace, which are slices of
//! its text. A line that begins with `%` is a section line. It takes no memory, and knows nothing
//! of what stands in a section.
#![tactic(auto)]

mod facts;
mod mission;

pub use facts::sections_are_as_stated;
pub use mission::{Need, SectionFault, SectionKind, Sections, split, title};
