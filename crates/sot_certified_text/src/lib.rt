//! The text of a certified program, and what follows when it is read again.
//!
//! [`certificate_line`] writes a certificate as one line of JSON, which a reader of certificates
//! reads back; [`mission_with_jitter`] writes the whole mission, and [`mission_text`] that of a
//! certificate without jitter. [`fail_text`] says why there is none. The laws say that no line of a
//! program's canonical text is a section line, that the whole divides into its sections, and that
//! it is accepted when it is read again.
#![tactic(auto)]

mod facts;
mod fail_line;
mod laws;
mod line;
mod plain;
mod read_again;
mod value;
mod whole;

pub use facts::lines_are_as_stated;
pub use fail_line::fail_text;
pub use laws::{
    certificate_lines_are_plain, certificate_lines_read_back, certificates_read_back,
    certified_texts_divide, certified_texts_say, line_ends_change_no_json,
    made_certificates_are_writable, tables_have_short_regions, texts_with_jitter_divide,
};
pub use line::{certificate_json, certificate_line};
pub use plain::{canonical_texts_are_plain, certificates_stand_behind};
pub use read_again::{
    made_certificates_are_for_programs, missions_with_jitter_are_certified,
    missions_with_jitter_are_not_refused, texts_with_jitter_have_no_fault,
    written_missions_are_certified, written_missions_are_not_refused, written_texts_have_no_fault,
};
pub use whole::{mission_text, mission_with_jitter};
