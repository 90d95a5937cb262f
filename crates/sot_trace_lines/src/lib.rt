//! The lines of a trace, read.
//!
//! [`Lines`] lends the lines of a text, and [`read_line`] reads one line as a line of a trace: what
//! it spells, whether it is true of a flight or not; [`read_front`] stops where a firing's node is
//! known. [`is_line_of`] tells whether a line is that of an entry.
#![tactic(auto)]

mod entry;
mod front;
mod laws;
mod line;
mod lines;
mod moves;
mod name;
mod piece;
mod read;
mod row;
mod slot;
mod start;

pub use entry::is_line_of;
pub use front::read_front;
pub use laws::{entries_are_spelled, lines_spell_once};
pub use line::{Line, LineFront};
pub use lines::Lines;
pub use moves::move_front;
pub use name::{Word, keeps_rules, word_at};
pub use piece::behind;
pub use read::{read_fire, read_input, read_line};
pub use row::{Row, row_at};
pub use start::is_start_line;
