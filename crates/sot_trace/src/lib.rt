//! The text of a history.
//!
//! [`put_trace`] puts a history line by line into any [`sot_text_output::Out`], and [`put_board`]
//! that of a board. The text tells the history: no other history of the same program has it.
//! [`put_plant_start`], [`put_entry`] and [`put_last_line`] put single lines, and [`put_input`],
//! [`put_firing`], [`put_decision`] and [`put_tick`] those of entries that stand in no history.
//! [`ticks_in`] and [`refused_in`] say what an entry adds to the last line, and [`put_counts`] puts
//! it for counts that were kept so. [`trace_text`], [`board_text`], [`put_start`] and
//! [`put_end_line`] make the same texts in memory. [`is_in_range`] says which mark a number has,
//! and [`digit`] and [`digit_below`] the texts of small ones.
#![tactic(auto)]

mod draft;
mod facts;
mod flown;
mod laws;
mod line;
mod memory;
mod moves;
mod name;
mod number;
mod start;
mod text;

pub use draft::is_in_range;
pub use facts::traces_are_as_stated;
pub use flown::put_board;
pub use laws::{flown_histories_are_told, text_tells_history};
pub use line::{
    put_decision, put_entry, put_firing, put_input, put_tick, refused_in, ticks_in, writes_of,
};
pub use memory::{board_text, put_end_line, put_start, trace_text};
pub use moves::put_move;
pub use name::{put_name, put_scalar_name};
pub use number::{digit, digit_below, put_count, put_number, put_numbers, put_time};
pub use start::put_plant_start;
pub use text::{put_counts, put_last_line, put_trace};
