//! Answers of a program: a status with a text, and how it is written.
//!
//! A program is called by [`run_program`] with the words behind its name and the standard streams.
//! It reads its input by [`read_input`], comes to an [`Answer`], and writes it by [`say`], which
//! gives the status. [`faulty`], [`refused`] and [`outside`] are the answers that every program
//! gives to a text at fault, to a refused mission, and to plants that start outside.
#![tactic(auto)]

mod answer;
mod arguments;
mod input;
mod outside_start;
mod program;
mod saying;
mod status;

pub use answer::{Answer, faulty, fixed, refused};
pub use input::{INPUT_LIMIT, read_input, too_long};
pub use outside_start::{outside, outside_line};
pub use program::run_program;
pub use saying::{or_memory, say};
pub use status::Status;
