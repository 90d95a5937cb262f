//! The lines of a talk.
//!
//! [`read_said`] reads one line of a robot: where a plant was observed first, a value that came
//! from outside, what an external node drafts, that an instant is over, that the models are to be
//! trusted again, or where all plants were observed after a tick. Names and numbers are spelled as
//! in a trace. [`numbers_of_lines`] takes the memory that all lines need, before the first.
//! [`put_outline`] writes what a robot has to know of the program.
//! [`put_hold`], [`put_ready`], [`put_outside`], [`put_resumed`], [`put_refused_resume`] and
//! [`put_end`] write what the decision module says beside the lines of a trace.
#![tactic(auto)]

mod facts;
mod hold;
mod laws;
mod numbers;
mod outline;
mod place;
mod read;
mod ready;
mod resumed;
mod said;
mod told;

pub use facts::lines_are_as_stated;
pub use hold::put_hold;
pub use laws::lines_say_once;
pub use numbers::numbers_of_lines;
pub use outline::put_outline;
pub use read::read_said;
pub use ready::{put_begins, put_ready};
pub use resumed::{put_refused_resume, put_resumed};
pub use said::Said;
pub use told::{put_end, put_outside};
