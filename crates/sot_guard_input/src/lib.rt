//! The input of a talk: its mission, and then its lines, each as soon as it is there.
//!
//! Who answers line by line must not ask a source for more before the last line is answered: a
//! [`LineBuffer`] and the [`Ear`] above it ask only where no whole line waits. Their room is fixed
//! and taken when they are made, so that reading takes no memory. [`read_front`] reads the text up
//! to the line `%observed`.
#![tactic(auto)]

mod buffer;
mod ear;
mod first;
mod front;
mod piece;
mod room;
mod title;
mod waited;

pub use buffer::LineBuffer;
pub use ear::{Ear, Next};
pub use front::{MissionFront, read_front};
pub use piece::FrontFail;
pub use waited::Waited;
