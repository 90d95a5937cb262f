//! How a program ends.

/// The exit status of a program, from 0 to 7.
#[derive(Clone, Copy, Debug, PartialEq, Eq)]
pub struct Status(pub u8);
