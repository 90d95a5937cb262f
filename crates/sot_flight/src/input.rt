//! Inputs of a flight.

/// An input: the time at which it comes, its topic, and a number for each scalar of the topic, a
/// mantissa at its scale.
#[derive(Clone, Copy)]
pub struct Given<'f> {
    pub at: u32,
    pub topic: u32,
    pub value: &'f [i64],
}

// An input as a flight keeps it.
#[derive(Drop)]
pub(crate) struct Input {
    pub(crate) at: u32,
    pub(crate) topic: u32,
    pub(crate) value: Vec<i64>,
}
