//! What one board sends to another.

use sot_lang::Draft;

/// A value of a topic, as it is sent: the time at which it was published, and a number for each
/// scalar of the topic, a mantissa at its scale, in the first slots.
#[derive(Clone, Copy, Debug)]
pub struct Sent {
    pub at: u32,
    pub value: Draft,
}
