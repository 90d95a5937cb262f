//! Why no monitor is made of a text.

/// Why no monitor is made of a text: the first of these that holds.
#[derive(Clone, Copy, Debug, PartialEq, Eq)]
pub enum MonitorFail {
    /// The bytes are more than 16,777,216, or the text of no formula of at most 64 levels.
    Form,
    /// A reference names no scalar, state or module.
    Unknown,
    /// A comparison has two scales.
    ScaleDiffers,
    Memory,
}
