//! What came of waiting for a line.

/// What came of waiting for a line.
#[derive(Clone, Copy, Debug, PartialEq, Eq)]
pub enum Waited {
    /// A whole line, with so many bytes up to its line end.
    Line(usize),
    /// The source is at its end. What waits is a last line without a line end, or nothing.
    Last,
    /// So many bytes wait without a line end as no line may have.
    TooLong,
}
