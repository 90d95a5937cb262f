//! Why something is not taken.

/// Why what was heard is not taken. Nothing has changed then. Where more than one holds, the first
/// in this order is told.
#[derive(Clone, Copy, Debug, PartialEq, Eq)]
pub enum Misheard {
    /// It may not come in this turn.
    OutOfTurn,
    /// A tick at the last time, 10^12.
    TooFar,
    /// It names what is not there or is of another sort, or has another count of numbers.
    NotALine,
    /// A draft of a node that is not due now; or a resume where the models are trusted.
    NotDue,
    /// A second draft of a node in one instant.
    AlreadyDrafted,
    /// A number of an input is outside its scalar's range.
    OutsideType,
    /// A resume where the plants were not observed at this time.
    NotSeen,
}
