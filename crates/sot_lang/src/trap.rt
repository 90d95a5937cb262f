//! Traps: where and why an evaluation stops.

use sot_text::Span;

/// Why an evaluation stops.
#[derive(Clone, Copy, Debug, PartialEq, Eq)]
pub enum TrapKind {
    /// A divisor is 0.
    ZeroDivisor,
    /// A result does not fit 64 bits.
    Wide,
    /// A value lies outside its target's declared range.
    OutsideRange,
}

/// A trap, at the operator's or call's token, or at the name of the target of an assignment or
/// publication.
#[derive(Clone, Copy, Debug, PartialEq, Eq)]
pub struct Trap {
    pub at: Span,
    pub kind: TrapKind,
}
