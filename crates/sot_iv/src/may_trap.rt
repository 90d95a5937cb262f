//! Where an interval evaluation stops.

use sot_lang::TrapKind;
use sot_text::Span;

/// Where an interval evaluation meets operands of which some trap, with the interval of the
/// divisor, of the result or of the assigned value.
#[derive(Clone, Copy, Debug, PartialEq, Eq)]
pub struct MayTrap {
    pub at: Span,
    pub kind: TrapKind,
    pub lo: i128,
    pub hi: i128,
}
