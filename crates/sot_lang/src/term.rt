//! Expressions whose names are places.

use sot_syntax_tree::{Func, Op};
use sot_text::Span;

/// An expression whose names are places: of a node its read slots and then its locals; of a plant
/// its state variables, its inputs, the states of the plants that it sees, and its disturbances, in
/// this order.
#[derive(Drop)]
pub enum Term {
    /// A literal's mantissa, or 0 or 1 for a truth value.
    Number(i64),
    Place(u32),
    Binary {
        op: Op,
        left: Box<Term>,
        right: Box<Term>,
        at: Span,
    },
    /// The rest of a division by a number above 0.
    Rest {
        left: Box<Term>,
        by: i64,
        at: Span,
    },
    Neg {
        part: Box<Term>,
        at: Span,
    },
    Not {
        part: Box<Term>,
        at: Span,
    },
    Call {
        func: Func,
        parts: Vec<Term>,
        at: Span,
    },
    /// A change of scale, from one count of decimals to another, both at most 6.
    Rescale {
        part: Box<Term>,
        from: u8,
        to: u8,
        at: Span,
    },
    If {
        cond: Box<Term>,
        yes: Box<Term>,
        no: Box<Term>,
        at: Span,
    },
}
