//! Parts of formulas.

use crate::quantity::{Comparison, Pairing, Quantity};

/// What a part of a formula is, by the places of its own parts, which stand before it.
#[derive(Clone, Copy)]
pub enum What {
    Truth(bool),
    /// A quantity is compared with a mantissa at its scale.
    Compared {
        of: Quantity,
        by: Comparison,
        number: i64,
    },
    /// Two quantities of one scale are compared.
    Against {
        of: Quantity,
        by: Comparison,
        other: Quantity,
    },
    /// Two quantities of one scale are taken together, and compared with a mantissa at it.
    Paired {
        first: Quantity,
        pairing: Pairing,
        second: Quantity,
        by: Comparison,
        number: i64,
    },
    Not(usize),
    And {
        first: usize,
        second: usize,
    },
    Or {
        first: usize,
        second: usize,
    },
    /// The second holds, or the first does not.
    Implies {
        first: usize,
        second: usize,
    },
    /// It held at some moment so far.
    Once(usize),
    /// It held at each moment so far.
    Always(usize),
    /// The second held at some moment so far, and the first at each moment since.
    Since {
        first: usize,
        second: usize,
    },
    /// It held at most so many ticks ago.
    Within {
        ticks: u32,
        of: usize,
    },
}
