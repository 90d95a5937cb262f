//! Statements whose names are places.

use crate::term::Term;
use sot_text::Span;

/// A statement of a node's body whose names are places.
#[derive(Drop)]
pub enum Act {
    /// A local, by its place among the node's locals, gets a value. `at` is the target's name.
    Assign {
        local: u32,
        value: Term,
        at: Span,
    },
    /// A scalar, by its place among those that the node writes, is drafted. `at` is the target's
    /// name.
    Publish {
        slot: u32,
        value: Term,
        at: Span,
    },
    If {
        cond: Term,
        yes: Vec<Act>,
        no: Vec<Act>,
    },
    /// A block, so many times.
    Repeat {
        times: u32,
        body: Vec<Act>,
    },
}
