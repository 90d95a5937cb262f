//! What a step records, and why an event cannot happen.

use crate::mode::Mode;
use sot_lang::Draft;

/// What is recorded of a firing.
#[derive(Clone, Copy, Debug, PartialEq, Eq)]
pub struct Firing {
    /// Nothing stands in the slots past the node's scalars. Numbers outside their scalar's range
    /// are in it too.
    pub draft: Draft,
    /// Whether the node is enabled.
    pub enabled: bool,
}

/// What is recorded of a step.
#[derive(Clone, Copy, Debug, PartialEq, Eq)]
pub enum Outcome {
    /// A value came.
    Input,
    /// The parts of a [`Firing`].
    Fired { draft: Draft, enabled: bool },
    /// The mode after the decision.
    Decided { mode: Mode },
    /// All plants moved.
    Ticked,
}

/// Why an event cannot happen now.
#[derive(Clone, Copy, Debug, PartialEq, Eq)]
pub enum Why {
    /// The node or the decision was not due in the last ticks, as many as the jitter and one.
    NotDue,
    /// It has fired already for the tick at which it was due.
    AlreadyFired,
    /// A tick, while a firing or a decision that is left is at its deadline.
    NodesLeft,
    /// A number of an input is outside its scalar's range, or a disturbance is outside its bounds.
    OutsideType,
}
