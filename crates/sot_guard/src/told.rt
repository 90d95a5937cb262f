//! What is told of an instant.

use sot_world::{Firing, Mode};

/// What a guard did in an instant.
#[derive(Clone, Copy, Debug, PartialEq, Eq)]
pub enum Told {
    /// A module decided, and is in this mode afterwards.
    Decided { module: u32, mode: Mode },
    /// A node fired.
    Fired { node: u32, firing: Firing },
}
