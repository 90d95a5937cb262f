//! What a firing leaves.

use crate::locals::Locals;
use sot_lang::Draft;

/// What a firing leaves: the node's new locals, and what it drafts.
#[derive(Clone, Copy, Debug, PartialEq, Eq)]
pub struct Fired {
    pub locals: Locals,
    pub draft: Draft,
}
