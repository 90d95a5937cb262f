//! What a firing leaves in a caller's hand.

use sot_lang::Draft;

/// Of a firing, the place of its entry in the history, from 0 on, and the draft of that entry.
#[derive(Clone, Copy, Debug, PartialEq, Eq)]
pub struct Receipt {
    pub place: u32,
    pub draft: Draft,
}
