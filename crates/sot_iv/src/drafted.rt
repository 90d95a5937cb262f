//! What a node drafts over intervals.

ghost use Rattle.std.specs.Prelude.{◌≡◌, ◌<◌, ◌≤◌, ◌-◌, ◌++◌, Some, slice_get, length, replicate};
ghost use Rattle.sot_iv.specs.declared.drafted.Drafted.TheVariants.{Absent};

use sot_box::Interval;
use std::marker::Model;

/// Whether a node drafts a scalar, and the interval of its number.
#[derive(Clone, Copy, Debug, PartialEq, Eq)]
pub enum Drafted {
    /// No execution drafts it.
    Absent,
    /// Some executions may draft it.
    Maybe(Interval),
    /// Every execution drafts it.
    Sure(Interval),
}

/// What a node drafts over intervals, in eight slots. Those past the scalars that it writes are
/// absent.
#[derive(Drop)]
pub struct IvDraft {
    slots: [Drafted; 8],
}

impl Model for IvDraft {
    ghost use Rattle.std.specs.Prelude.{◌≡◌, List, length};
    ghost use Rattle.sot_iv.specs.declared.drafted.Drafted.{Drafted};

    ghost Value = { List Drafted };

    ghost view = { λ d. d.slots };

    ghost invariant = { λ d. length d.slots ≡ 8 };
}

impl IvDraft {
    /// What is drafted of the scalar at place `i` of those that the node writes.
    pub fn get(&self, i: usize) -> Drafted
        requires { i < 8 }
        ensures { slice_get self.now i ≡ Some result }
    {
        let slots = &self.slots;
        slots[i]
    }

    // These drafts, with nothing behind them.
    pub(crate) fn from_slice(draft: &[Drafted]) -> IvDraft
        requires { length draft.now ≤ 8 }
        ensures { result ≡ draft.now ++ replicate (8 - length draft.now) Absent }
    {
        let mut slots = [Drafted::Absent; 8];
        for i in 0..draft.len() {
            slots[i] = draft[i];
        }
        IvDraft { slots }
    }
}
