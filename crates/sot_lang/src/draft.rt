//! Drafts: what a firing writes.

ghost use Rattle.std.specs.Prelude.{◌≡◌, ◌<◌, None, Some, length, replicate, slice_get, slice_set};

use std::marker::Model;

/// What a firing writes: for each scalar of its node, in order, a number or nothing. A node writes
/// at most eight scalars; slots past its own hold nothing.
#[derive(Clone, Copy, Debug, PartialEq, Eq)]
pub struct Draft {
    // Beside each other, they take half the room of eight options.
    numbers: [i64; 8],
    there: [bool; 8],
}

impl Model for Draft {
    ghost use Rattle.std.specs.Prelude.{ℤ, List, Option};
    ghost use Rattle.sot_lang.specs.DraftSlots.{slot_list, IsDraft, draft_of, draft_of-slot_list};

    ghost Value = { List (Option ℤ) };

    ghost view = { slot_list };

    ghost invariant = { IsDraft };

    ghost inverse = { draft_of };

    ghost inverse_ok = { draft_of-slot_list };
}

impl Draft {
    /// Nothing is drafted.
    pub fn blank() -> Draft
        ensures { result ≡ replicate 8 None }
    {
        Draft {
            numbers: [0; 8],
            there: [false; 8],
        }
    }

    /// Drafts a number in slot `i`, in place of what stood there.
    pub fn set(&mut self, i: usize, v: i64)
        requires { i < 8 }
        ensures { self.new ≡ slice_set self.old i (Some v) }
    {
        self.numbers[i] = v;
        self.there[i] = true;
    }

    /// What the type keeps, as a fact.
    pub fn has_eight_slots(&self)
        ensures { length self.now ≡ 8 }
    {
        // A look at a field brings what the type keeps.
        let _there = &self.there;
    }

    pub fn get(&self, i: usize) -> Option<i64>
        requires { i < 8 }
        ensures { slice_get self.now i ≡ Some result }
    {
        let (numbers, there) = (&self.numbers, &self.there);
        if there[i] { Some(numbers[i]) } else { None }
    }
}
