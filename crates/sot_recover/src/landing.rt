//! What a place lands in.

ghost use Rattle.std.specs.Prelude.{ℕ, Bool, List, ◌<◌, ◌↔◌, length, IsTrue, IfOk, OnOk};
ghost use Rattle.sot_lists.specs.Places.{Has};

use std::alloc::AllocError;

/// Places of some list, which count from 0. Each lands in some of them.
pub trait Landing {
    /// A place lands in the flagged places.
    ghost lands: { Self → List Bool → ℕ → Type 0 };

    /// That the second place lands in some places may hang on the first one.
    ghost hangs: { Self → ℕ → ℕ → Type 0 };

    /// What has to hold of the places before it is asked whether they land.
    ghost is_sound: { Self → Type 0 };

    /// Whether place `i` lands in the flagged ones.
    fn lands(&self, set: &[bool], i: usize) -> Result<bool, AllocError>
        requires there { i < length set.now }
        requires sound { is_sound self.now }
        ensures { IfOk result (λ b. IsTrue b ↔ lands self.now set.now i) };

    /// Replaces `found` by places: each one for which it may hang on place `j` that it lands in
    /// some places.
    fn put_hanging(&self, j: usize, found: &mut Vec<usize>) -> Result<(), AllocError>
        ensures { OnOk result ((i : ℕ) → hangs self.now j i → Has found.new.items i) };
}
