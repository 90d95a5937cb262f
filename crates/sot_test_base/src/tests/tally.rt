//! A list of numbers that only grows.
ghost use Rattle.std.specs.Prelude.{◌≡◌, ◌++◌, ◌∷◌, [], IfOk};
ghost use Rattle.sot_turn.specs.Prefixes.{IsPrefix};

use sot_turn::Journal;
use std::alloc::{AllocError, Global};

/// A list of numbers: its ground is the number that it was made with, and its entries are the
/// numbers added since.
#[derive(Drop)]
pub(crate) struct Tally {
    pub(crate) base: u64,
    pub(crate) numbers: Vec<u64>,
}

impl Journal for Tally {
    type Ground = u64;

    type Entry = u64;

    ghost ground = { λ tally. tally.base };

    ghost entries = { λ tally. tally.numbers.items };

    fn len(&self) -> u64 {
        self.numbers.len() as u64
    }
}

impl Tally {
    /// An empty one with room for so many numbers.
    pub(crate) fn with_room(alloc: Global, base: u64, room: usize) -> Result<Tally, AllocError>
        ensures { IfOk result (λ tally. (tally.base ≡ base) × (tally.numbers.items ≡ [])) }
    {
        let numbers = Vec::with_capacity(alloc, room)?;
        Ok(Tally { base, numbers })
    }

    pub(crate) fn add(&mut self, number: u64) -> Result<(), AllocError>
        ensures base { self.new.base ≡ self.old.base }
        ensures goes_on { IsPrefix self.old.numbers.items self.new.numbers.items }
        ensures ok { IfOk result (λ _. self.new.numbers.items
            ≡ self.old.numbers.items ++ number ∷ []) }
    {
        self.numbers.push(number)?;
        Ok(())
    }
}
