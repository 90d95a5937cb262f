//! The locals of a node, as numbers.

ghost use Rattle.std.specs.Prelude.{◌≡◌, ◌<◌, ◌≤◌, length, slice_get, Some, MatchOption};

use std::marker::Model;

const MOST: usize = 16;

/// The locals of a node, at most sixteen numbers in declared order.
#[derive(Clone, Copy, PartialEq, Eq, Debug)]
pub struct Locals {
    count: usize,
    at: [i64; 16],
}

impl Model for Locals {
    ghost use Rattle.std.specs.Prelude.{List, ℤ};

    ghost Value = { List ℤ };

    ghost use Rattle.sot_code.specs.LocalSlots.{local_list, locals_of, IsLocals};
    ghost use Rattle.sot_code.specs.LocalSlots.{locals_of-local_list};

    ghost view = { local_list };

    ghost invariant = { IsLocals };

    ghost inverse = { locals_of };

    ghost inverse_ok = { locals_of-local_list };
}

impl Locals {
    pub fn of(at: &[i64]) -> Option<Locals>
        ensures { MatchOption result (16 < length at.now) (λ l. l ≡ at.now) }
    {
        if at.len() > MOST {
            None
        } else {
            Some(Locals::from_slice(at))
        }
    }

    pub(crate) fn from_slice(at: &[i64]) -> Locals
        requires { length at.now ≤ 16 }
        ensures { result ≡ at.now }
    {
        let count = at.len();
        let mut inline = [0; MOST];
        for i in 0..count {
            inline[i] = at[i];
        }
        Locals { count, at: inline }
    }

    /// Changes the numbers to these, of which there are as many.
    pub(crate) fn put(&mut self, at: &[i64])
        requires { length at.now ≡ length self.old }
        ensures { self.new ≡ at.now }
    {
        let slots = &mut self.at;
        for i in 0..at.len() {
            slots[i] = at[i];
        }
    }

    pub fn len(&self) -> usize
        ensures count { result ≡ length self.now }
        ensures few { length self.now ≤ 16 }
    {
        self.count
    }

    pub fn at(&self, i: usize) -> i64
        requires { i < length self.now }
        ensures { slice_get self.now i ≡ Some result }
    {
        let slots = &self.at;
        slots[i]
    }
}
