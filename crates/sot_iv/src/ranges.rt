//! Intervals in order, one for each name that an owner's expressions can read.

ghost use Rattle.std.specs.Prelude.{◌≡◌, ◌<◌, ◌≤◌, ◌≤ℤ◌, ◌+◌, [], ◌∷◌, ◌++◌, length, slice_set};
ghost use Rattle.std.specs.Prelude.{MatchOption};
ghost use Rattle.sot_box.specs.Sides.{AreOrdered};

use sot_box::Interval;
use std::marker::Model;

/// Up to 80 intervals in order, one for each name that the expressions of an owner can read: of a
/// node what it reads and then its locals; of a plant its state variables, its inputs, the states
/// of the plants that it sees and its disturbances.
#[derive(Drop)]
pub struct Ranges {
    count: usize,
    sides: [Interval; 80],
}

impl Model for Ranges {
    ghost use Rattle.std.specs.Prelude.{◌≡◌, ◌≤◌, List, take, length};
    ghost use Rattle.sot_box.specs.Sides.{Side, AreOrdered};

    ghost Value = { List Side };

    ghost view = { λ r. take r.count r.sides };

    ghost invariant = { λ r. (r.count ≤ 80) × (length r.sides ≡ 80)
        × AreOrdered (take r.count r.sides) };
}

impl Ranges {
    /// `None` where there are more than 80 intervals, and there alone.
    pub fn of(sides: &[Interval]) -> Option<Ranges>
        ensures { MatchOption result (80 < length sides.now) (λ r. r ≡ sides.now) }
    {
        let count = sides.len();
        if count > 80 {
            return None;
        }
        let mut inline = [Interval { lo: 0, hi: 0 }; 80];
        for i in 0..count {
            let side = sides[i];
            inline[i] = Interval {
                lo: side.lo,
                hi: side.hi,
            };
        }
        Some(Ranges {
            count,
            sides: inline,
        })
    }

    /// No intervals yet.
    pub fn none() -> Ranges
        ensures { result ≡ [] }
    {
        Ranges {
            count: 0,
            sides: [Interval { lo: 0, hi: 0 }; 80],
        }
    }

    /// One more interval, behind the others.
    pub fn push(&mut self, side: Interval)
        requires { length self.old < 80 }
        ensures { self.new ≡ self.old ++ side ∷ [] }
    {
        let count = self.count;
        self.sides[count] = Interval {
            lo: side.lo,
            hi: side.hi,
        };
        self.count = count + 1;
    }

    // Another interval in place `i`.
    pub(crate) fn put(&mut self, i: usize, side: Interval)
        requires inside { i < length self.old }
        requires ordered { side.lo ≤ℤ side.hi }
        ensures { self.new ≡ slice_set self.old i side }
    {
        let sides = &mut self.sides;
        sides[i] = side;
    }

    /// More intervals, behind the others.
    pub fn extend(&mut self, sides: &[Interval])
        requires { length self.old + length sides.now ≤ 80 }
        ensures { self.new ≡ self.old ++ sides.now }
    {
        for side in sides {
            self.push(*side);
        }
    }

    /// The intervals, in order.
    pub fn as_slice(&self) -> &[Interval]
        ensures value { result.now ≡ self.now }
        ensures ordered { AreOrdered result.now }
    {
        let sides = &self.sides;
        &sides[..self.count]
    }
}
