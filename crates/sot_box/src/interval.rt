//! Intervals of whole numbers.

ghost use Rattle.std.specs.Prelude.{◌≡◌, ◌<ℤ◌, MatchOption};

use std::marker::Model;

/// The whole numbers from `lo` to `hi`, both of them included.
#[derive(Clone, Copy, PartialEq, Eq, Debug)]
pub struct Interval {
    pub lo: i64,
    pub hi: i64,
}

impl Model for Interval {
    ghost use Rattle.std.specs.Prelude.{◌≤ℤ◌};
    ghost use Rattle.sot_box.specs.Sides.{Side};

    ghost Value = { Side };

    ghost view = { λ i. record { lo = i.lo; hi = i.hi } };

    ghost invariant = { λ i. i.lo ≤ℤ i.hi };

    ghost inverse = { λ s. record { lo = s.lo; hi = s.hi } };
}

impl Interval {
    pub fn new(lo: i64, hi: i64) -> Option<Interval>
        ensures { MatchOption result (hi <ℤ lo) (λ r. (r.lo ≡ lo) × (r.hi ≡ hi)) }
    {
        if lo > hi {
            None
        } else {
            Some(Interval { lo, hi })
        }
    }
}
