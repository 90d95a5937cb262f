//! Boxes: an interval for each axis.

ghost use Rattle.std.specs.Prelude.{◌≡◌, [], ◌∷◌, ◌<◌, ◌≤◌, ◌≤ℤ◌, ◌⊎◌, length, slice_get};
ghost use Rattle.std.specs.Prelude.{slice_set, Some, MatchOption, IsTrue, ◌↔◌};
ghost use Rattle.sot_box.specs.Sides.{AreOrdered};
ghost use Rattle.sot_box.specs.Boxes.{IsWithin, lows, highs};
ghost use Rattle.sot_box.specs.Widened.{IsWidened};

use crate::interval::Interval;
use crate::point::Point;
use std::marker::Model;

/// One to four intervals, one for each axis, in order.
#[derive(Clone, Copy, PartialEq, Eq, Debug)]
pub struct BoxN {
    width: usize,
    sides: [Interval; 4],
}

impl Model for BoxN {
    ghost use Rattle.std.specs.Prelude.{List};
    ghost use Rattle.sot_box.specs.Sides.{Side};

    ghost Value = { List Side };

    ghost use Rattle.sot_box.specs.BoxSlots.{side_list, box_of, IsBox, box_of-side_list};

    ghost view = { side_list };

    ghost invariant = { IsBox };

    ghost inverse = { box_of };

    ghost inverse_ok = { box_of-side_list };
}

impl BoxN {
    /// `None` where there is no interval or more than four, and there alone.
    pub fn of(sides: &[Interval]) -> Option<BoxN>
        ensures { MatchOption result
            ((length sides.now ≡ 0) ⊎ (4 < length sides.now)) (λ b. b ≡ sides.now) }
    {
        let width = sides.len();
        if width == 0 || width > 4 {
            return None;
        }
        if width == 1 {
            let only = sides[0];
            return Some(BoxN::on_a_line(only.lo, only.hi));
        }
        let mut inline = [Interval { lo: 0, hi: 0 }; 4];
        for i in 0..width {
            let side = sides[i];
            inline[i] = Interval {
                lo: side.lo,
                hi: side.hi,
            };
        }
        Some(BoxN {
            width,
            sides: inline,
        })
    }

    // The box of one axis. It is put together without a loop, since a call to copy one interval
    // costs more than the copy.
    fn on_a_line(lo: i64, hi: i64) -> BoxN
        requires { lo ≤ℤ hi }
        ensures { result ≡ record { lo = lo; hi = hi } ∷ [] }
    {
        let none = Interval { lo: 0, hi: 0 };
        BoxN {
            width: 1,
            sides: [Interval { lo, hi }, none, none, none],
        }
    }

    /// The number of axes.
    pub fn len(&self) -> usize
        ensures value { result ≡ length self.now }
        ensures some { 0 < result }
        ensures few { result ≤ 4 }
        ensures ordered { AreOrdered self.now }
    {
        self.width
    }

    /// The interval of axis `i`.
    pub fn side(&self, i: usize) -> Interval
        requires { i < length self.now }
        ensures { slice_get self.now i ≡ Some result }
    {
        let slots = &self.sides;
        slots[i]
    }

    /// The interval of the first axis.
    pub(crate) fn first(&self) -> Interval
        ensures { slice_get self.now 0 ≡ Some result }
    {
        let slots = &self.sides;
        slots[0]
    }

    /// Whether the point is in the box.
    pub fn has(&self, p: &Point) -> bool
        requires { length p.now ≡ length self.now }
        ensures { IsTrue result ↔ IsWithin self.now p.now }
    {
        for i in 0..self.len() {
            let side = self.side(i);
            let x = p.at(i);
            if x < side.lo || side.hi < x {
                return false;
            }
        }
        true
    }

    /// The corner of the low ends.
    pub(crate) fn low(&self) -> Point
        ensures corner { result ≡ lows self.now }
        ensures ordered { AreOrdered self.now }
    {
        let mut at = Point::zeros(self.width);
        for i in 0..self.len() {
            let side = self.side(i);
            at.set(i, side.lo);
        }
        at
    }

    /// The corner of the high ends.
    pub(crate) fn high(&self) -> Point
        ensures { result ≡ highs self.now }
    {
        let mut at = Point::zeros(self.width);
        for i in 0..self.len() {
            let side = self.side(i);
            at.set(i, side.hi);
        }
        at
    }

    /// Changes the interval of axis `i`.
    fn put(&mut self, i: usize, side: Interval)
        requires inside { i < length self.old }
        requires ordered { side.lo ≤ℤ side.hi }
        ensures { self.new ≡ slice_set self.old i side }
    {
        let slots = &mut self.sides;
        slots[i] = side;
    }

    /// Becomes the least box around itself and the other.
    pub(crate) fn widen(&mut self, by: &BoxN)
        requires { length by.now ≡ length self.old }
        ensures { IsWidened by.now self.old self.new }
    {
        for k in 0..by.len() {
            let a = self.side(k);
            let b = by.side(k);
            let lo = a.lo.min(b.lo);
            let hi = a.hi.max(b.hi);
            self.put(k, Interval { lo, hi });
        }
    }
}
