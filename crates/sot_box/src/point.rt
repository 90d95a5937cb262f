//! Points: a number for each axis.

ghost use Rattle.std.specs.Prelude.{◌≡◌, ◌<◌, ◌≤◌, ◌⊎◌, length, slice_get, slice_set, Some};
ghost use Rattle.std.specs.Prelude.{replicate, pos, MatchOption};

use std::marker::Model;

/// One to four whole numbers, one for each axis, in order.
#[derive(Clone, Copy, PartialEq, Eq, Debug)]
pub struct Point {
    width: usize,
    at: [i64; 4],
}

impl Model for Point {
    ghost use Rattle.std.specs.Prelude.{List, ℤ};

    ghost Value = { List ℤ };

    ghost use Rattle.sot_box.specs.PointSlots.{coordinates, point_of, IsPoint};
    ghost use Rattle.sot_box.specs.PointSlots.{point_of-coordinates};

    ghost view = { coordinates };

    ghost invariant = { IsPoint };

    ghost inverse = { point_of };

    ghost inverse_ok = { point_of-coordinates };
}

impl Point {
    /// `None` where there is no number or more than four, and there alone.
    pub fn of(at: &[i64]) -> Option<Point>
        ensures { MatchOption result ((length at.now ≡ 0) ⊎ (4 < length at.now)) (λ p. p ≡ at.now) }
    {
        let width = at.len();
        if width == 0 || width > 4 {
            return None;
        }
        if width == 1 {
            // Most points have one number, for which a copy of many would cost more than it moves.
            return Some(Point {
                width: 1,
                at: [at[0], 0, 0, 0],
            });
        }
        let mut inline = [0; 4];
        for i in 0..width {
            inline[i] = at[i];
        }
        Some(Point { width, at: inline })
    }

    /// The number of axes.
    pub fn len(&self) -> usize
        ensures value { result ≡ length self.now }
        ensures some { 0 < result }
        ensures few { result ≤ 4 }
    {
        self.width
    }

    /// The coordinate on axis `i`.
    pub fn at(&self, i: usize) -> i64
        requires { i < length self.now }
        ensures { slice_get self.now i ≡ Some result }
    {
        let slots = &self.at;
        slots[i]
    }

    /// The coordinate on the first axis.
    pub(crate) fn first(&self) -> i64
        ensures { slice_get self.now 0 ≡ Some result }
    {
        let slots = &self.at;
        slots[0]
    }

    /// Changes the coordinate on axis `i` to `v`.
    pub(crate) fn set(&mut self, i: usize, v: i64)
        requires { i < length self.old }
        ensures { self.new ≡ slice_set self.old i v }
    {
        let slots = &mut self.at;
        slots[i] = v;
    }

    /// The origin of so many axes.
    pub(crate) fn zeros(width: usize) -> Point
        requires some { 0 < width }
        requires few { width ≤ 4 }
        ensures { result ≡ replicate width (pos 0) }
    {
        Point { width, at: [0; 4] }
    }
}
