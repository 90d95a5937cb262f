//! Boxes around boxes.

ghost use Rattle.std.specs.Prelude.{ℕ, List, [], ◌∷◌, ◌≡◌, ◌≤ℤ◌, ◌<◌, ◌≤◌, length};
ghost use Rattle.sot_lists.specs.Places.{At};
ghost use Rattle.sot_box.specs.Sides.{Side as Interval_};
ghost use Rattle.sot_recover.specs.Meeting.{IsAround, AreOfOneWidth, IsAroundAll};

use sot_box::{BoxN, Interval};

// The least interval around two.
fn around(a: Interval, b: Interval) -> Interval
    requires first { a.lo ≤ℤ a.hi }
    requires second { b.lo ≤ℤ b.hi }
    ensures lows { (result.lo ≤ℤ a.lo) × (result.lo ≤ℤ b.lo) }
    ensures highs { (a.hi ≤ℤ result.hi) × (b.hi ≤ℤ result.hi) }
{
    Interval {
        lo: a.lo.min(b.lo),
        hi: a.hi.max(b.hi),
    }
}

// The least box around two of one width.
fn widened(a: &BoxN, b: &BoxN) -> BoxN
    requires { length a.now ≡ length b.now }
    ensures width { length result ≡ length a.now }
    ensures first { IsAround result a.now }
    ensures second { IsAround result b.now }
{
    let mut sides = [Interval { lo: 0, hi: 0 }; 4];
    for i in 0..a.len() {
        sides[i] = around(a.side(i), b.side(i));
    }
    BoxN::of(&sides[..a.len()]).unwrap()
}

/// A box around boxes of one width, of which there is one at least. Around one alone it is that
/// box.
pub fn hull_of(boxes: &[BoxN]) -> BoxN
    requires some { 0 < length boxes.now }
    requires widths { AreOfOneWidth boxes.now }
    ensures around { IsAroundAll result boxes.now }
    ensures single { (b : List Interval_) → boxes.now ≡ b ∷ [] → result ≡ b }
{
    let mut hull = boxes[0];
    for i in 1..boxes.len() {
        hull = widened(&hull, &boxes[i]);
    }
    hull
}
