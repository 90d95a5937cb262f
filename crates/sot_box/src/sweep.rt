//! One step of a sweep through a box, from its low corner to its high corner.
//!
//! The sweep stands at a point, and the corner `reach` says how far the boxes that were met so far
//! go. Whatever box holds the point may be taken, so a better search for one changes nothing here.

ghost use Rattle.std.specs.Prelude.{◌≡◌, List, length, MatchBool};
ghost use Rattle.sot_box.specs.Sides.{Side};
ghost use Rattle.sot_box.specs.Boxes.{IsBefore};
ghost use Rattle.sot_box.specs.Regions.{Covers};
ghost use Rattle.sot_box.specs.Sweep.{AreCorners, IsNarrowed, IsSlab, IsSwept};

use crate::box_n::BoxN;
use crate::point::Point;

/// Brings each coordinate of `reach` down to the high end of the box there.
pub(crate) fn narrow(reach: &mut Point, by: &BoxN)
    requires { length by.now ≡ length reach.old }
    ensures { IsNarrowed by.now reach.old reach.new }
{
    for k in 0..by.len() {
        let side = by.side(k);
        let least = reach.at(k).min(side.hi);
        reach.set(k, least);
    }
}

/// Goes on to the next point of the box that lies behind all that the corners span, on the last
/// axis that has one. False says that nothing is left of the box.
pub(crate) fn advance(b: &BoxN, at: &mut Point, reach: &mut Point) -> bool
    requires { AreCorners b.now at.old reach.old }
    ensures { (region : List (List Side)) → IsSwept region b.now at.old reach.old
        → IsSlab region b.now (length b.now) at.old reach.old
        → MatchBool result (IsSwept region b.now at.new reach.new × IsBefore at.old at.new)
        (Covers region b.now) }
{
    let mut k = b.len();
    while k > 0 {
        k -= 1;
        let side = b.side(k);
        let reached = reach.at(k);
        reach.set(k, side.hi);
        if reached < side.hi {
            at.set(k, reached + 1);
            return true;
        }
        at.set(k, side.lo);
    }
    false
}
