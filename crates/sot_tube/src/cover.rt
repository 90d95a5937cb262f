//! Boxes of a tube that are covered where the next one is.

ghost use Rattle.std.specs.Prelude.{◌≡◌, ℤ, List, true, length};
ghost use Rattle.sot_box.specs.Boxes.{IsWithin};
ghost use Rattle.sot_box.specs.Regions.{Covers};

use sot_box::{BoxN, Region};

// Whether each side of a box lies in that of another.
fn lies_in(b: &BoxN, other: &BoxN) -> bool
    requires { length b.now ≡ length other.now }
    ensures { result ≡ true → (s : List ℤ) → IsWithin b.now s → IsWithin other.now s }
{
    for i in 0..b.len() {
        let inner = b.side(i);
        let outer = other.side(i);
        if inner.lo < outer.lo || outer.hi < inner.hi {
            return false;
        }
    }
    true
}

/// Whether it is seen that a region covers a box if it covers the next one: the box lies in that
/// one, or is covered by itself.
pub(crate) fn is_covered_with(region: &Region, area: &BoxN, next: &BoxN) -> bool
    requires same { length area.now ≡ length next.now }
    requires width { length area.now ≡ region.now.width }
    ensures { result ≡ true → Covers region.now.boxes next.now → Covers region.now.boxes area.now }
{
    lies_in(area, next) || region.covers(area)
}
