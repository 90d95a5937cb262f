//! Where each name may be: scalars in their types, locals and disturbances in their bounds, and the
//! states of seen plants in the hulls of these plants' safe regions.

ghost use Rattle.std.specs.Prelude.{◌≡◌, ◌≢◌, ℕ, [], ◌+◌, ◌<◌, ◌≤◌, ◌≤ℤ◌, ◌++◌, length, drop, map};
ghost use Rattle.std.specs.Prelude.{MatchOption};
ghost use Rattle.sot_lists.specs.Places.{At, Has};
ghost use Rattle.sot_box.specs.Regions.{IsHull};
ghost use Rattle.sot_lang.specs.declared.tables.LocalInfo.{LocalInfo as Local};
ghost use Rattle.sot_lang.specs.declared.tables.NoiseInfo.{NoiseInfo as Noise};
ghost use Rattle.sot_lang.specs.declared.tables.ScalarInfo.{ScalarInfo as Scalar};
ghost use Rattle.sot_lang.specs.OwnerNames.{width_of, seen_width};
ghost use Rattle.sot_lang.specs.Ranges.{range_of};
ghost use Rattle.sot_lang.specs.SafeRegions.{safe_of};
ghost use Rattle.sot_iv.specs.SeenHulls.{AreSeenHulls};

use crate::Ranges;
use sot_box::{BoxN, Interval};
use sot_lang::{LocalInfo, NoiseInfo, ScalarInfo, Typed};

/// The declared range of a scalar.
pub fn scalar_side(p: &Typed, scalar: u32) -> Interval
    requires { scalar < length p.now.scalars }
    ensures { result ≡ range_of p.now.scalars scalar }
{
    let info = &p.scalars[scalar as usize];
    Interval {
        lo: info.lo,
        hi: info.hi,
    }
}

/// The declared ranges of some scalars, in order, behind the other intervals.
pub fn put_types(infos: &[ScalarInfo], scalars: &[u32], sides: &mut Ranges)
    requires room { length sides.old + length scalars.now ≤ 80 }
    requires inside { (k : ℕ) → Has scalars.now k → k < length infos.now }
    requires ordered { (k : ℕ) (info : Scalar) → At infos.now k info → info.lo ≤ℤ info.hi }
    ensures { sides.new ≡ sides.old ++ map (range_of infos.now) scalars.now }
{
    for i in 0..scalars.len() {
        let scalar = scalars[i] as usize;
        let info = &infos[scalar];
        sides.push(Interval {
            lo: info.lo,
            hi: info.hi,
        });
    }
}

/// The declared ranges of locals, behind the other intervals.
pub fn put_locals(locals: &[LocalInfo], sides: &mut Ranges)
    requires room { length sides.old + length locals.now ≤ 80 }
    requires ordered { (i : ℕ) (l : Local) → At locals.now i l → l.lo ≤ℤ l.hi }
    ensures { sides.new ≡ sides.old ++ map (λ l. record { lo = l.lo; hi = l.hi }) locals.now }
{
    for info in locals {
        sides.push(Interval {
            lo: info.lo,
            hi: info.hi,
        });
    }
}

/// The bounds of disturbances, behind the other intervals.
pub(crate) fn put_bounds(noise: &[NoiseInfo], sides: &mut Ranges)
    requires room { length sides.old + length noise.now ≤ 80 }
    requires ordered { (i : ℕ) (d : Noise) → At noise.now i d → d.lo ≤ℤ d.hi }
    ensures { sides.new ≡ sides.old ++ map (λ d. record { lo = d.lo; hi = d.hi }) noise.now }
{
    for info in noise {
        sides.push(Interval {
            lo: info.lo,
            hi: info.hi,
        });
    }
}

/// The sides of a box, behind the other intervals.
pub(crate) fn put_box(b: &BoxN, sides: &mut Ranges)
    requires { length sides.old + length b.now ≤ 80 }
    ensures { sides.new ≡ sides.old ++ b.now }
{
    for i in 0..b.len() {
        sides.push(b.side(i));
    }
}

/// The sides of a box, in place of the first intervals.
pub fn put_front(b: &BoxN, sides: &mut Ranges)
    requires { length b.now ≤ length sides.old }
    ensures { sides.new ≡ b.now ++ drop (length b.now) sides.old }
{
    for i in 0..b.len() {
        sides.put(i, b.side(i));
    }
}

/// The least box around the safe region of a plant, which is that of the first module that names
/// the plant; `None` where that region has no box, and there alone. Takes no memory.
pub fn safe_hull(p: &Typed, plant: u32) -> Option<BoxN>
    ensures { MatchOption result (safe_of p.now.modules plant ≡ [])
        (λ b. IsHull (safe_of p.now.modules plant) b × (length b ≡ width_of p.now.plants plant)) }
{
    for info in &p.modules {
        if info.plant == plant {
            return info.safe.hull();
        }
    }
    None
}

/// The sides of the least boxes around the safe regions of some plants, one plant after another.
pub fn seen_hulls(p: &Typed, sees: &[u32]) -> Ranges
    requires few { seen_width p.now.plants sees.now ≤ 64 }
    requires boxes { (k : ℕ) → Has sees.now k → safe_of p.now.modules k ≢ [] }
    ensures hulls { AreSeenHulls p.now.modules sees.now result }
    ensures width { length result ≡ seen_width p.now.plants sees.now }
{
    let mut sides = Ranges::none();
    for i in 0..sees.len() {
        let Some(hull) = safe_hull(p, sees[i]) else {
            return sides;
        };
        put_box(&hull, &mut sides);
    }
    sides
}
