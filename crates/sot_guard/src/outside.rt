//! Whether plants are observed where their models allow them to be.

ghost use Rattle.std.specs.Prelude.{◌≡◌, ℕ, ℤ, ◌+◌, ◌<◌, ◌≤◌, ◌++◌, [], length, map, pos};
ghost use Rattle.std.specs.Prelude.{slice_index_or, true, MatchOption};
ghost use Rattle.sot_lists.specs.Places.{At};
ghost use Rattle.sot_box.specs.Sides.{Side};
ghost use Rattle.sot_box.specs.Boxes.{IsWithin, point_box};
ghost use Rattle.sot_lang.specs.declared.tables.PlantInfo.{PlantInfo};
ghost use Rattle.sot_lang.specs.Ticks.{joined};
ghost use Rattle.sot_world.specs.Changes.{ArePoints};
ghost use Rattle.sot_guard.specs.Outside.{IsBoxOf, HaveBoxes, AreInBoxes, IsFirstAxis};
ghost use Rattle.sot_guard.specs.Outside.{IsFirstOutside};

use sot_box::{BoxN, Interval, Point};
use sot_iv::{Ranges, iv_plant};
use sot_lang::Typed;
use sot_tube::box_at;

/// A state variable that is observed outside the least interval of its next value, which is the
/// first one of the first such plant. Numbers are mantissas at the variable's scale.
#[derive(Clone, Copy, Debug, PartialEq, Eq)]
pub struct Outside {
    pub plant: u32,
    pub state: u32,
    pub bounds: Interval,
    pub value: i64,
}

// The coordinates of a point, as intervals of one number each, behind the others.
fn put_point(s: &Point, sides: &mut Ranges)
    requires { length sides.old ≤ 76 }
    ensures sides { sides.new ≡ sides.old ++ point_box s.now }
    ensures more { length sides.old < length sides.new }
    ensures few { length sides.new ≤ length sides.old + 4 }
{
    for i in 0..s.len() {
        let x = s.at(i);
        sides.push(Interval { lo: x, hi: x });
    }
}

/// The numbers of a plant's inputs, behind the others.
pub(crate) fn put_commands(inputs: &[u32], scalars: &[i64], sides: &mut Ranges)
    requires there { (i k : ℕ) → At inputs.now i k → k < length scalars.now }
    requires room { length sides.old + length inputs.now ≤ 80 }
    ensures { sides.new ≡ sides.old
        ++ point_box (map (λ k. slice_index_or scalars.now k (pos 0)) inputs.now) }
{
    for i in 0..inputs.len() {
        let x = scalars[inputs[i] as usize];
        sides.push(Interval { lo: x, hi: x });
    }
}

// The points of the plants that a plant sees, one plant after another, behind the others.
fn put_seen(sees: &[u32], points: &[Point], sides: &mut Ranges)
    requires there { (i k : ℕ) → At sees.now i k → k < length points.now }
    requires few { length sees.now ≤ 16 }
    requires room { length sides.old + 64 ≤ 80 }
    ensures { sides.new ≡ sides.old
        ++ point_box (joined (map (λ k. slice_index_or points.now k []) sees.now)) }
{
    for i in 0..sees.len() {
        put_point(&points[sees[i] as usize], sides);
    }
}

// The least box of a plant after a tick from these points, with these scalars.
fn next_box(p: &Typed, plant: u32, scalars: &[i64], points: &[Point]) -> BoxN
    requires plant { plant < length p.now.plants }
    requires scalars { length scalars.now ≡ length p.now.scalars }
    requires points { ArePoints p.now points.now }
    requires boxes { HaveBoxes p.now scalars.now points.now }
    ensures { (info : PlantInfo) → At p.now.plants plant info
        → IsBoxOf scalars.now points.now plant info result }
{
    let info = &p.plants[plant as usize];
    let here = box_at(&points[plant as usize]);
    let mut held = Ranges::none();
    put_commands(&info.inputs, scalars, &mut held);
    let mut seen = Ranges::none();
    put_seen(&info.sees, points, &mut seen);
    match iv_plant(p, plant, &here, held.as_slice(), seen.as_slice()) {
        Ok(next) => next,
        Err(_) => unreachable!(),
    }
}

// The first axis on which a point is outside a box.
fn first_axis(b: &BoxN, s: &Point) -> Option<usize>
    requires { length s.now ≡ length b.now }
    ensures { MatchOption result (IsWithin b.now s.now)
        (λ i. (r : Side) × (z : ℤ) × IsFirstAxis b.now s.now i r z) }
{
    for i in 0..b.len() {
        let side = b.side(i);
        let x = s.at(i);
        if x < side.lo || side.hi < x {
            return Some(i);
        }
    }
    None
}

/// The first state variable, of the first plant, that is observed outside the least interval of its
/// next value: from these points, with the commands and the seen plants as they stand there, and
/// disturbances anywhere in their bounds. None where all are inside, and there alone. Takes no
/// memory.
pub fn first_outside(
    p: &Typed,
    scalars: &[i64],
    points: &[Point],
    next: &[Point],
) -> Option<Outside>
    requires scalars { length scalars.now ≡ length p.now.scalars }
    requires points { ArePoints p.now points.now }
    requires next { ArePoints p.now next.now }
    requires boxes { HaveBoxes p.now scalars.now points.now }
    ensures { MatchOption result
        (AreInBoxes p.now scalars.now points.now next.now (length p.now.plants))
        (λ o. IsFirstOutside p.now scalars.now points.now next.now o) }
{
    for k in 0..p.plants.len() {
        let plant = k as u32;
        let allowed = next_box(p, plant, scalars, points);
        let point = &next[k];
        if let Some(axis) = first_axis(&allowed, point) {
            return Some(Outside {
                plant,
                state: axis as u32,
                bounds: allowed.side(axis),
                value: point.at(axis),
            });
        }
    }
    None
}

/// The first state variable that is observed outside the least interval of its next value, as
/// `first_outside` tells it, where models are trusted; none where they are not. Takes no memory.
pub(crate) fn outside_where(
    trusted: bool,
    p: &Typed,
    scalars: &[i64],
    points: &[Point],
    next: &[Point],
) -> Option<Outside>
    requires scalars { length scalars.now ≡ length p.now.scalars }
    requires points { ArePoints p.now points.now }
    requires next { ArePoints p.now next.now }
    requires boxes { trusted ≡ true → HaveBoxes p.now scalars.now points.now }
    ensures { MatchOption result
        (trusted ≡ true
        → AreInBoxes p.now scalars.now points.now next.now (length p.now.plants))
        (λ o. (trusted ≡ true) × IsFirstOutside p.now scalars.now points.now next.now o) }
{
    if trusted {
        first_outside(p, scalars, points, next)
    } else {
        None
    }
}
