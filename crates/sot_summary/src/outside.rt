//! Plants outside their safe regions.

ghost use Rattle.std.specs.Prelude.{◌≡◌, ◌<◌, ◌≤◌, ◌&&◌, int_le, [], length, slice_index_or};
ghost use Rattle.sot_board.specs.Counts.{state_count};
ghost use Rattle.sot_summary.specs.Fronts.{AreFronts};
ghost use Rattle.sot_summary.specs.Outside.{is_in_region, points_in, is_outside};

use sot_box::{Point, Region};
use sot_lang::{PlantInfo, Typed};

// The states of a plant, of those of all plants, one plant after another.
fn states_of<'s>(
    plants: &[PlantInfo],
    fronts: &[usize; 100],
    states: &'s [i64],
    plant: usize,
) -> &'s [i64]
    requires there { plant < length plants.now }
    requires few { length plants.now ≤ 100 }
    requires fronts { AreFronts plants.now fronts.now }
    requires size { length states.now ≡ state_count plants.now }
    ensures { result.now ≡ slice_index_or (points_in plants.now states.now) plant [] }
{
    let from = fronts[plant];
    &states[from..from + plants[plant].states.len()]
}

// Whether a number is between two ends.
fn is_between(lo: i64, hi: i64, x: i64) -> bool
    ensures { result ≡ (int_le lo x && int_le x hi) }
{
    lo <= x && x <= hi
}

// Whether a point is in a region.
fn is_in_region(region: &Region, at: &[i64]) -> bool
    requires width { length at.now ≡ region.now.width }
    requires some { 0 < length at.now }
    requires few { length at.now ≤ 4 }
    ensures { result ≡ is_in_region region.now.boxes at.now }
{
    if region.len() == 1 && at.len() == 1 {
        // Most regions are one box of one axis, for which no point is made.
        let side = region.at(0).side(0);
        return is_between(side.lo, side.hi, at[0]);
    }
    match Point::of(at) {
        Some(point) => region.has(&point),
        None => unreachable!(),
    }
}

/// Whether some module's plant is outside the module's safe region.
pub fn is_outside(p: &Typed, fronts: &[usize; 100], states: &[i64]) -> bool
    requires fronts { AreFronts p.now.plants fronts.now }
    requires size { length states.now ≡ state_count p.now.plants }
    ensures { result ≡ is_outside p.now states.now }
{
    for m in 0..p.modules.len() {
        let info = &p.modules[m];
        let at = states_of(&p.plants, fronts, states, info.plant as usize);
        if !is_in_region(&info.safe, at) {
            return true;
        }
    }
    false
}
