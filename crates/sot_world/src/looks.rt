//! Looks at lists of numbers.

ghost use Rattle.std.specs.Prelude.{◌≡◌, ℕ, ◌+◌, ◌<◌, ◌≤◌, ℤ, length, IsTrue, ◌↔◌, int_le, ◌&&◌};
ghost use Rattle.sot_lists.specs.Places.{At};
ghost use Rattle.sot_box.specs.Sides.{IsIn};
ghost use Rattle.sot_box.specs.Boxes.{IsWithin};
ghost use Rattle.sot_lang.specs.Ranges.{range_of};
ghost use Rattle.sot_world.specs.Events.{IsInBounds, noise_count};
ghost use Rattle.sot_world.specs.Bounds.{noise_ranges};

use sot_lang::{NoiseInfo, PlantInfo, ScalarInfo};

/// Whether a number is in a range.
pub fn is_in(lo: i64, hi: i64, z: i64) -> bool
    ensures value { result ≡ (int_le lo z && int_le z hi) }
    ensures inside { IsTrue result ↔ IsIn (record { lo = lo; hi = hi }) z }
{
    lo <= z && z <= hi
}

/// Whether each number is in its scalar's range, from the scalar `first` on.
pub fn is_in_type(infos: &[ScalarInfo], first: usize, value: &[i64]) -> bool
    requires { first + length value.now ≤ length infos.now }
    ensures { IsTrue result ↔ ((i : ℕ) (z : ℤ) → At value.now i z
        → IsIn (range_of infos.now (first + i)) z) }
{
    for i in 0..value.len() {
        let info = &infos[first + i];
        if !is_in(info.lo, info.hi, value[i]) {
            return false;
        }
    }
    true
}

// Whether each disturbance of a plant is in its bounds.
fn is_within(noise: &[NoiseInfo], own: &[i64]) -> bool
    requires { length own.now ≡ length noise.now }
    ensures { IsTrue result ↔ IsWithin (noise_ranges noise.now) own.now }
{
    for i in 0..noise.len() {
        let info = &noise[i];
        if !is_in(info.lo, info.hi, own[i]) {
            return false;
        }
    }
    true
}

/// Whether the disturbances of all plants, one plant after another, are in their bounds.
pub fn is_in_bounds(plants: &[PlantInfo], noise: &[i64]) -> bool
    requires { length noise.now ≡ noise_count plants.now }
    ensures { IsTrue result ↔ IsInBounds plants.now noise.now }
{
    let (_, mut rest) = noise.split_at(0);
    for plant in plants {
        let (own, more) = rest.split_at(plant.noise.len());
        if !is_within(&plant.noise, own) {
            return false;
        }
        rest = more;
    }
    true
}
