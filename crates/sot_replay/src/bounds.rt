//! Whether disturbances are in the bounds of their plants.

ghost use Rattle.std.specs.Prelude.{◌≡◌, ℤ, List, length, IsTrue, ◌↔◌};
ghost use Rattle.sot_world.specs.Events.{IsInBounds, noise_count};
ghost use Rattle.sot_trace_lines.specs.Shown.{Holds};

use crate::ranges::bounds_have_64_bits;
use sot_lang::PlantInfo;
use sot_world::is_in_bounds;

/// Whether disturbances that were read are in their bounds. One of more than 64 bits is not.
pub fn are_possible(plants: &[PlantInfo], whole: bool, noise: &[i64]) -> bool
    requires { (all : List ℤ) × (length all ≡ noise_count plants.now) × Holds whole noise.now all }
    ensures { (all : List ℤ) → length all ≡ noise_count plants.now → Holds whole noise.now all
        → IsTrue result ↔ IsInBounds plants.now all }
{
    if whole {
        return is_in_bounds(plants, noise);
    }
    bounds_have_64_bits(plants);
    false
}
