//! How many numbers a tick has.

ghost use Rattle.std.specs.Prelude.{◌≡◌, ℕ, ◌≤◌, length};
ghost use Rattle.sot_lists.specs.Places.{At};
ghost use Rattle.sot_lang.specs.declared.tables.PlantInfo.{PlantInfo as Plant};
ghost use Rattle.sot_world.specs.Events.{noise_count};
ghost use Rattle.sot_board.specs.Counts.{state_count};

use sot_lang::PlantInfo;

/// The number of disturbances of these plants.
pub fn count_noise(plants: &[PlantInfo]) -> usize
    requires few { length plants.now ≤ 100 }
    requires each { (k : ℕ) (plant : Plant) → At plants.now k plant → length plant.noise.items ≤ 4 }
    ensures { result ≡ noise_count plants.now }
{
    let mut count = 0;
    for plant in plants {
        count += plant.noise.len();
    }
    count
}

/// The number of state variables of these plants.
pub fn count_states(plants: &[PlantInfo]) -> usize
    requires few { length plants.now ≤ 100 }
    requires each { (k : ℕ) (plant : Plant) → At plants.now k plant
        → length plant.states.items ≤ 4 }
    ensures { result ≡ state_count plants.now }
{
    let mut count = 0;
    for plant in plants {
        count += plant.states.len();
    }
    count
}
