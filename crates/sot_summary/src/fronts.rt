//! Where the states of each plant begin.

ghost use Rattle.std.specs.Prelude.{◌≤◌, length};
ghost use Rattle.sot_board.specs.Counts.{state_count};
ghost use Rattle.sot_summary.specs.Fronts.{AreFronts};

use sot_lang::PlantInfo;

/// The first place of each plant's states, where those of all plants stand one plant after another.
pub fn fronts_of(plants: &[PlantInfo]) -> [usize; 100]
    requires few { length plants.now ≤ 100 }
    requires few_states { state_count plants.now ≤ 400 }
    ensures { AreFronts plants.now result }
{
    let mut fronts = [0; 100];
    let mut from = 0;
    for i in 0..plants.len() {
        fronts[i] = from;
        from += plants[i].states.len();
    }
    fronts
}
