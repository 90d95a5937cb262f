//! The states of all plants, as a history has them.

ghost use Rattle.std.specs.Prelude.{◌≡◌, ℕ, ◌+◌, ◌<◌, ◌≤◌, ◌++◌, length, take};
ghost use Rattle.sot_lang.specs.Ticks.{joined};
ghost use Rattle.sot_world.specs.Changes.{ArePoints};
ghost use Rattle.sot_board.specs.Counts.{state_count};

use sot_code::put_point;
use sot_world::World;

/// The states of all plants of a world, one plant after another.
pub fn put_states(world: &World<'_>, plants: u32, states: &mut [i64])
    requires plants { plants ≡ length world.now.accepted.program.plants }
    requires points { ArePoints world.now.accepted.program world.now.at.points }
    requires room { length states.old ≡ state_count world.now.accepted.program.plants }
    ensures { states.new ≡ joined world.now.at.points }
{
    let mut count = 0;
    for k in 0..plants {
        let point = world.state(k);
        put_point(&point, count, states);
        count += point.len();
    }
}
