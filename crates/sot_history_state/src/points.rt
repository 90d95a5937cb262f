//! The points of a scene.

ghost use Rattle.std.specs.Prelude.{◌≡◌, ℕ, ◌≤◌, length};
ghost use Rattle.sot_lists.specs.Places.{At};
ghost use Rattle.sot_lang.specs.declared.tables.PlantInfo.{PlantInfo};
ghost use Rattle.sot_board.specs.Counts.{state_count};
ghost use Rattle.sot_summary.specs.Outside.{points_in};

use sot_box::Point;
use sot_lang::PlantInfo;

/// Each plant's point is the one among these states, which stand one plant after another.
pub fn put_points(plants: &[PlantInfo], states: &[i64], points: &mut [Point])
    requires size { length points.old ≡ length plants.now }
    requires count { length states.now ≡ state_count plants.now }
    requires widths { (k : ℕ) (plant : PlantInfo) → At plants.now k plant
        → (1 ≤ length plant.states.items) × (length plant.states.items ≤ 4) }
    ensures { points.new ≡ points_in plants.now states.now }
{
    let (_, mut rest) = states.split_at(0);
    for k in 0..plants.len() {
        let (own, more) = rest.split_at(plants[k].states.len());
        match Point::of(own) {
            Some(point) => points[k] = point,
            None => unreachable!(),
        }
        rest = more;
    }
}
