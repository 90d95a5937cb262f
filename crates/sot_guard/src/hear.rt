//! Whether what is heard names what is there.

ghost use Rattle.std.specs.Prelude.{◌≡◌, ℕ, [], length, slice_index_or};
ghost use Rattle.std.specs.Prelude.{IsTrue, ◌↔◌};
ghost use Rattle.sot_lists.specs.Places.{At};
ghost use Rattle.sot_lang.specs.declared.tables.PlantInfo.{PlantInfo};
ghost use Rattle.sot_world.specs.Events.{IsTypedInput};
ghost use Rattle.sot_world.specs.Changes.{ArePoints};
ghost use Rattle.sot_guard.specs.Hearing.{IsInputOf, IsExternal};

use sot_box::Point;
use sot_lang::{PlantInfo, Typed};
use sot_world::is_in_type;

/// Whether a topic is one of the environment, and has as many scalars as the value has numbers.
pub(crate) fn is_input(p: &Typed, topic: u32, value: &[i64]) -> bool
    ensures { IsTrue result ↔ IsInputOf p.now topic value.now }
{
    let k = topic as usize;
    if k < p.topics.len() {
        let info = &p.topics[k];
        info.outside && value.len() == info.count as usize
    } else {
        false
    }
}

/// Whether each number of a value is in range.
pub(crate) fn is_typed(p: &Typed, topic: u32, value: &[i64]) -> bool
    requires { IsInputOf p.now topic value.now }
    ensures { IsTrue result ↔ IsTypedInput p.now topic value.now }
{
    let info = &p.topics[topic as usize];
    is_in_type(&p.scalars, info.first as usize, value)
}

/// Whether a node is external.
pub(crate) fn is_external(p: &Typed, node: u32) -> bool
    ensures { IsTrue result ↔ IsExternal p.now node }
{
    let n = node as usize;
    if n < p.nodes.len() {
        !p.nodes[n].body.is_some()
    } else {
        false
    }
}

// Whether each of these points has a coordinate for each state variable of its plant.
fn have_widths(plants: &[PlantInfo], points: &[Point]) -> bool
    requires { length points.now ≡ length plants.now }
    ensures { IsTrue result ↔ ((k : ℕ) (plant : PlantInfo) → At plants.now k plant
        → length (slice_index_or points.now k []) ≡ length plant.states.items) }
{
    for k in 0..plants.len() {
        if points[k].len() != plants[k].states.len() {
            return false;
        }
    }
    true
}

/// Whether there is a point for each plant, of its width.
pub(crate) fn are_points(p: &Typed, points: &[Point]) -> bool
    ensures { IsTrue result ↔ ArePoints p.now points.now }
{
    points.len() == p.plants.len() && have_widths(&p.plants, points)
}
