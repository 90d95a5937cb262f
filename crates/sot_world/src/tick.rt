//! What a tick moves.

ghost use Rattle.std.specs.Prelude.{◌≡◌, ℕ, ◌+◌, ◌<◌, ◌≤◌, ◌++◌, [], pos, length, map, take};
ghost use Rattle.std.specs.Prelude.{slice_index_or};
ghost use Rattle.sot_lists.specs.Places.{At};
ghost use Rattle.sot_lang.specs.declared.tables.PlantInfo.{PlantInfo};
ghost use Rattle.sot_lang.specs.Ticks.{joined};
ghost use Rattle.sot_world.specs.Events.{cut, noise_count};
ghost use Rattle.sot_world.specs.Changes.{ArePoints, MayMove, IsMoved};

use sot_box::Point;
use sot_code::{plant_next_over, put, put_point};
use sot_lang::Typed;

// How many names a plant has at most.
const MOST_NAMES: usize = 80;

// The numbers of a plant's inputs, behind the first `from` numbers.
fn put_inputs(inputs: &[u32], scalars: &[i64], from: usize, numbers: &mut [i64])
    requires there { (i k : ℕ) → At inputs.now i k → k < length scalars.now }
    requires room { from + length inputs.now ≤ length numbers.old }
    ensures front { take (from + length inputs.now) numbers.new
        ≡ take from numbers.old ++ map (λ k. slice_index_or scalars.now k (pos 0)) inputs.now }
    ensures size { length numbers.new ≡ length numbers.old }
{
    for i in 0..inputs.len() {
        numbers[from + i] = scalars[inputs[i] as usize];
    }
}

// The points of the plants that a plant sees, one plant after another, behind the first `from`
// numbers, and how many numbers there are then.
fn put_seen(sees: &[u32], points: &[Point], from: usize, numbers: &mut [i64]) -> usize
    requires there { (i k : ℕ) → At sees.now i k → k < length points.now }
    requires few { length sees.now ≤ 16 }
    requires room { from + 64 ≤ length numbers.old }
    requires short { length numbers.old ≤ 80 }
    ensures few { result ≤ from + 64 }
    ensures front { take result numbers.new
        ≡ take from numbers.old ++ joined (map (λ k. slice_index_or points.now k []) sees.now) }
    ensures size { length numbers.new ≡ length numbers.old }
{
    let mut count = from;
    for i in 0..sees.len() {
        let point = &points[sees[i] as usize];
        let more = point.len();
        put_point(point, count, numbers);
        count += more;
    }
    count
}

// A plant's point after a tick, from these scalars and points and with these disturbances. The last
// list is room, which is shared by all plants so that it is cleared once a tick.
fn next_point(
    p: &Typed,
    plant: u32,
    scalars: &[i64],
    points: &[Point],
    noise: &[i64],
    numbers: &mut [i64],
) -> Point
    requires points { ArePoints p.now points.now }
    requires moves { MayMove p.now plant scalars.now points.now noise.now }
    requires room { length numbers.old ≡ 80 }
    ensures moved { IsMoved p.now plant scalars.now points.now noise.now result }
    ensures room { length numbers.new ≡ 80 }
{
    let info = &p.plants[plant as usize];
    let point = &points[plant as usize];
    let states = point.len();
    let held = states + info.inputs.len();
    put_point(point, 0, numbers);
    put_inputs(&info.inputs, scalars, states, numbers);
    let seen = put_seen(&info.sees, points, held, numbers);
    put(noise, seen, numbers);
    let (names, _) = numbers.split_at(seen + noise.len());
    match plant_next_over(p, plant, names) {
        Ok(next) => next,
        Err(_) => unreachable!(),
    }
}

/// All plants move, each from these points and with its part of the disturbances.
pub fn move_all(p: &Typed, scalars: &[i64], points: &[Point], noise: &[i64], next: &mut [Point])
    requires points { ArePoints p.now points.now }
    requires moves { (k : ℕ) (plant : PlantInfo) → At p.now.plants k plant
        → MayMove p.now k scalars.now points.now
        (slice_index_or (cut p.now.plants noise.now) k []) }
    requires noise { length noise.now ≡ noise_count p.now.plants }
    requires size { length next.old ≡ length p.now.plants }
    ensures { (k : ℕ) → k < length p.now.plants
        → IsMoved p.now k scalars.now points.now (slice_index_or (cut p.now.plants noise.now) k [])
        (slice_index_or next.new k []) }
{
    let mut numbers = [0; MOST_NAMES];
    let (_, mut rest) = noise.split_at(0);
    for k in 0..p.plants.len() {
        let (own, more) = rest.split_at(p.plants[k].noise.len());
        next[k] = next_point(p, k as u32, scalars, points, own, &mut numbers);
        rest = more;
    }
}
