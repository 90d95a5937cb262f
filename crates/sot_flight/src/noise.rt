//! The disturbances of a plant for a tick.

ghost use Rattle.std.specs.Prelude.{◌≡◌, ℕ, ◌+◌, ◌*◌, ◌<◌, ◌≤◌, ◌≢◌, ◌^◌, ◌++◌, [], length, take};
ghost use Rattle.std.specs.Prelude.{map};
ghost use Rattle.sot_lists.specs.Places.{At};
ghost use Rattle.sot_box.specs.Boxes.{lows, highs};
ghost use Rattle.sot_lang.specs.declared.tables.PlantInfo.{PlantInfo};
ghost use Rattle.sot_lang.specs.Ranges.{bounds};
ghost use Rattle.sot_lang.specs.Ticks.{joined};
ghost use Rattle.sot_flight.specs.Draws.{drawn_from};
ghost use Rattle.sot_flight.specs.declared.spread.Spread.{Spread};
ghost use Rattle.sot_flight.specs.Stated.{noise_of, noises};
ghost use Rattle.sot_flight.specs.Fits.{FitsSway};
ghost use Rattle.sot_flight.specs.NoiseRules.{HasNarrowNoise};
ghost use Rattle.sot_flight.specs.FlightView.{sway_of};

use crate::draws::{Jump, draw, words_from};
use crate::rows::row_of;
use crate::spread::{Spread, turn_of};
use crate::sway::Sway;
use sot_lang::{PlantInfo, Typed};

// A row, behind the first `first` numbers.
fn put_row(row: &[i64], first: usize, numbers: &mut [i64])
    requires { first + length row.now ≤ length numbers.old }
    ensures size { length numbers.new ≡ length numbers.old }
    ensures front { take (first + length row.now) numbers.new ≡ take first numbers.old ++ row.now }
{
    for i in 0..row.len() {
        numbers[first + i] = row[i];
    }
}

// The low bounds, behind the first `first` numbers.
fn put_lows(plant: &PlantInfo, first: usize, numbers: &mut [i64])
    requires { first + length plant.now.noise.items ≤ length numbers.old }
    ensures size { length numbers.new ≡ length numbers.old }
    ensures front { take (first + length plant.now.noise.items) numbers.new
        ≡ take first numbers.old ++ lows (bounds plant.now) }
{
    for i in 0..plant.noise.len() {
        numbers[first + i] = plant.noise[i].lo;
    }
}

// The high bounds, behind the first `first` numbers.
fn put_highs(plant: &PlantInfo, first: usize, numbers: &mut [i64])
    requires { first + length plant.now.noise.items ≤ length numbers.old }
    ensures size { length numbers.new ≡ length numbers.old }
    ensures front { take (first + length plant.now.noise.items) numbers.new
        ≡ take first numbers.old ++ highs (bounds plant.now) }
{
    for i in 0..plant.noise.len() {
        numbers[first + i] = plant.noise[i].hi;
    }
}

// A number in the bounds of each disturbance, from that word on, behind the first `first` numbers.
// Plants with as many disturbances share a jump.
fn put_drawn(
    plant: &PlantInfo,
    spread: Spread,
    seed: u64,
    stream: u64,
    given: u64,
    jump: &mut Jump,
    first: usize,
    numbers: &mut [i64],
)
    requires narrow { HasNarrowNoise plant.now }
    requires room { first + length plant.now.noise.items ≤ length numbers.old }
    ensures size { length numbers.new ≡ length numbers.old }
    ensures front { take (first + length plant.now.noise.items) numbers.new
        ≡ take first numbers.old ++ drawn_from spread seed stream given (bounds plant.now) }
{
    jump.turn_to(given);
    let mut words = jump.words_from(seed, stream);
    for i in 0..plant.noise.len() {
        let info = &plant.noise[i];
        numbers[first + i] = draw(&mut words, spread, info.lo, info.hi);
    }
}

/// The stated disturbances of a plant for a tick, behind the first `first` numbers.
pub(crate) fn put_noise(
    plant: &PlantInfo,
    sway: &Sway,
    tick: u32,
    jump: &mut Jump,
    first: usize,
    numbers: &mut [i64],
)
    requires narrow { HasNarrowNoise plant.now }
    requires fits { FitsSway plant.now (sway_of sway.now) }
    requires room { first + length plant.now.noise.items ≤ length numbers.old }
    ensures size { length numbers.new ≡ length numbers.old }
    ensures front { take (first + length plant.now.noise.items) numbers.new
        ≡ take first numbers.old ++ noise_of plant.now (sway_of sway.now) tick }
{
    match sway {
        Sway::Still => {}
        Sway::Low => put_lows(plant, first, numbers),
        Sway::High => put_highs(plant, first, numbers),
        Sway::Listed(rows) => put_row(row_of(rows, tick), first, numbers),
        Sway::Drawn {
            spread,
            seed,
            stream,
        } => {
            let given = u64::from(turn_of(*spread, tick)) * plant.noise.len() as u64;
            put_drawn(plant, *spread, *seed, *stream, given, jump, first, numbers)
        }
    }
}

/// A stated disturbance of a plant for a tick.
pub(crate) fn noise_at(plant: &PlantInfo, sway: &Sway, tick: u32, i: usize) -> i64
    requires narrow { HasNarrowNoise plant.now }
    requires fits { FitsSway plant.now (sway_of sway.now) }
    requires there { i < length plant.now.noise.items }
    ensures { At (noise_of plant.now (sway_of sway.now) tick) i result }
{
    let info = &plant.noise[i];
    match sway {
        Sway::Still => unreachable!(),
        Sway::Low => info.lo,
        Sway::High => info.hi,
        Sway::Listed(rows) => row_of(rows, tick)[i],
        Sway::Drawn {
            spread,
            seed,
            stream,
        } => {
            let turn = turn_of(*spread, tick);
            let given = u64::from(turn) * plant.noise.len() as u64 + i as u64;
            let mut words = words_from(*seed, *stream, given);
            draw(&mut words, *spread, info.lo, info.hi)
        }
    }
}

/// The stated disturbances of all plants for a tick, one plant after another.
pub(crate) fn put_all(p: &Typed, sways: &[Sway], tick: u32, numbers: &mut [i64])
    requires each { length sways.now ≡ length p.now.plants }
    requires fits { (k : ℕ) (plant : PlantInfo) (sway : _) → At p.now.plants k plant
        → At sways.now k sway → FitsSway plant (sway_of sway) }
    requires size { length numbers.old
        ≡ length (joined (noises p.now.plants (map sway_of sways.now) tick)) }
    ensures { numbers.new ≡ joined (noises p.now.plants (map sway_of sways.now) tick) }
{
    let mut jump = Jump::by(0);
    let mut count = 0;
    for k in 0..p.plants.len() {
        let plant = &p.plants[k];
        put_noise(plant, &sways[k], tick, &mut jump, count, numbers);
        count += plant.noise.len();
    }
}
