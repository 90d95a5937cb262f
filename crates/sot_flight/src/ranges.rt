//! The ranges of a topic's scalars and of a plant's disturbances, as lists.

ghost use Rattle.std.specs.Prelude.{◌≡◌, ◌<◌, ◌+◌, length, take, drop, IfOk};
ghost use Rattle.sot_lang.specs.Ranges.{bounds};
ghost use Rattle.sot_flight.specs.NoiseRules.{HasNarrowNoise};
ghost use Rattle.sot_flight.specs.FlightFormat.{topic_ranges};

use sot_box::Interval;
use sot_lang::{PlantInfo, Typed};
use std::alloc::{AllocError, Global};

/// The bounds of a plant's disturbances.
pub(crate) fn bounds_of(alloc: Global, plant: &PlantInfo) -> Result<Vec<Interval>, AllocError>
    requires { HasNarrowNoise plant.now }
    ensures { IfOk result (λ v. v.items ≡ bounds plant.now) }
{
    let mut found = Vec::new(alloc);
    for i in 0..plant.noise.len() {
        let info = &plant.noise[i];
        match Interval::new(info.lo, info.hi) {
            Some(range) => found.push(range)?,
            None => unreachable!(),
        }
    }
    Ok(found)
}

/// The ranges of a topic's scalars.
pub(crate) fn ranges_of_topic(
    alloc: Global,
    p: &Typed,
    topic: u32,
) -> Result<Vec<Interval>, AllocError>
    requires { topic < length p.now.topics }
    ensures { IfOk result (λ v. v.items ≡ topic_ranges p.now topic) }
{
    let info = &p.topics[topic as usize];
    let mut found = Vec::new(alloc);
    for i in 0..info.count as usize {
        let scalar = &p.scalars[info.first as usize + i];
        match Interval::new(scalar.lo, scalar.hi) {
            Some(range) => found.push(range)?,
            None => unreachable!(),
        }
    }
    Ok(found)
}
