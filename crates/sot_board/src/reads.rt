//! What a node reads now, and the versions of the topics that it reads.

ghost use Rattle.std.specs.Prelude.{◌≡◌, ℕ, ◌<◌, ◌≤◌, length, map, take};
ghost use Rattle.sot_lists.specs.Places.{At};
ghost use Rattle.sot_lang.specs.declared.tables.Slot.{Slot as Read};
ghost use Rattle.sot_lang.specs.Readings.{number_at};
ghost use Rattle.sot_world.specs.Configurations.{IsSized};
ghost use Rattle.sot_world.specs.Changes.{IsThere, AreThere};
ghost use Rattle.sot_board.specs.ReadCounts.{HasCount, count_of};

use sot_lang::{Slot, Typed};
use sot_world::World;

/// The number in a slot.
pub fn number_in(world: &World<'_>, slot: &Slot) -> i64
    requires sized { IsSized world.now.accepted.program world.now.at }
    requires there { IsThere world.now.at.scalars world.now.at.points slot.now }
    ensures { result ≡ number_at world.now.at.scalars world.now.at.points slot.now }
{
    match *slot {
        Slot::Scalar(k) => world.scalar(k),
        Slot::State { plant, var } => world.state(plant).at(var as usize),
    }
}

/// The numbers in a node's read slots, at the front.
pub fn read_numbers(world: &World<'_>, reads: &[Slot], numbers: &mut [i64])
    requires sized { IsSized world.now.accepted.program world.now.at }
    requires there { AreThere world.now.at.scalars world.now.at.points reads.now }
    requires room { length reads.now ≤ length numbers.old }
    ensures size { length numbers.new ≡ length numbers.old }
    ensures front { take (length reads.now) numbers.new
        ≡ map (number_at world.now.at.scalars world.now.at.points) reads.now }
{
    for i in 0..reads.len() {
        let number = number_in(world, &reads[i]);
        numbers[i] = number;
    }
}

// The count of the topic that is read in a slot, and 0 for a state.
fn count_in(p: &Typed, slot: &Slot, counts: &[u32]) -> u32
    requires { HasCount p.now counts.now slot.now }
    ensures { result ≡ count_of p.now counts.now slot.now }
{
    match *slot {
        Slot::Scalar(k) => counts[p.scalars[k as usize].topic as usize],
        Slot::State { .. } => 0,
    }
}

/// The counts of the topics that are read in a node's slots, at the front.
pub fn read_counts(p: &Typed, reads: &[Slot], counts: &[u32], versions: &mut [u32])
    requires there { (i : ℕ) (slot : Read) → At reads.now i slot → HasCount p.now counts.now slot }
    requires room { length reads.now ≤ length versions.old }
    ensures size { length versions.new ≡ length versions.old }
    ensures front { take (length reads.now) versions.new
        ≡ map (count_of p.now counts.now) reads.now }
{
    for i in 0..reads.len() {
        let count = count_in(p, &reads[i], counts);
        versions[i] = count;
    }
}
