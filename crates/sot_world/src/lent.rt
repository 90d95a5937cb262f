//! The numbers that a node reads, lent from where they stand.

ghost use Rattle.std.specs.Prelude.{◌≡◌, map};
ghost use Rattle.sot_lang.specs.Readings.{number_at};
ghost use Rattle.sot_world.specs.Changes.{IsThere, AreThere};

use sot_box::Point;
use sot_code::Seen;
use sot_lang::Slot;
use std::marker::Model;

// The number in a slot.
fn number_in(slot: &Slot, scalars: &[i64], points: &[Point]) -> i64
    requires { IsThere scalars.now points.now slot.now }
    ensures { result ≡ number_at scalars.now points.now slot.now }
{
    match *slot {
        Slot::Scalar(k) => scalars[k as usize],
        Slot::State { plant, var } => points[plant as usize].at(var as usize),
    }
}

/// The numbers in a node's read slots, read where they stand: in these scalars and points.
#[derive(Drop)]
pub struct Lent<'w> {
    reads: &'w [Slot],
    scalars: &'w [i64],
    points: &'w [Point],
}

impl<'w> Model for Lent<'w> {
    ghost use Rattle.std.specs.Prelude.{List, ℤ, map};
    ghost use Rattle.sot_lang.specs.Readings.{number_at};
    ghost use Rattle.sot_world.specs.Changes.{AreThere};

    ghost Value = { List ℤ };

    ghost view = { λ l. map (number_at l.scalars.now l.points.now) l.reads.now };

    ghost invariant = { λ l. AreThere l.scalars.now l.points.now l.reads.now };
}

impl<'w> Lent<'w> {
    pub fn of(reads: &'w [Slot], scalars: &'w [i64], points: &'w [Point]) -> Lent<'w>
        requires { AreThere scalars.now points.now reads.now }
        ensures { result ≡ map (number_at scalars.now points.now) reads.now }
    {
        Lent {
            reads,
            scalars,
            points,
        }
    }
}

impl<'w> Seen for Lent<'w> {
    ghost numbers = { λ l. l };

    fn read(&self, i: usize) -> i64 {
        let reads = self.reads;
        number_in(&reads[i], self.scalars, self.points)
    }
}
