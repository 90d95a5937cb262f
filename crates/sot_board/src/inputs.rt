//! What a node reads, lent from a board.

ghost use Rattle.std.specs.Prelude.{◌≡◌, map};
ghost use Rattle.sot_lang.specs.Readings.{number_at};
ghost use Rattle.sot_world.specs.Configurations.{IsSized};
ghost use Rattle.sot_world.specs.Changes.{AreThere};

use crate::reads::number_in;
use sot_code::Seen;
use sot_lang::Slot;
use sot_world::World;
use std::marker::Model;

/// The numbers in a node's read slots, read where they stand, for as long as the board is lent.
#[derive(Drop)]
pub struct Inputs<'b, 'a> {
    reads: &'b [Slot],
    world: &'b World<'a>,
}

impl<'b, 'a> Model for Inputs<'b, 'a> {
    ghost use Rattle.std.specs.Prelude.{List, ℤ, map};
    ghost use Rattle.sot_lang.specs.Readings.{number_at};
    ghost use Rattle.sot_world.specs.Configurations.{IsSized};
    ghost use Rattle.sot_world.specs.Changes.{AreThere};

    ghost Value = { List ℤ };

    ghost view = { λ l. map (number_at l.world.now.at.scalars l.world.now.at.points) l.reads.now };

    ghost invariant = { λ l. IsSized l.world.now.accepted.program l.world.now.at
        × AreThere l.world.now.at.scalars l.world.now.at.points l.reads.now };
}

impl<'b, 'a> Inputs<'b, 'a> {
    pub(crate) fn of(reads: &'b [Slot], world: &'b World<'a>) -> Inputs<'b, 'a>
        requires sized { IsSized world.now.accepted.program world.now.at }
        requires there { AreThere world.now.at.scalars world.now.at.points reads.now }
        ensures { result ≡ map (number_at world.now.at.scalars world.now.at.points) reads.now }
    {
        Inputs { reads, world }
    }
}

impl<'b, 'a> Seen for Inputs<'b, 'a> {
    ghost numbers = { λ l. l };

    fn read(&self, i: usize) -> i64 {
        let reads = self.reads;
        number_in(self.world, &reads[i])
    }
}
