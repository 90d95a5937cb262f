//! `lend` has a file of its own: its clause names the row of `Held`, which the file that declares
//! `Held` cannot import.
ghost use Rattle.std.specs.Prelude.{◌≡◌};
ghost use types.Logic.{sem};
ghost use Rattle.sot_turn.specs.Passes.{held_value};
ghost use Rattle.sot_turn.specs.Lending.{LendsValue};

use crate::turn::Held;
use sot_turn_journal::Journal;

impl<'a, G: Journal> Held<'a, G> {
    /// The value. When the borrow ends, the holder has what was written through it.
    pub fn lend(&mut self) -> &mut G
        ensures* writes_back { sem 𝓛 (LendsValue G.row G.Ground.row G.Entry.row G.Journal self.entry
            result) }
        ensures value { result.now ≡ held_value self.old }
    {
        &mut self.value
    }
}
