//! What a view tells.

ghost use Rattle.std.specs.Prelude.{◌≡◌, ◌<◌, length, slice_get, Some, IsTrue, ◌↔◌};
ghost use Rattle.sot_board.specs.Views.{viewed_node, viewed_time, viewed_numbers, viewed_versions};
ghost use Rattle.sot_board.specs.Views.{viewed_locals};

use super::View;
use sot_code::{Locals, Seen};

impl View {
    /// The node.
    pub fn node(&self) -> u32
        ensures { result ≡ viewed_node self.now }
    {
        self.node
    }

    /// The time at which it was taken, in ticks.
    pub fn time(&self) -> u32
        ensures { result ≡ viewed_time self.now }
    {
        self.time
    }

    /// How many numbers of read slots it has, at most 64.
    pub fn len(&self) -> usize
        ensures { result ≡ length (viewed_numbers self.now) }
    {
        self.count
    }

    /// The number in a read slot.
    pub fn value(&self, i: usize) -> i64
        requires { i < length (viewed_numbers self.now) }
        ensures { slice_get (viewed_numbers self.now) i ≡ Some result }
    {
        let numbers = &self.numbers;
        numbers[i]
    }

    // Whether two views have the same versions.
    pub(crate) fn has_versions_of(&self, other: &View) -> bool
        ensures { IsTrue result ↔ (viewed_versions self.now ≡ viewed_versions other.now) }
    {
        let mine = &self.versions;
        let (mine, _) = mine.split_at(self.count);
        let others = &other.versions;
        let (others, _) = others.split_at(other.count);
        mine == others
    }

    /// The node's locals.
    pub fn locals(&self) -> Locals
        ensures { result ≡ viewed_locals self.now }
    {
        self.locals
    }
}

impl Seen for View {
    ghost use Rattle.sot_board.specs.Views.{viewed_numbers};

    ghost numbers = { viewed_numbers };

    fn read(&self, i: usize) -> i64 {
        self.value(i)
    }
}
