//! When the parts of a module are due for the first time.

ghost use Rattle.std.specs.Prelude.{◌≡◌};
ghost use Rattle.sot_maker.specs.Offsets.{offsets_of};

/// The offsets of a module's decisions, of its advanced node and of its safe node.
#[derive(Clone, Copy)]
pub(crate) struct Offsets {
    pub(crate) decides: u32,
    pub(crate) fast: u32,
    pub(crate) slow: u32,
}

/// The offsets that a word stands for: no two of the three parts are due in one instant.
pub(crate) fn offsets_of(word: u32) -> Offsets
    ensures { result ≡ offsets_of word }
{
    let slow = word % 2;
    let late = (word / 2) % 2;
    Offsets {
        decides: (1 - slow) + 2 * late,
        fast: (1 - slow) + 2 * (1 - late),
        slow,
    }
}
