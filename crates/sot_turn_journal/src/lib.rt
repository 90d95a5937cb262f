//! What a value has to be that is taken in turns: it stands for a ground, which never changes, and
//! for a list, which only grows.
//!
//! The lock (`sot_turn`) and the values behind it know this trait, and not each other.
#![tactic(auto)]

ghost use Rattle.std.specs.Prelude.{◌≡◌, List, length};

/// A value that stands for a ground and for a list of entries, both plain data.
pub trait Journal {
    type Ground;

    type Entry;

    ghost ground: { Self → Self.Ground };

    ghost entries: { Self → List Self.Entry };

    /// The length of the list. It takes no memory.
    fn len(&self) -> u64
        ensures { result ≡ length (entries self.now) };
}
