//! How the words of a generator are spread over ranges.

ghost use Rattle.std.specs.Prelude.{◌≡◌, ◌≤◌};
ghost use Rattle.sot_flight.specs.Draws.{IsSpread, turn};

/// How the words of a generator stand for numbers of ranges.
#[derive(Clone, Copy, Debug, PartialEq, Eq)]
pub enum Spread {
    /// Each stands for any number of its range.
    Anywhere,
    /// Each stands for an end of its range. An end is held for so many ticks, or firings.
    Ends(u32),
}

/// At which turn the words of a tick, or of a firing, come: held ones come once for all that they
/// are held.
pub(crate) fn turn_of(spread: Spread, number: u32) -> u32
    requires { IsSpread spread }
    ensures value { result ≡ turn spread number }
    ensures bound { result ≤ number }
{
    match spread {
        Spread::Anywhere => number,
        Spread::Ends(hold) => number / hold,
    }
}
