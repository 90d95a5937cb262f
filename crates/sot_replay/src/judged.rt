//! What is judged of a line behind the start lines.

ghost use Rattle.std.specs.Prelude.{◌≡◌};
ghost use Rattle.sot_replay.specs.Judges.{kind_of};

use crate::fail::LineKind;
use sot_world::Why;

/// What the entry of a line adds to the counts of the last line: ticks, and numbers outside their
/// scalars' ranges.
#[derive(Clone, Copy)]
pub struct Added {
    pub ticks: u8,
    pub refused: u8,
}

/// What is judged of a line where a flight stands.
#[derive(Clone, Copy)]
pub enum Judged {
    /// The flight goes on by it.
    Goes(Added),
    /// The flight is at its end, and it is the last line.
    Ends,
    /// The first test that it does not pass.
    Fails(LineKind),
}

/// The test that fails where the world refuses.
pub fn kind_of(why: Why) -> LineKind
    ensures { result ≡ kind_of why }
{
    match why {
        Why::NotDue => LineKind::NotDue,
        Why::AlreadyFired => LineKind::AlreadyFired,
        Why::NodesLeft => LineKind::NodesLeft,
        Why::OutsideType => LineKind::OutsideType,
    }
}
