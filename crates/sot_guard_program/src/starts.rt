//! Where a robot's plants are observed first.

ghost use Rattle.std.specs.Prelude.{◌≡◌, true, [], length, Err};
ghost use Rattle.sot_guard_input.specs.Reading.{IsSettled, IsLine};
ghost use Rattle.sot_guard_program.specs.Moments.{ears};
ghost use Rattle.sot_guard_program.specs.Hearing.{PassesFirst, AnswersFirst, AnswersFirsts};

use crate::halt::{Halt, Stop};
use crate::line::{next_line, without_end};
use sot_guard_input::Ear;
use sot_guard_protocol::TalkOpening;
use sot_ports::Source;

// The first line that waits says where the next plant was observed, and is passed.
fn take_start(opening: &mut TalkOpening<'_>, ear: &mut Ear, len: usize) -> Result<(), Stop>
    requires { (left : _) × IsLine len left ear.old }
    ensures { PassesFirst opening.old opening.new len ear.old ear.new result }
{
    let heard = opening.hear(without_end(&ear.bytes()[..len]));
    ear.pass(len);
    match heard {
        Ok(()) => Ok(()),
        Err(why) => Err(Stop::Misheard(why)),
    }
}

// The next line says where the next plant was observed.
fn hear_start<S: Source>(
    opening: &mut TalkOpening<'_>,
    ear: &mut Ear,
    source: &mut S,
) -> Result<(), Stop>
    requires settled { IsSettled (S.left source.old) ear.old.buffer ear.old.ended }
    ensures ended { ear.old.ended ≡ true → result ≡ Err Stop.Missing }
    ensures first { AnswersFirst opening.old opening.new
        (ears (S.left source.old) (S.faults source.old) ear.old)
        (ears (S.left source.new) (S.faults source.new) ear.new) result }
{
    if ear.has_ended() {
        return Err(Stop::Missing);
    }
    match next_line(ear, source) {
        Ok(Some(len)) => take_start(opening, ear, len),
        Ok(None) => Err(Stop::Missing),
        Err(stop) => Err(stop),
    }
}

/// Hears where each plant was observed first, line by line.
pub(crate) fn hear_starts<S: Source>(
    opening: &mut TalkOpening<'_>,
    plants: usize,
    ear: &mut Ear,
    source: &mut S,
) -> Result<(), Halt>
    requires none { opening.old.starts ≡ [] }
    requires plants { plants ≡ length opening.old.accepted.program.plants }
    requires settled { IsSettled (S.left source.old) ear.old.buffer ear.old.ended }
    ensures { AnswersFirsts opening.old opening.new
        (ears (S.left source.old) (S.faults source.old) ear.old)
        (ears (S.left source.new) (S.faults source.new) ear.new) result }
{
    for i in 0..plants {
        match hear_start(opening, ear, source) {
            Ok(()) => {}
            Err(stop) => return Err(Halt { line: i + 1, stop }),
        }
    }
    Ok(())
}
