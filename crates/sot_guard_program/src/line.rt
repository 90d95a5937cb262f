//! The next line of a robot.

ghost use Rattle.std.specs.Prelude.{◌≡◌, ◌+◌, ◌<◌, ◌^◌, false, [], ◌∷◌, length, IfOk, IfErr, OnOk};
ghost use Rattle.sot_text.specs.LineEnds.{lines};
ghost use Rattle.sot_trace_lines.specs.LentLines.{lent_lines};
ghost use Rattle.sot_guard_input.specs.Reading.{Reads};
ghost use Rattle.sot_guard_program.specs.Moments.{ears};
ghost use Rattle.sot_guard_program.specs.Hearing.{IsNextLine, IsNoLine};

use crate::halt::Stop;
use sot_guard::Misheard;
use sot_guard_input::{Ear, Next};
use sot_ports::{Failed, Source};
use sot_trace_lines::Lines;

/// How long the next line is, with its line end; none where there is none any more.
pub(crate) fn next_line<S: Source>(ear: &mut Ear, source: &mut S) -> Result<Option<usize>, Stop>
    requires open { ear.old.ended ≡ false }
    ensures reads { Reads (S.left source.old) (S.left source.new) ear.old.buffer ear.new.buffer [] }
    ensures next { IfOk result (λ len. IsNextLine len (S.left source.new) ear.new) }
    ensures none { IfErr result (λ stop. IsNoLine stop
        (ears (S.left source.old) (S.faults source.old) ear.old)
        (ears (S.left source.new) (S.faults source.new) ear.new)) }
    ensures well { OnOk result (S.faults source.new ≡ S.faults source.old) }
{
    match ear.next(source) {
        Ok(Next::Line(len)) => Ok(Some(len)),
        Ok(Next::End) => Ok(None),
        Ok(Next::TooLong) => Err(Stop::Misheard(Misheard::NotALine)),
        Err(Failed) => Err(Stop::Source),
    }
}

/// A line without its line end.
pub(crate) fn without_end(line: &[u8]) -> &[u8]
    requires one { lines line.now ≡ line.now ∷ [] }
    requires short { length line.now + 1 < 2 ^ 32 }
    ensures { lent_lines line.now ≡ result.now ∷ [] }
{
    match Lines::new(line).next() {
        Some((_, text)) => text,
        None => line,
    }
}
