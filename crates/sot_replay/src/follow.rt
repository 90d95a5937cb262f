//! The lines behind the start lines, one after another.

ghost use Rattle.std.specs.Prelude.{◌≡◌, [], IfOk, IfErr};
ghost use Rattle.sot_trace.specs.Words.{AreWords};
ghost use Rattle.sot_replay.specs.Replays.{MatchFail};
ghost use Rattle.sot_replay.specs.Follows.{HasEnded, AreRefused};

use crate::counts::{ReplayCounts, counted};
use crate::desk::LineDesk;
use crate::fail::ReplayFail;
use crate::judge::judge;
use crate::judged::Judged;
use crate::missing::missing;
use sot_board::Board;
use sot_trace_lines::Lines;

/// The flight goes on by line after line, to its end. Nothing has happened yet.
pub fn follow(
    lines: &mut Lines<'_>,
    board: &mut Board<'_>,
    desk: &mut LineDesk,
) -> Result<(), ReplayFail>
    requires none { board.old.entries ≡ [] }
    requires words { AreWords board.old.accepted.program }
    ensures ended { IfOk result (λ _. HasEnded board.old board.new lines.old.to_come
        lines.old.number lines.new.to_come lines.new.number) }
    ensures refused { IfErr result (λ fail.
        MatchFail fail (λ _. ⊥) (AreRefused board.old lines.old.to_come lines.old.number)) }
{
    let mut counts = ReplayCounts {
        ticks: 0,
        refused: 0,
    };
    'lines: while let Some((number, line)) = lines.next() {
        board.reveal_invariant();
        match judge(board, line, counts, desk) {
            Ok(Judged::Goes(added)) => counts = counted(counts, added),
            Ok(Judged::Ends) => return Ok(()),
            Ok(Judged::Fails(kind)) => return Err(ReplayFail::Line { line: number, kind }),
            Err(_) => return Err(ReplayFail::Memory),
        }
    }
    board.reveal_invariant();
    Err(missing(lines))
}
