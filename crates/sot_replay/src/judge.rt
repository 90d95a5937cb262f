//! A line behind the start lines.

ghost use Rattle.std.specs.Prelude.{◌≡◌, sum_by, Some, IfOk};
ghost use Rattle.sot_trace.specs.Lines.{ticks_in, refused_in};
ghost use Rattle.sot_trace.specs.Words.{AreWords};
ghost use Rattle.sot_trace_lines.specs.Shown.{AnswersLine};
ghost use Rattle.sot_replay.specs.Judges.{IsJudged};

use crate::counts::ReplayCounts;
use crate::decision::judge_decision;
use crate::desk::LineDesk;
use crate::end::judge_end;
use crate::fail::LineKind;
use crate::firing::judge_firing;
use crate::input::judge_input;
use crate::judged::Judged;
use crate::tick::judge_tick;
use sot_board::Board;
use sot_trace_lines::{Line, LineFront};
use std::alloc::AllocError;

// Judges a line that was read to its end.
fn judge_whole(
    board: &mut Board<'_>,
    line: &[u8],
    read: Line,
    counts: ReplayCounts,
    desk: &mut LineDesk,
) -> Result<Judged, AllocError>
    requires words { AreWords board.old.accepted.program }
    requires read { AnswersLine board.old.accepted.program line.now desk.old.numbers.items
        (Some read) }
    requires ticks { counts.ticks ≡ sum_by ticks_in board.old.entries }
    requires refused { counts.refused ≡ sum_by (refused_in board.old.accepted.program)
        board.old.entries }
    ensures { IfOk result (IsJudged board.old board.new line.now) }
{
    board.reveal_invariant();
    match read {
        Line::Input { time, topic, whole } => {
            Ok(judge_input(board, line, time, topic, whole, &desk.numbers))
        }
        Line::Fire { time, node, .. } => judge_firing(board, line, time, node, desk),
        Line::Decide { time, module } => Ok(judge_decision(board, line, time, module)),
        Line::Tick { time, .. } => judge_tick(board, line, time, desk),
        Line::End { ticks } => judge_end(board, line, ticks, counts, &mut desk.printed),
    }
}

/// Judges a line where a flight stands: the first test that it does not pass, or the flight goes on
/// by it, or it is the last one at the flight's end. The counts are those of the history so far.
pub fn judge(
    board: &mut Board<'_>,
    line: &[u8],
    counts: ReplayCounts,
    desk: &mut LineDesk,
) -> Result<Judged, AllocError>
    requires words { AreWords board.old.accepted.program }
    requires ticks { counts.ticks ≡ sum_by ticks_in board.old.entries }
    requires refused { counts.refused ≡ sum_by (refused_in board.old.accepted.program)
        board.old.entries }
    ensures { IfOk result (IsJudged board.old board.new line.now) }
{
    match desk.read_front(board.typed(), line) {
        Ok(Some(LineFront::Firing { time, node })) => {
            judge_firing(board, line, time, node, desk)
        }
        Ok(Some(LineFront::Tick { time })) => judge_tick(board, line, time, desk),
        Ok(Some(LineFront::Whole(read))) => { judge_whole(board, line, read, counts, desk) }
        Ok(None) => Ok(Judged::Fails(LineKind::NotALine)),
        Err(error) => Err(error),
    }
}
