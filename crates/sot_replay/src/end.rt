//! A line that spells the end.

ghost use Rattle.std.specs.Prelude.{◌≡◌, sum_by, IfOk};
ghost use Rattle.sot_trace.specs.Lines.{ticks_in, refused_in};
ghost use Rattle.sot_replay.specs.Judges.{IsJudged, SpellsEnd};

use crate::counts::ReplayCounts;
use crate::fail::LineKind;
use crate::judged::Judged;
use crate::now::is_now;
use sot_board::Board;
use sot_trace::put_end_line;
use std::alloc::AllocError;

/// Judges a line that spells the end: it has to be the last line of the history, of which these are
/// the counts, where the flight is at its end.
pub fn judge_end(
    board: &Board<'_>,
    line: &[u8],
    ticks: Option<i64>,
    counts: ReplayCounts,
    printed: &mut String,
) -> Result<Judged, AllocError>
    requires spelled { SpellsEnd board.now.accepted.program line.now ticks }
    requires ticks { counts.ticks ≡ sum_by ticks_in board.now.entries }
    requires refused { counts.refused ≡ sum_by (refused_in board.now.accepted.program)
        board.now.entries }
    ensures { IfOk result (IsJudged board.now board.now line.now) }
{
    board.reveal_invariant();
    if !is_now(ticks, board.time()) {
        return Ok(Judged::Fails(LineKind::WrongTime));
    }
    if !board.nothing_left() {
        return Ok(Judged::Fails(LineKind::NodesLeft));
    }
    if board.due_input() {
        return Ok(Judged::Fails(LineKind::InputsLeft));
    }
    if board.time() < board.flight().horizon() {
        return Ok(Judged::Fails(LineKind::TooFar));
    }
    printed.clear();
    let events = board.history().len();
    put_end_line(printed, counts.ticks, events, counts.refused)?;
    if printed.as_bytes() == line {
        Ok(Judged::Ends)
    } else {
        Ok(Judged::Fails(LineKind::Differs))
    }
}
