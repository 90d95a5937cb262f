//! A line that spells an input.

ghost use Rattle.std.specs.Prelude.{◌≡◌, ℤ, List, true, length, MatchResult};
ghost use Rattle.sot_lists.specs.Places.{At};
ghost use Rattle.sot_lang.specs.declared.tables.TopicInfo.{TopicInfo};
ghost use Rattle.sot_world.specs.Events.{IsTypedInput, RefusesInput};
ghost use Rattle.sot_trace.specs.Words.{AreWords};
ghost use Rattle.sot_trace_lines.specs.Shown.{Holds};
ghost use Rattle.sot_replay.specs.Judges.{IsJudged, SpellsInput};

use crate::entry_line::compare;
use crate::fail::LineKind;
use crate::judged::{Judged, kind_of};
use crate::now::is_now;
use crate::ranges::ranges_have_64_bits;
use sot_board::Board;
use sot_world::{Event, Why};

// Whether a value can come on a topic. One with a number of more than 64 bits cannot.
fn can_come(board: &Board<'_>, topic: u32, whole: bool, value: &[i64]) -> Result<(), Why>
    requires { (info : TopicInfo) × (all : List ℤ) × At board.now.accepted.program.topics topic info
        × (info.outside ≡ true) × (length all ≡ info.count) × Holds whole value.now all }
    ensures { (info : TopicInfo) (all : List ℤ)
        → At board.now.accepted.program.topics topic info
        → length all ≡ info.count → Holds whole value.now all → MatchResult result
        (λ _. IsTypedInput board.now.accepted.program topic all)
        (λ why. RefusesInput board.now.accepted.program topic all why) }
{
    if whole {
        return board.world().can(&Event::Input { topic, value });
    }
    ranges_have_64_bits(&board.typed().scalars);
    Err(Why::OutsideType)
}

/// Judges a line that spells an input, with a value in the list where each of its numbers has 64
/// bits: the flight's next input comes, and the line has to be that of its entry.
pub fn judge_input(
    board: &mut Board<'_>,
    line: &[u8],
    time: Option<i64>,
    topic: u32,
    whole: bool,
    value: &[i64],
) -> Judged
    requires words { AreWords board.old.accepted.program }
    requires spelled { SpellsInput board.old.accepted.program line.now time topic whole value.now }
    ensures { IsJudged board.old board.new line.now result }
{
    board.reveal_invariant();
    if !is_now(time, board.time()) {
        return Judged::Fails(LineKind::WrongTime);
    }
    if let Err(why) = can_come(board, topic, whole, value) {
        return Judged::Fails(kind_of(why));
    }
    if !board.due_input() {
        return Judged::Fails(LineKind::Differs);
    }
    board.input();
    compare(board, line)
}
