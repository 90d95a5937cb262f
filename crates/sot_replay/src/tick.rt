//! A line that spells a tick.

ghost use Rattle.std.specs.Prelude.{◌≡◌, ℤ, Bool, Option, IfOk};
ghost use Rattle.sot_trace.specs.Words.{AreWords};
ghost use Rattle.sot_trace_lines.specs.declared.line.Line.TheVariants.{Tick as IsTick};
ghost use Rattle.sot_replay.specs.Judges.{IsJudged, BeginsAsTick, SpellsTicks, ReadsTick};
ghost use Rattle.sot_replay.specs.Judges.{FailsTick};

use crate::bounds::are_possible;
use crate::desk::LineDesk;
use crate::entry_line::compare;
use crate::fail::LineKind;
use crate::judged::Judged;
use crate::now::is_now;
use crate::read_on::read_on;
use sot_board::Board;
use sot_lang::Typed;
use sot_trace_lines::Line;
use std::alloc::AllocError;

// Whether the list holds all disturbances of a line that was read as a tick's.
fn is_whole(read: Line) -> bool
    requires { (time : Option ℤ) × (whole : Bool) × (read ≡ IsTick time whole) }
    ensures { (time : Option ℤ) (whole : Bool) → read ≡ IsTick time whole → result ≡ whole }
{
    match read {
        Line::Tick { whole, .. } => whole,
        _ => unreachable!(),
    }
}

// Whether the list holds all disturbances of a line of a tick, once it is read; none where it is
// spelled as no line.
fn read_whole(p: &Typed, line: &[u8], desk: &mut LineDesk) -> Result<Option<bool>, AllocError>
    requires words { AreWords p.now }
    requires ticks { SpellsTicks p.now line.now }
    ensures { IfOk result (λ whole. ReadsTick p.now line.now desk.new.numbers.items whole) }
{
    match desk.read(p, line) {
        Ok(Some(read)) => Ok(Some(is_whole(read))),
        Ok(None) => Ok(None),
        Err(error) => Err(error),
    }
}

// The test that fails of a line of a tick, where this one does if the line is spelled so and its
// disturbances are in their bounds.
fn tick_kind(
    p: &Typed,
    line: &[u8],
    kind: LineKind,
    desk: &mut LineDesk,
) -> Result<LineKind, AllocError>
    requires words { AreWords p.now }
    requires ticks { SpellsTicks p.now line.now }
    ensures { IfOk result (λ whole. FailsTick p.now line.now kind whole) }
{
    let Some(whole) = read_whole(p, line, desk)? else {
        return Ok(LineKind::NotALine);
    };
    if are_possible(&p.plants, whole, &desk.numbers) {
        Ok(kind)
    } else {
        Ok(LineKind::OutsideType)
    }
}

/// Judges a line that begins as a tick does: a tick comes with the disturbances that the flight
/// states, and the line has to be that of its entry. It is read to its end only where a test fails.
pub fn judge_tick(
    board: &mut Board<'_>,
    line: &[u8],
    time: Option<i64>,
    desk: &mut LineDesk,
) -> Result<Judged, AllocError>
    requires words { AreWords board.old.accepted.program }
    requires begins { BeginsAsTick board.old.accepted.program line.now time }
    ensures { IfOk result (IsJudged board.old board.new line.now) }
{
    board.reveal_invariant();
    let p = board.typed();
    if !is_now(time, board.time()) {
        return read_on(p, line, Judged::Fails(LineKind::WrongTime), desk);
    }
    if !board.world().may_tick() {
        return read_on(p, line, Judged::Fails(LineKind::NodesLeft), desk);
    }
    if board.due_input() {
        let kind = tick_kind(p, line, LineKind::InputsLeft, desk)?;
        return Ok(Judged::Fails(kind));
    }
    if board.time() >= board.flight().horizon() {
        let kind = tick_kind(p, line, LineKind::TooFar, desk)?;
        return Ok(Judged::Fails(kind));
    }
    board.tick();
    match compare(board, line) {
        Judged::Goes(added) => Ok(Judged::Goes(added)),
        Judged::Ends => Ok(Judged::Ends),
        Judged::Fails(differs) => {
            let kind = tick_kind(p, line, differs, desk)?;
            Ok(Judged::Fails(kind))
        }
    }
}
