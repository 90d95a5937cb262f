//! Whether lines are the trace of a flight.

ghost use Rattle.std.specs.Prelude.{◌≡◌, ℕ, List, [], length, MatchResult, IfOk, IfErr};
ghost use Rattle.sot_world.specs.HistoryEntry.{Logged};
ghost use Rattle.sot_world.specs.Opens.{StartInside, IsFirstOutside};
ghost use Rattle.sot_flight.specs.Fits.{FitsFlight};
ghost use Rattle.sot_trace.specs.Words.{AreWords};
ghost use Rattle.sot_replay.specs.GoesOn.{IsTraceOf};
ghost use Rattle.sot_replay.specs.Replays.{IsRefusedAt, MatchFail};

use crate::desk::LineDesk;
use crate::fail::{LineKind, ReplayFail};
use crate::follow::follow;
use crate::opening::read_opening;
use sot_board::Board;
use sot_flight::Flight;
use sot_trace_lines::Lines;
use sot_tube::Accepted;
use sot_world::OpenFail;
use std::alloc::Global;

// Whether lines are the trace of the flight of a board, on which nothing has happened yet.
fn replay_on(
    board: &mut Board<'_>,
    lines: &mut Lines<'_>,
    desk: &mut LineDesk,
) -> Result<(), ReplayFail>
    requires none { board.old.entries ≡ [] }
    requires words { AreWords board.old.accepted.program }
    requires none_lent { lines.old.number ≡ 1 }
    ensures legal { IfOk result (λ _. IsTraceOf board.old.accepted.program
        board.old.accepted.cert.jitter board.old.plan lines.old.to_come board.new.entries) }
    ensures refused { IfErr result (λ fail.
        MatchFail fail (λ _. ⊥) (IsRefusedAt board.old.accepted.program
        board.old.accepted.cert.jitter board.old.plan lines.old.to_come)) }
{
    board.reveal_invariant();
    read_opening(lines, board.typed(), board.flight(), &mut desk.printed)?;
    follow(lines, board, desk)?;
    match lines.next() {
        None => Ok(()),
        Some((number, _)) => Err(ReplayFail::Line {
            line: number,
            kind: LineKind::Ended,
        }),
    }
}

/// Whether lines, none of which has been lent yet, are the trace of a flight: it answers the number
/// of its events.
///
/// `NotSafer` names the first module whose plant starts outside the module's safer region. `Line`
/// names the first line with which no trace of the flight goes on, counted from 1, and the first
/// test that it does not pass; then, and where the lines are such a trace, every module's plant
/// starts inside. `Memory` says that there is none.
pub fn replay(
    alloc: Global,
    acc: &Accepted<'_>,
    flight: &Flight,
    lines: Lines<'_>,
) -> Result<u32, ReplayFail>
    requires fits { (guests : ℕ) × FitsFlight acc.now.program guests flight.now }
    requires words { AreWords acc.now.program }
    requires none_lent { lines.number ≡ 1 }
    ensures legal { IfOk result (λ events. (entries : List Logged)
        × IsTraceOf acc.now.program acc.now.cert.jitter flight.now lines.entry.to_come entries
        × (length entries ≡ events)) }
    ensures refused { IfErr result (λ fail.
        MatchFail fail (IsFirstOutside acc.now.program flight.now.start)
        (IsRefusedAt acc.now.program acc.now.cert.jitter flight.now lines.entry.to_come)) }
    ensures inside { MatchResult result
        (λ _. StartInside acc.now.program flight.now.start (length acc.now.program.modules))
        (λ fail. MatchFail fail (λ _. Unit {0})
        (λ _ _. StartInside acc.now.program flight.now.start (length acc.now.program.modules))) }
{
    let mut board = match Board::open(alloc, acc, flight) {
        Ok(board) => board,
        Err(OpenFail::NotSafer { module }) => return Err(ReplayFail::NotSafer { module }),
        Err(OpenFail::Memory) => return Err(ReplayFail::Memory),
    };
    let mut lines = lines;
    let mut desk = LineDesk::new(alloc);
    replay_on(&mut board, &mut lines, &mut desk)?;
    Ok(board.history().len() as u32)
}
