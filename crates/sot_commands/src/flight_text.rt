//! The text of a flight that was flown: a trace is put, and an answer stands behind it.

ghost use Rattle.std.specs.Prelude.{◌≡◌, [], ◌++◌, IfOk, MatchOption};
ghost use Rattle.std.specs.String.{string_bytes};
ghost use Rattle.sot_trace.specs.Traces.{trace_text};
ghost use Rattle.sot_formula.specs.Formulas.{Formula};
ghost use Rattle.sot_formula.specs.Parts.{AreThere};
ghost use Rattle.sot_monitor.specs.Holding.{AlwaysHolds, FirstFails};
ghost use Rattle.sot_monitor.specs.Tracking.{StandsFor};
ghost use Rattle.sot_monitor.specs.Moments.{moments_told};
ghost use Rattle.sot_commands.specs.WatchTexts.{holds_text, fails_text};
ghost use Rattle.sot_commands.specs.Steps.{trace_or_summary, Watches, TellsVerdict, SaysInAll};

use crate::telling::Telling;
use sot_board::Board;
use sot_cli::Answer;
use sot_monitor::{Monitor, watch};
use sot_summary::{board_summary, summary_text};
use sot_text_output::Out;
use sot_trace::put_board;
use sot_tube::Accepted;
use std::alloc::{AllocError, Global};

// A line as an answer.
fn with_line(status: u8, line: String) -> Answer
    ensures status { result.status ≡ status }
    ensures text { result.text.items ≡ string_bytes line }
{
    Answer {
        status,
        text: line.into_bytes(),
    }
}

/// Status 0: the trace of what was flown, which is put, or its summary, which the answer has.
pub fn trace_or_summary<O: Out>(
    alloc: Global,
    out: &mut O,
    telling: Telling<'_>,
    board: &Board<'_>,
) -> Result<Answer, AllocError>
    ensures { SaysInAll O.puts out.old out.new result (λ status said. (status ≡ 0)
        × (said ≡ trace_or_summary telling.entry board.now.accepted.program board.now.plan
        board.now.entries)) }
{
    match telling {
        Telling::Summary => {
            let line = summary_text(alloc, &board_summary(board))?;
            Ok(with_line(0, line))
        }
        Telling::Trace | Telling::Verdict { .. } => {
            put_board(out, board);
            Ok(Answer {
                status: 0,
                text: Vec::new(alloc),
            })
        }
    }
}

// The first moment of what was flown at which a new monitor's formula is false.
fn first_false(
    alloc: Global,
    accepted: &Accepted<'_>,
    board: &Board<'_>,
    monitor: Monitor,
) -> Result<Option<u32>, AllocError>
    requires accepted { board.now.accepted ≡ accepted.now }
    requires there { AreThere accepted.now.program monitor.whats }
    requires new { monitor.added ≡ 0 }
    ensures { (x : Formula) → StandsFor monitor x [] → IfOk result (λ t. MatchOption t
        (AlwaysHolds (moments_told accepted.now.program board.now.plan.start board.now.entries) x)
        (FirstFails (moments_told accepted.now.program board.now.plan.start board.now.entries) x)) }
{
    board.reveal_invariant();
    watch(
        alloc,
        accepted,
        board.flight().start(),
        board.history(),
        monitor,
    )
}

fn holds_line(alloc: Global, moments: u32) -> Result<String, AllocError>
    ensures { IfOk result (λ text. string_bytes text ≡ holds_text moments) }
{
    format!(in alloc; "watch holds moments {moments}\n")
}

fn fails_line(alloc: Global, time: u32) -> Result<String, AllocError>
    ensures { IfOk result (λ text. string_bytes text ≡ fails_text time) }
{
    format!(in alloc; "refused watch time {time}\n")
}

// The verdict of a monitor on what was flown: status 0 and `watch holds moments M`, or status 1 and
// `refused watch time T`. It is to stand behind the trace.
fn verdict(
    alloc: Global,
    telling: Telling<'_>,
    accepted: &Accepted<'_>,
    board: &Board<'_>,
    monitor: Monitor,
) -> Result<Answer, AllocError>
    requires accepted { board.now.accepted ≡ accepted.now }
    requires watches { Watches telling accepted.now.program monitor }
    ensures { IfOk result (λ answer. TellsVerdict telling.entry accepted.now.program board.now.plan
        board.now.entries answer.status
        (trace_text accepted.now.program board.now.plan.start board.now.entries
        ++ answer.text.items)) }
{
    board.reveal_invariant();
    let first = first_false(alloc, accepted, board, monitor)?;
    match first {
        None => {
            let line = holds_line(alloc, board.flight().horizon() + 1)?;
            Ok(with_line(0, line))
        }
        Some(time) => {
            let line = fails_line(alloc, time)?;
            Ok(with_line(1, line))
        }
    }
}

/// The trace of what was flown, which is put, and the verdict of the monitor that watched it, which
/// the answer has. Its memory is taken before.
pub fn watched<O: Out>(
    alloc: Global,
    out: &mut O,
    telling: Telling<'_>,
    accepted: &Accepted<'_>,
    board: &Board<'_>,
    monitor: Monitor,
) -> Result<Answer, AllocError>
    requires accepted { board.now.accepted ≡ accepted.now }
    requires watches { Watches telling accepted.now.program monitor }
    ensures { SaysInAll O.puts out.old out.new result
        (TellsVerdict telling.entry accepted.now.program board.now.plan board.now.entries) }
{
    let answer = verdict(alloc, telling, accepted, board, monitor)?;
    put_board(out, board);
    Ok(answer)
}
