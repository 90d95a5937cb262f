//! The flights of two missions that join.

ghost use Rattle.std.specs.Prelude.{◌≡◌, ℕ, ◌<◌, ◌≤◌, ◌++◌, List, [], length, map, IfOk};
ghost use Rattle.std.specs.String.{string_bytes};
ghost use Rattle.sot_lang.specs.CertRules.{FitsTables};
ghost use Rattle.sot_lang.specs.TableRules.{MeetsTableRules};
ghost use Rattle.sot_world.specs.HistoryEntry.{Logged};
ghost use Rattle.sot_flight.specs.Fits.{FitsFlight};
ghost use Rattle.sot_flight.specs.Relayed.{send_of, MayRelay};
ghost use Rattle.sot_board.specs.Flown.{FlownBy};
ghost use Rattle.sot_trace.specs.Traces.{trace_text};
ghost use Rattle.sot_ordered_board.specs.Crews.{HasNoGuests};
ghost use Rattle.sot_bridge.specs.Answers.{Joins};
ghost use Rattle.sot_bridge.specs.Sides.{side_of, side_with};
ghost use Rattle.sot_bridge.specs.Steps.{IsFirstFlown, SaysRelayed, SaysSecond};
ghost use Rattle.sot_bridge.specs.Steps.{JudgesFlights, JudgesSecond, JudgesBoth};

use crate::answer::{Which, outside, refused};
use crate::flown::board_sends;
use crate::joining::Joint;
use crate::side::Side;
use sot_board::Board;
use sot_cli::Answer;
use sot_compose::check_all;
use sot_flight::{Flight, Sent};
use sot_lang::Typed;
use sot_trace::board_text;
use sot_tube::Accepted;
use sot_workers::fly_without_guests;
use sot_world::OpenFail;
use std::alloc::{AllocError, Global};
use std::sync::Wait;
use std::thread::Threads;

/// What became of the first mission's flight: its trace, and what it sent.
#[derive(Drop)]
struct FirstFlown {
    text: String,
    sends: Vec<Sent>,
}

// Flies a newly opened board of the first mission.
fn fly_first<R: Threads + Wait + Sync>(
    rt: &R,
    alloc: Global,
    board: Board<'_>,
    topic: u32,
) -> Result<FirstFlown, AllocError>
    requires opened { board.entries ≡ [] }
    requires no_guests { HasNoGuests board.plan }
    requires topic { topic < length board.accepted.program.topics }
    ensures { IfOk result (λ first. IsFirstFlown board.entry.accepted.program
        board.entry.accepted.cert.jitter board.entry.plan topic (string_bytes first.text)
        (map send_of first.sends.items)) }
{
    let flown = fly_without_guests(rt, alloc, board)?;
    let text = board_text(alloc, &flown.board)?;
    let sends = board_sends(alloc, &flown.board, topic)?;
    Ok(FirstFlown { text, sends })
}

// The bytes of one text behind those of another.
fn behind(front: String, more: &str) -> Result<Vec<u8>, AllocError>
    ensures { IfOk result (λ text. text.items ≡ string_bytes front ++ more.now) }
{
    let mut text = front.into_bytes();
    text.extend_from_slice(more.as_bytes())?;
    Ok(text)
}

// Puts the trace of a newly opened board's flight behind a text.
fn fly_second<R: Threads + Wait + Sync>(
    rt: &R,
    alloc: Global,
    board: Board<'_>,
    front: String,
) -> Result<Answer, AllocError>
    requires opened { board.entries ≡ [] }
    requires no_guests { HasNoGuests board.plan }
    ensures status { IfOk result (λ answer. answer.status ≡ 0) }
    ensures text { IfOk result (λ answer. (history : List Logged)
        × FlownBy board.entry.accepted.program board.entry.accepted.cert.jitter board.entry.plan
        history × (answer.text.items ≡ string_bytes front
        ++ trace_text board.entry.accepted.program board.entry.plan.start history)) }
{
    let flown = fly_without_guests(rt, alloc, board)?;
    let more = board_text(alloc, &flown.board)?;
    let text = behind(front, more.as_str())?;
    Ok(Answer { status: 0, text })
}

// Flies the second mission, whose flight has what the first sent among its inputs.
fn fly_relayed<'b, R: Threads + Wait + Sync>(
    rt: &R,
    alloc: Global,
    text: String,
    accepted: &'b Accepted<'b>,
    relayed: &'b Flight,
) -> Result<Answer, AllocError>
    requires { FitsFlight accepted.now.program 0 relayed.now }
    ensures { IfOk result (λ answer. SaysRelayed accepted.now.program accepted.now.cert.jitter
        relayed.now (string_bytes text) answer.status answer.text.items) }
{
    match Board::open(alloc, accepted, relayed) {
        Ok(board) => fly_second(rt, alloc, board, text),
        Err(OpenFail::NotSafer { module }) => {
            outside(alloc, Which::B, accepted.typed(), relayed, module)
        }
        Err(OpenFail::Memory) => Err(AllocError),
    }
}

// Flies the second mission with what the first sent.
fn relay_to<R: Threads + Wait + Sync>(
    rt: &R,
    alloc: Global,
    first: FirstFlown,
    accepted: &Accepted<'_>,
    flight: &Flight,
    topic: u32,
    delay: u32,
) -> Result<Answer, AllocError>
    requires fits { FitsFlight accepted.now.program 0 flight.now }
    requires may { MayRelay accepted.now.program flight.now topic delay
        (map send_of first.sends.items) }
    ensures { IfOk result (λ answer. SaysSecond accepted.now.program accepted.now.cert.jitter
        flight.now topic delay (string_bytes first.text) (map send_of first.sends.items)
        answer.status answer.text.items) }
{
    let relayed = flight.relay(alloc, accepted.typed(), topic, &first.sends, delay)?;
    fly_relayed(rt, alloc, first.text, accepted, &relayed)
}

// A look at the tables brings their rules, which their type keeps.
fn look_at(p: &Typed)
    ensures { MeetsTableRules p.now }
{
    let _modules = p.modules.len();
}

// Flies two accepted missions that join.
fn fly_accepted<R: Threads + Wait + Sync>(
    rt: &R,
    alloc: Global,
    a: &Accepted<'_>,
    a_flight: &Flight,
    b: &Accepted<'_>,
    b_flight: &Flight,
    joint: Joint,
    delay: u32,
) -> Result<Answer, AllocError>
    requires a_fits { FitsFlight a.now.program 0 a_flight.now }
    requires b_fits { FitsFlight b.now.program 0 b_flight.now }
    requires joins { (from to : List ℕ) × Joins (side_with a.now a_flight.now)
        (side_with b.now b_flight.now) from to delay joint.from joint.to }
    ensures { IfOk result (λ answer. JudgesFlights (side_with a.now a_flight.now)
        (side_with b.now b_flight.now) delay joint.from joint.to answer.status
        answer.text.items) }
{
    let p = a.typed();
    look_at(p);
    let q = b.typed();
    look_at(q);
    match Board::open(alloc, a, a_flight) {
        Ok(board) => {
            let first = fly_first(rt, alloc, board, joint.from)?;
            relay_to(rt, alloc, first, b, b_flight, joint.to, delay)
        }
        Err(OpenFail::NotSafer { module }) => outside(alloc, Which::A, p, a_flight, module),
        Err(OpenFail::Memory) => Err(AllocError),
    }
}

// Checks the second of two missions that join, the first of which is accepted, and flies both.
fn fly_checked<R: Threads + Wait + Sync>(
    rt: &R,
    alloc: Global,
    a: &Accepted<'_>,
    a_flight: &Flight,
    b: &Side<'_>,
    joint: Joint,
    delay: u32,
) -> Result<Answer, AllocError>
    requires a_fits { FitsFlight a.now.program 0 a_flight.now }
    requires b_cert { FitsTables b.now.program.now b.now.cert.now }
    requires b_fits { FitsFlight b.now.program.now 0 b.now.flight.now }
    requires joins { (from to : List ℕ) × Joins (side_with a.now a_flight.now) (side_of b.now) from
        to delay joint.from joint.to }
    ensures { IfOk result (λ answer. JudgesSecond (side_with a.now a_flight.now) (side_of b.now)
        delay joint.from joint.to answer.status answer.text.items) }
{
    match check_all(rt, b.program, b.cert) {
        Ok(second) => fly_accepted(rt, alloc, a, a_flight, &second, b.flight, joint, delay),
        Err(refusal) => refused(alloc, Which::B, b.program, &refusal),
    }
}

/// Checks two missions that join, and flies them where both are accepted: the first, and then the
/// second with what the first sent.
pub fn fly_both<R: Threads + Wait + Sync>(
    rt: &R,
    alloc: Global,
    a: &Side<'_>,
    b: &Side<'_>,
    joint: Joint,
    delay: u32,
) -> Result<Answer, AllocError>
    requires a_cert { FitsTables a.now.program.now a.now.cert.now }
    requires b_cert { FitsTables b.now.program.now b.now.cert.now }
    requires a_fits { FitsFlight a.now.program.now 0 a.now.flight.now }
    requires b_fits { FitsFlight b.now.program.now 0 b.now.flight.now }
    requires joins { (from to : List ℕ) × Joins (side_of a.now) (side_of b.now) from to delay
        joint.from joint.to }
    ensures { IfOk result (λ answer. JudgesBoth (side_of a.now) (side_of b.now) delay joint.from
        joint.to answer.status answer.text.items) }
{
    match check_all(rt, a.program, a.cert) {
        Ok(first) => fly_checked(rt, alloc, &first, a.flight, b, joint, delay),
        Err(refusal) => refused(alloc, Which::A, a.program, &refusal),
    }
}
