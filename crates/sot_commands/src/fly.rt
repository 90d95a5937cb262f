//! `fly`: the trace of a mission's flight. `watch` does the same, and tells behind the trace
//! whether a formula holds; `soak` does it on a text that is made, and tells the flight's summary.

ghost use Rattle.std.specs.Prelude.{◌≡◌, ◌<◌, ◌≤◌, ◌^◌, [], length, vec_len, true, IfOk, IfErr};
ghost use Rattle.sot_lang.specs.CertRules.{FitsTables};
ghost use Rattle.sot_world.specs.Opens.{StartInside};
ghost use Rattle.sot_flight.specs.Fits.{FitsFlight};
ghost use Rattle.sot_workers.specs.Asked.{EachUnnamedStays};
ghost use Rattle.sot_cli.specs.Texts.{input_limit};
ghost use Rattle.sot_commands.specs.Steps.{JudgesFlight, JudgesFlown, JudgesWatched};
ghost use Rattle.sot_commands.specs.Steps.{GuestsStand, GuestsDid, SaysInAll};
ghost use Rattle.sot_commands.specs.Steps.{IsMonitorFor, FailsFor, Tells};
ghost use Rattle.sot_commands.specs.Orders.{FliesBytes};
ghost use Rattle.sot_commands.specs.Guests.{UnnamedStay, GuestsFlew, Flew};

use crate::answer::{faulty_formula, outside};
use crate::flight_text::{trace_or_summary, watched};
use crate::telling::Telling;
use sot_board::Board;
use sot_cli::{Answer, faulty, refused};
use sot_compose::check_all;
use sot_flight::Flight;
use sot_fly_worker::Controller;
use sot_formula::MonitorFail;
use sot_lang::{Cert, Typed};
use sot_monitor::Monitor;
use sot_ports::{Process, let_go};
use sot_report::{LoadFail, load};
use sot_sections::Need;
use sot_text_output::Out;
use sot_tube::Accepted;
use sot_workers::fly as fly_to_the_end;
use sot_world::OpenFail;
use std::alloc::{AllocError, Global};
use std::sync::Wait;
use std::thread::Threads;

// Tells what was flown; with the verdict of a monitor, where one watches it.
fn tell<O: Out>(
    alloc: Global,
    out: &mut O,
    accepted: &Accepted<'_>,
    board: &Board<'_>,
    telling: Telling<'_>,
    monitor: Option<Monitor>,
) -> Result<Answer, AllocError>
    requires accepted { board.now.accepted ≡ accepted.now }
    requires monitor { IsMonitorFor telling accepted.now.program monitor }
    ensures { SaysInAll O.puts out.old out.new result
        (Tells telling.entry accepted.now.program board.now.plan board.now.entries) }
{
    match monitor {
        Some(monitor) => watched(alloc, out, telling, accepted, board, monitor),
        None => trace_or_summary(alloc, out, telling, board),
    }
}

// Flies a newly opened board with its guests, and tells what was flown.
fn fly_opened<'a, O: Out, C: Controller + Send, R: Threads + Wait + Sync>(
    rt: &R,
    alloc: Global,
    out: &mut O,
    guests: &mut Vec<C>,
    accepted: &Accepted<'_>,
    board: Board<'a>,
    flight: &'a Flight,
    telling: Telling<'_>,
    monitor: Option<Monitor>,
) -> Result<Answer, AllocError>
    requires accepted { board.accepted ≡ accepted.now }
    requires monitor { IsMonitorFor telling accepted.now.program monitor }
    requires flight { flight.now ≡ board.plan }
    requires opened { board.entries ≡ [] }
    requires inside { StartInside board.accepted.program flight.now.start
        (length board.accepted.program.modules) }
    requires fits { FitsFlight board.accepted.program (vec_len guests.old) flight.now }
    ensures judges { SaysInAll O.puts out.old out.new result (λ status said.
        JudgesFlight telling.entry board.entry.accepted.program board.entry.accepted.cert.jitter
        flight.now status said
        × GuestsDid telling.entry status said
        (λ text. GuestsFlew C.asked board.entry.accepted.program board.entry.accepted.cert.jitter
        flight.now text guests.old.items guests.new.items)
        guests.old guests.new) }
    ensures guests { GuestsStand C.asked
        (EachUnnamedStays flight.now guests.old.items guests.new.items) guests.old guests.new }
{
    match fly_to_the_end(rt, alloc, board, guests) {
        Ok(flown) => tell(alloc, out, accepted, &flown.board, telling, monitor),
        Err(_) => Err(AllocError),
    }
}

// Flies an accepted program with its guests, if its plants start inside their safer regions.
fn fly_accepted<O: Out, C: Controller + Send, R: Threads + Wait + Sync>(
    rt: &R,
    alloc: Global,
    out: &mut O,
    guests: &mut Vec<C>,
    accepted: &Accepted<'_>,
    flight: &Flight,
    telling: Telling<'_>,
    monitor: Option<Monitor>,
) -> Result<Answer, AllocError>
    requires fits { FitsFlight accepted.now.program (vec_len guests.old) flight.now }
    requires monitor { IsMonitorFor telling accepted.now.program monitor }
    ensures judges { SaysInAll O.puts out.old out.new result (λ status said.
        JudgesFlight telling.entry accepted.now.program accepted.now.cert.jitter flight.now
        status said
        × GuestsDid telling.entry status said
        (λ text. GuestsFlew C.asked accepted.now.program accepted.now.cert.jitter flight.now text
        guests.old.items guests.new.items)
        guests.old guests.new) }
    ensures guests { GuestsStand C.asked
        (EachUnnamedStays flight.now guests.old.items guests.new.items) guests.old guests.new }
{
    match Board::open(alloc, accepted, flight) {
        Ok(board) => fly_opened(
            rt, alloc, out, guests, accepted, board, flight, telling, monitor,
        ),
        Err(OpenFail::NotSafer { module }) => outside(alloc, accepted.typed(), flight, module),
        Err(OpenFail::Memory) => Err(AllocError),
    }
}

// Checks a program with its certificate, and flies it where it is accepted.
fn judge<O: Out, C: Controller + Send, R: Threads + Wait + Sync>(
    rt: &R,
    alloc: Global,
    out: &mut O,
    guests: &mut Vec<C>,
    program: &Typed,
    cert: &Cert,
    flight: &Flight,
    telling: Telling<'_>,
    monitor: Option<Monitor>,
) -> Result<Answer, AllocError>
    requires monitor { IsMonitorFor telling program.now monitor }
    requires cert { FitsTables program.now cert.now }
    requires flight { FitsFlight program.now (vec_len guests.old) flight.now }
    ensures judges { SaysInAll O.puts out.old out.new result (λ status said.
        JudgesFlown telling.entry program.now cert.now flight.now status said
        × GuestsDid telling.entry status said
        (λ text. GuestsFlew C.asked program.now cert.now.jitter flight.now text guests.old.items
        guests.new.items)
        guests.old guests.new) }
    ensures guests { GuestsStand C.asked
        (EachUnnamedStays flight.now guests.old.items guests.new.items) guests.old guests.new }
{
    match check_all(rt, program, cert) {
        Ok(accepted) => fly_accepted(rt, alloc, out, guests, &accepted, flight, telling, monitor),
        Err(refusal) => refused(alloc, program, &refusal),
    }
}

// The monitor of the formula that watches the flight, where one does.
fn monitor_for(
    alloc: Global,
    program: &Typed,
    telling: Telling<'_>,
) -> Result<Option<Monitor>, MonitorFail>
    ensures ok { IfOk result (IsMonitorFor telling.entry program.now) }
    ensures err { IfErr result (FailsFor telling.entry program.now) }
{
    match telling {
        Telling::Trace => Ok(None),
        Telling::Summary => Ok(None),
        Telling::Verdict { formula } => {
            match Monitor::read(alloc, program, formula.as_bytes()) {
                Ok(monitor) => Ok(Some(monitor)),
                Err(fail) => Err(fail),
            }
        }
    }
}

// Flies a mission that was read, where the formula that watches it has a meaning.
fn fly_loaded<O: Out, C: Controller + Send, R: Threads + Wait + Sync>(
    rt: &R,
    alloc: Global,
    out: &mut O,
    guests: &mut Vec<C>,
    program: &Typed,
    cert: &Cert,
    flight: &Flight,
    telling: Telling<'_>,
) -> Result<Answer, AllocError>
    requires cert { FitsTables program.now cert.now }
    requires flight { FitsFlight program.now (vec_len guests.old) flight.now }
    ensures judges { SaysInAll O.puts out.old out.new result (λ status said.
        JudgesWatched telling.entry program.now cert.now flight.now status said
        × GuestsDid telling.entry status said
        (λ text. GuestsFlew C.asked program.now cert.now.jitter flight.now text guests.old.items
        guests.new.items)
        guests.old guests.new) }
    ensures guests { GuestsStand C.asked
        (EachUnnamedStays flight.now guests.old.items guests.new.items) guests.old guests.new }
{
    match monitor_for(alloc, program, telling) {
        Ok(monitor) => judge(
            rt, alloc, out, guests, program, cert, flight, telling, monitor,
        ),
        Err(fail) => faulty_formula(alloc, fail),
    }
}

/// Flies a mission with these guests: reads its sections, its program, its certificate and its
/// flight, checks it, flies it, and tells what was flown.
pub fn fly<O: Out, C: Controller + Send, R: Threads + Wait + Sync>(
    rt: &R,
    alloc: Global,
    out: &mut O,
    guests: &mut Vec<C>,
    bytes: &[u8],
    telling: Telling<'_>,
    process: Process,
) -> Result<Answer, AllocError>
    requires short { length bytes.now ≤ input_limit }
    requires few { vec_len guests.old < 2 ^ 32 }
    ensures flies { SaysInAll O.puts out.old out.new result (λ status said.
        FliesBytes (vec_len guests.old) telling.entry bytes.now status said
        × GuestsDid telling.entry status said
        (λ text. Flew C.asked (vec_len guests.old) bytes.now text guests.old.items guests.new.items)
        guests.old guests.new) }
    ensures guests { GuestsStand C.asked
        (UnnamedStay (vec_len guests.old) bytes.now guests.old.items guests.new.items)
        guests.old guests.new }
{
    match load(alloc, bytes, Need::Fly, guests.len() as u32, process) {
        Ok(loaded) => match &loaded.flight {
            Some(flight) => {
                let answer = fly_loaded(
                    rt,
                    alloc,
                    out,
                    guests,
                    &loaded.program,
                    &loaded.cert,
                    flight,
                    telling,
                );
                let_go(loaded, process);
                answer
            }
            // A mission that is to be flown has a flight.
            None => unreachable!(),
        },
        Err(LoadFail::Fault(fault)) => faulty(alloc, &fault),
        Err(LoadFail::Memory) => Err(AllocError),
    }
}
