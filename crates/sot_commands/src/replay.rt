//! `replay`: whether a trace is that of a mission's flight.

ghost use Rattle.std.specs.Prelude.{◌≤◌, length, IfOk};
ghost use Rattle.sot_lang.specs.CertRules.{FitsTables};
ghost use Rattle.sot_flight.specs.Fits.{FitsFlight};
ghost use Rattle.sot_trace.specs.Words.{AreWords};
ghost use Rattle.sot_trace_lines.specs.LentLines.{lent_lines};
ghost use Rattle.sot_cli.specs.Texts.{input_limit};
ghost use Rattle.sot_commands.specs.Answers.{Replies};
ghost use Rattle.sot_commands.specs.Steps.{JudgesLines, JudgesReplayed};
ghost use Rattle.sot_commands.specs.declared.words.Command.TheVariants.{Replay as ReplayCommand};

use crate::answer::{legal, outside, refused_line};
use sot_cli::{Answer, faulty, refused};
use sot_compose::check_all;
use sot_flight::Flight;
use sot_lang::{Cert, Typed};
use sot_ports::{Process, let_go};
use sot_replay::{ReplayFail, replay as replay_lines};
use sot_report::{LoadFail, load};
use sot_sections::Need;
use sot_trace_lines::Lines;
use sot_tube::Accepted;
use std::alloc::{AllocError, Global};
use std::thread::Threads;

// Whether the lines of a text are the trace of an accepted program's flight, if its plants start
// inside their safer regions.
fn replay_accepted(
    alloc: Global,
    accepted: &Accepted<'_>,
    flight: &Flight,
    guests: u32,
    trace: &[u8],
) -> Result<Answer, AllocError>
    requires flight { FitsFlight accepted.now.program guests flight.now }
    requires words { AreWords accepted.now.program }
    requires short { length trace.now ≤ input_limit }
    ensures { IfOk result (λ answer. JudgesLines accepted.now.program accepted.now.cert.jitter
        flight.now (lent_lines trace.now) answer.status answer.text.items) }
{
    match replay_lines(alloc, accepted, flight, Lines::new(trace)) {
        Ok(events) => legal(alloc, events),
        Err(ReplayFail::NotSafer { module }) => outside(alloc, accepted.typed(), flight, module),
        Err(ReplayFail::Line { line, kind }) => refused_line(alloc, line, kind),
        Err(ReplayFail::Memory) => Err(AllocError),
    }
}

// Checks a program with its certificate, and looks at the trace where it is accepted.
fn judge<R: Threads + Sync>(
    rt: &R,
    alloc: Global,
    program: &Typed,
    cert: &Cert,
    flight: &Flight,
    guests: u32,
    trace: &[u8],
) -> Result<Answer, AllocError>
    requires cert { FitsTables program.now cert.now }
    requires flight { FitsFlight program.now guests flight.now }
    requires words { AreWords program.now }
    requires short { length trace.now ≤ input_limit }
    ensures { IfOk result (λ answer. JudgesReplayed program.now cert.now flight.now
        (lent_lines trace.now) answer.status answer.text.items) }
{
    match check_all(rt, program, cert) {
        Ok(accepted) => replay_accepted(alloc, &accepted, flight, guests, trace),
        Err(refusal) => refused(alloc, program, &refusal),
    }
}

/// Reads a mission with its flight, for so many guests, and a trace, checks the mission, and tells
/// whether the trace is that of a history of the flight.
pub fn replay<R: Threads + Sync>(
    rt: &R,
    alloc: Global,
    guests: u32,
    bytes: &[u8],
    process: Process,
) -> Result<Answer, AllocError>
    requires { length bytes.now ≤ input_limit }
    ensures { IfOk result (λ answer. Replies guests ReplayCommand bytes.now answer.status
        answer.text.items) }
{
    match load(alloc, bytes, Need::Replay, guests, process) {
        Ok(loaded) => {
            // A mission that is to be replayed has a trace and a flight.
            let trace = loaded.trace.unwrap();
            match &loaded.flight {
                Some(flight) => {
                    let answer = judge(
                        rt,
                        alloc,
                        &loaded.program,
                        &loaded.cert,
                        flight,
                        guests,
                        trace,
                    );
                    let_go(loaded, process);
                    answer
                }
                None => unreachable!(),
            }
        }
        Err(LoadFail::Fault(fault)) => faulty(alloc, &fault),
        Err(LoadFail::Memory) => Err(AllocError),
    }
}
