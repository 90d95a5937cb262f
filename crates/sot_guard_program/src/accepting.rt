//! Whether the mission in front is accepted.

ghost use Rattle.std.specs.Prelude.{◌≡◌, ◌+◌, ◌<◌, ◌≤◌, ◌^◌, suc, IfOk, length};
ghost use Rattle.sot_lang.specs.CertRules.{FitsTables};
ghost use Rattle.sot_text.specs.LineEnds.{lines};
ghost use Rattle.sot_trace.specs.Words.{AreWords};
ghost use Rattle.sot_tube.specs.Certified.{IsWellCertified};
ghost use Rattle.sot_guard.specs.Guarding.{last_time};
ghost use Rattle.sot_cli.specs.Texts.{input_limit};
ghost use Rattle.sot_guard_input.specs.Reading.{IsSettled};
ghost use Rattle.sot_guard_program.specs.Moments.{ears, mouth, Ended};
ghost use Rattle.sot_guard_program.specs.Says.{SaysMission, HasSectionFault};
ghost use Rattle.sot_guard_program.specs.Beginning.{SaysAccepted, SaysJudged, SaysUnmarked};

use crate::describing::describe;
use crate::tell::tell;
use sot_cli::{Answer, Status, faulty, refused};
use sot_compose::check_all;
use sot_guard_input::Ear;
use sot_lang::{Cert, Typed};
use sot_ports::{Process, Sink, Source, let_go, write_whole};
use sot_report::{Fault, LoadFail, accepted_text, load};
use sot_sections::{Need, SectionFault, SectionKind, split};
use sot_text_output::room;
use sot_trace_lines::Lines;
use sot_tube::Accepted;
use std::alloc::{AllocError, Global};
use std::thread::Threads;

// Says that a mission is accepted, and goes on with it. The bytes through which answers are written
// have all their room before that is said.
fn greet<S: Source, K: Sink>(
    alloc: Global,
    accepted: &Accepted<'_>,
    cert: &Cert,
    time: u64,
    ear: &mut Ear,
    source: &mut S,
    sink: &mut K,
) -> Status
    requires cert { cert.now ≡ accepted.now.cert }
    requires fits { FitsTables accepted.now.program cert.now }
    requires words { AreWords accepted.now.program }
    requires certified { IsWellCertified accepted.now.program accepted.now.cert.jitter
        accepted.now.cert }
    requires horizon { time ≤ last_time }
    requires settled { IsSettled (S.left source.old) ear.old.buffer ear.old.ended }
    ensures { Ended (SaysAccepted time accepted.now)
        (ears (S.left source.old) (S.faults source.old) ear.old)
        (ears (S.left source.new) (S.faults source.new) ear.new)
        (mouth (K.held sink.old) (K.faults sink.old))
        (mouth (K.held sink.new) (K.faults sink.new)) result.0 }
{
    let text = match accepted_text(alloc, accepted.typed(), cert) {
        Ok(text) => text,
        Err(_) => return Status(6),
    };
    let waiting = match room(alloc) {
        Ok(waiting) => waiting,
        Err(_) => return Status(6),
    };
    match write_whole(sink, text.as_bytes()) {
        Ok(()) => describe(alloc, accepted, waiting, time, ear, source, sink),
        Err(_) => Status(5),
    }
}

// Checks a program with its certificate, and goes on where it is accepted.
fn judge<R: Threads + Sync, S: Source, K: Sink>(
    rt: &R,
    alloc: Global,
    program: &Typed,
    cert: &Cert,
    time: u64,
    ear: &mut Ear,
    source: &mut S,
    sink: &mut K,
) -> Status
    requires fits { FitsTables program.now cert.now }
    requires words { AreWords program.now }
    requires horizon { time ≤ last_time }
    requires settled { IsSettled (S.left source.old) ear.old.buffer ear.old.ended }
    ensures { Ended (SaysJudged time program.now cert.now)
        (ears (S.left source.old) (S.faults source.old) ear.old)
        (ears (S.left source.new) (S.faults source.new) ear.new)
        (mouth (K.held sink.old) (K.faults sink.old))
        (mouth (K.held sink.new) (K.faults sink.new)) result.0 }
{
    match check_all(rt, program, cert) {
        Ok(accepted) => greet(alloc, &accepted, cert, time, ear, source, sink),
        Err(refusal) => tell(refused(alloc, program, &refusal), sink),
    }
}

/// Checks the mission that a front spells, and goes on where it is accepted, with a talk that begins
/// at this time.
pub(crate) fn accept<R: Threads + Sync, S: Source, K: Sink>(
    rt: &R,
    alloc: Global,
    front: &[u8],
    time: u64,
    ear: &mut Ear,
    source: &mut S,
    sink: &mut K,
    process: Process,
) -> Status
    requires short { length front.now ≤ input_limit }
    requires horizon { time ≤ last_time }
    requires settled { IsSettled (S.left source.old) ear.old.buffer ear.old.ended }
    ensures { Ended (SaysMission time front.now)
        (ears (S.left source.old) (S.faults source.old) ear.old)
        (ears (S.left source.new) (S.faults source.new) ear.new)
        (mouth (K.held sink.old) (K.faults sink.old))
        (mouth (K.held sink.new) (K.faults sink.new)) result.0 }
{
    match load(alloc, front, Need::Check, 0, process) {
        Ok(loaded) => {
            let status = judge(
                rt,
                alloc,
                &loaded.program,
                &loaded.cert,
                time,
                ear,
                source,
                sink,
            );
            let_go(loaded, process);
            status
        }
        Err(LoadFail::Fault(fault)) => tell(faulty(alloc, &fault), sink),
        Err(LoadFail::Memory) => Status(6),
    }
}

// The number of the line behind the last.
fn line_behind(text: &[u8]) -> u32
    requires { length text.now + 1 < 2 ^ 32 }
    ensures { result ≡ suc (length (lines text.now)) }
{
    let mut lines = Lines::new(text);
    while let Some(_line) = lines.next() {}
    lines.number()
}

// The first fault of the section lines of a text without a line `%observed`: where they have none,
// that this one is missing.
fn section_fault(text: &[u8]) -> SectionFault
    requires { length text.now + 1 < 2 ^ 32 }
    ensures { HasSectionFault text.now result }
{
    match split(text, Need::Check) {
        Ok(_sections) => SectionFault {
            line: line_behind(text),
            kind: SectionKind::Missing,
        },
        Err(fault) => fault,
    }
}

/// Status 3: a text has no line `%observed`.
pub(crate) fn unobserved(alloc: Global, text: &[u8]) -> Result<Answer, AllocError>
    requires { length text.now + 1 < 2 ^ 32 }
    ensures status { IfOk result (λ answer. answer.status ≡ 3) }
    ensures text { IfOk result (λ answer. SaysUnmarked text.now answer.text.items) }
{
    faulty(alloc, &Fault::Section(section_fault(text)))
}
