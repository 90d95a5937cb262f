//! The top call.

ghost use Rattle.std.specs.Prelude.{◌≡◌, ◌≢◌, [], false};
ghost use Rattle.sot_ports.specs.Outside.{outside};
ghost use Rattle.sot_guard_program.specs.Ends.{Ends, EndsSome, AnswersNoLine};
ghost use Rattle.sot_guard_program.specs.Says.{SaysAll};

use crate::accepting::{accept, unobserved};
use crate::tell::tell;
use sot_cli::{INPUT_LIMIT, Status, fixed, too_long};
use sot_guard_input::{Ear, FrontFail, MissionFront, read_front};
use sot_ports::{Process, Sink, Source};
use std::alloc::Global;
use std::thread::Threads;

const USAGE: &str = "usage: soter_guard\n";

// Reads the mission in front, and goes on with it.
fn attend<R: Threads + Sync, S: Source, K: Sink>(
    rt: &R,
    alloc: Global,
    mut ear: Ear,
    source: &mut S,
    sink: &mut K,
    process: Process,
) -> Status
    requires nothing { ear.buffer ≡ [] }
    requires open { ear.ended ≡ false }
    ensures { EndsSome SaysAll
        (outside (S.left source.old) (K.held sink.old) (S.faults source.old) (K.faults sink.old))
        (outside (S.left source.new) (K.held sink.new) (S.faults source.new) (K.faults sink.new))
        result.0 }
{
    match read_front(alloc, &mut ear, source, INPUT_LIMIT) {
        Ok(MissionFront::Observed { front, time }) => {
            accept(rt, alloc, &front, time, &mut ear, source, sink, process)
        }
        Ok(MissionFront::Unobserved(text)) => tell(unobserved(alloc, &text), sink),
        Err(FrontFail::Fault) => Status(4),
        Err(FrontFail::TooLong) => tell(too_long(alloc), sink),
        Err(FrontFail::Memory) => Status(6),
    }
}

/// Guards a robot: reads a mission up to a line `%observed`, says whether it is accepted, and
/// answers line by line what the robot says behind that line. No word is asked for. Threads of `rt`
/// check long lists of cells; what is answered does not depend on them. Where the process ends with
/// this call, what was read is not given back to memory.
pub fn guard<R: Threads + Sync, S: Source, K: Sink>(
    rt: &R,
    alloc: Global,
    words: &[String],
    source: &mut S,
    sink: &mut K,
    process: Process,
) -> Status
    ensures ends { Ends words.now
        (outside (S.left source.old) (K.held sink.old) (S.faults source.old) (K.faults sink.old))
        (outside (S.left source.new) (K.held sink.new) (S.faults source.new) (K.faults sink.new))
        result.0 }
    // Want of memory ends it before the first line of the robot is answered, or never.
    ensures memory { result.0 ≡ 6 → AnswersNoLine
        (outside (S.left source.old) (K.held sink.old) (S.faults source.old) (K.faults sink.old))
        (outside (S.left source.new) (K.held sink.new) (S.faults source.new) (K.faults sink.new)) }
    // A word leaves the source as it was.
    ensures unread { words.now ≢ [] → source.new ≡ source.old }
{
    if !words.is_empty() {
        return tell(fixed(alloc, 2, USAGE), sink);
    }
    match Ear::new(alloc) {
        Ok(ear) => attend(rt, alloc, ear, source, sink, process),
        Err(_) => Status(6),
    }
}
