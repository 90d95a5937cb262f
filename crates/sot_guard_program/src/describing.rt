//! What a robot has to know of an accepted mission.

ghost use Rattle.std.specs.Prelude.{◌≤◌, OnOk, OnErr};
ghost use Rattle.sot_tube.specs.Certified.{IsWellCertified};
ghost use Rattle.sot_trace.specs.Words.{AreWords};
ghost use Rattle.sot_guard.specs.Guarding.{last_time};
ghost use Rattle.sot_guard_lines.specs.Outline.{outline_text};
ghost use Rattle.sot_guard_input.specs.Reading.{IsSettled};
ghost use Rattle.sot_guard_program.specs.Moments.{ears, mouth, Utters, Ended};
ghost use Rattle.sot_guard_program.specs.Hearing.{CutsOff};
ghost use Rattle.sot_guard_program.specs.Says.{SaysOutline};
ghost use Rattle.sot_guard_program.specs.Beginning.{SaysIn};

use crate::halt::Stop;
use crate::talking::converse;
use sot_cli::Status;
use sot_guard_input::Ear;
use sot_guard_lines::put_outline;
use sot_lang::Typed;
use sot_ports::{Sink, Source};
use sot_text_output::Spool;
use sot_tube::Accepted;
use std::alloc::Global;

// Writes through these bytes what a robot has to know of a program.
fn tell_outline<K: Sink>(p: &Typed, waiting: &mut Vec<u8>, sink: &mut K) -> Result<(), Stop>
    ensures well { OnOk result (Utters (mouth (K.held sink.old) (K.faults sink.old))
        (mouth (K.held sink.new) (K.faults sink.new)) (outline_text p.now)) }
    ensures cut { OnErr result (CutsOff (mouth (K.held sink.old) (K.faults sink.old))
        (mouth (K.held sink.new) (K.faults sink.new)) (outline_text p.now)) }
{
    waiting.clear();
    let mut spool = Spool::new(waiting, sink);
    put_outline(&mut spool, p);
    match spool.end() {
        Ok(()) => Ok(()),
        Err(_) => Err(Stop::Sink),
    }
}

/// Says what a robot has to know of an accepted mission, and then answers what a robot says, through
/// bytes that have all their room.
pub(crate) fn describe<S: Source, K: Sink>(
    alloc: Global,
    accepted: &Accepted<'_>,
    mut waiting: Vec<u8>,
    time: u64,
    ear: &mut Ear,
    source: &mut S,
    sink: &mut K,
) -> Status
    requires words { AreWords accepted.now.program }
    requires certified { IsWellCertified accepted.now.program accepted.now.cert.jitter
        accepted.now.cert }
    requires horizon { time ≤ last_time }
    requires settled { IsSettled (S.left source.old) ear.old.buffer ear.old.ended }
    ensures { Ended (SaysIn (SaysOutline time accepted.now))
        (ears (S.left source.old) (S.faults source.old) ear.old)
        (ears (S.left source.new) (S.faults source.new) ear.new)
        (mouth (K.held sink.old) (K.faults sink.old))
        (mouth (K.held sink.new) (K.faults sink.new)) result.0 }
{
    match tell_outline(accepted.typed(), &mut waiting, sink) {
        Ok(()) => converse(alloc, accepted, waiting, time, ear, source, sink),
        Err(_) => Status(5),
    }
}
