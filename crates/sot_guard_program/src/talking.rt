//! A robot's talk about an accepted mission.

ghost use Rattle.std.specs.Prelude.{◌≡◌, ◌<◌, ◌≤◌, ◌-◌, ◌^◌};
ghost use Rattle.sot_lang.specs.TableRules.{MeetsTableRules};
ghost use Rattle.sot_tube.specs.Certified.{IsWellCertified};
ghost use Rattle.sot_trace.specs.Words.{AreWords};
ghost use Rattle.sot_guard.specs.Guarding.{last_time};
ghost use Rattle.sot_guard_protocol.specs.Openings.{HasAll};
ghost use Rattle.sot_guard_input.specs.Reading.{IsSettled};
ghost use Rattle.sot_guard_program.specs.Moments.{ears, mouth, Ended};
ghost use Rattle.sot_guard_program.specs.Says.{SaysTalk, SaysBegun, SaysRobot};
ghost use Rattle.sot_guard_program.specs.Beginning.{SaysOpened, SaysIn, SaysFrom};

use crate::halt::stopped;
use crate::speaker::Speaker;
use crate::starts::hear_starts;
use crate::tell::tell;
use crate::unheld::unheld;
use sot_cli::Status;
use sot_guard::BeginFail;
use sot_guard_input::Ear;
use sot_guard_protocol::{Talk, TalkOpening};
use sot_lang::Typed;
use sot_ports::{Sink, Source};
use sot_tube::Accepted;
use std::alloc::Global;

// Hears and answers what is said in a talk, of which these were the lines so far.
fn talk_on<S: Source, K: Sink>(
    mut speaker: Speaker<'_>,
    lines: usize,
    ear: &mut Ear,
    source: &mut S,
    sink: &mut K,
) -> Status
    requires few { lines < 2 ^ 64 - 1 }
    requires settled { IsSettled (S.left source.old) ear.old.buffer ear.old.ended }
    ensures { Ended (SaysFrom ear.old.ended (SaysTalk speaker.entry.talk lines))
        (ears (S.left source.old) (S.faults source.old) ear.old)
        (ears (S.left source.new) (S.faults source.new) ear.new)
        (mouth (K.held sink.old) (K.faults sink.old))
        (mouth (K.held sink.new) (K.faults sink.new)) result.0 }
{
    if ear.has_ended() {
        return speaker.finish(sink);
    }
    match speaker.hear_all(lines + 1, ear, source, sink) {
        Ok(()) => speaker.finish(sink),
        Err(halt) => speaker.stop(halt, sink),
    }
}

// Says that a talk begins, and goes on with it.
fn begin_talk<S: Source, K: Sink>(
    mut speaker: Speaker<'_>,
    lines: usize,
    ear: &mut Ear,
    source: &mut S,
    sink: &mut K,
) -> Status
    requires few { lines < 2 ^ 64 - 1 }
    requires settled { IsSettled (S.left source.old) ear.old.buffer ear.old.ended }
    ensures { Ended (SaysFrom ear.old.ended (SaysBegun speaker.entry.talk lines))
        (ears (S.left source.old) (S.faults source.old) ear.old)
        (ears (S.left source.new) (S.faults source.new) ear.new)
        (mouth (K.held sink.old) (K.faults sink.old))
        (mouth (K.held sink.new) (K.faults sink.new)) result.0 }
{
    match speaker.greet(sink) {
        Ok(()) => talk_on(speaker, lines, ear, source, sink),
        Err(_) => Status(5),
    }
}

// Begins a talk about plants that were all observed at this time.
fn begin<S: Source, K: Sink>(
    alloc: Global,
    p: &Typed,
    opening: TalkOpening<'_>,
    time: u64,
    waiting: Vec<u8>,
    ear: &mut Ear,
    source: &mut S,
    sink: &mut K,
) -> Status
    requires program { opening.accepted.program ≡ p.now }
    requires all { HasAll opening }
    requires horizon { time ≤ last_time }
    requires rules { MeetsTableRules p.now }
    requires certified { IsWellCertified p.now opening.accepted.cert.jitter opening.accepted.cert }
    requires settled { IsSettled (S.left source.old) ear.old.buffer ear.old.ended }
    ensures { Ended (SaysFrom ear.old.ended (SaysOpened time opening.entry))
        (ears (S.left source.old) (S.faults source.old) ear.old)
        (ears (S.left source.new) (S.faults source.new) ear.new)
        (mouth (K.held sink.old) (K.faults sink.old))
        (mouth (K.held sink.new) (K.faults sink.new)) result.0 }
{
    let starts = match Vec::from_slice(alloc, opening.starts()) {
        Ok(starts) => starts,
        Err(_) => return Status(6),
    };
    match Talk::begin(alloc, opening, time) {
        Ok(talk) => begin_talk(Speaker { talk, waiting }, starts.len(), ear, source, sink),
        Err(BeginFail::NotHeldSafe { module }) => tell(unheld(alloc, p, &starts, module), sink),
        Err(BeginFail::Memory) => Status(6),
    }
}

/// Hears where each plant is observed first, at this time, and then answers line by line what is said, through
/// bytes that have all their room.
pub(crate) fn converse<S: Source, K: Sink>(
    alloc: Global,
    accepted: &Accepted<'_>,
    mut waiting: Vec<u8>,
    time: u64,
    ear: &mut Ear,
    source: &mut S,
    sink: &mut K,
) -> Status
    requires words { AreWords accepted.now.program }
    requires horizon { time ≤ last_time }
    requires certified { IsWellCertified accepted.now.program accepted.now.cert.jitter
        accepted.now.cert }
    requires settled { IsSettled (S.left source.old) ear.old.buffer ear.old.ended }
    ensures { Ended (SaysIn (SaysRobot time accepted.now))
        (ears (S.left source.old) (S.faults source.old) ear.old)
        (ears (S.left source.new) (S.faults source.new) ear.new)
        (mouth (K.held sink.old) (K.faults sink.old))
        (mouth (K.held sink.new) (K.faults sink.new)) result.0 }
{
    let p = accepted.typed();
    let mut opening = match TalkOpening::new(alloc, accepted) {
        Ok(opening) => opening,
        Err(_) => return Status(6),
    };
    match hear_starts(&mut opening, p.plants.len(), ear, source) {
        Ok(()) => begin(alloc, p, opening, time, waiting, ear, source, sink),
        Err(halt) => stopped(&mut waiting, halt, sink),
    }
}
