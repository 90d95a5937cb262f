//! A talk that answers each line as soon as it is heard.

ghost use Rattle.std.specs.Prelude.{◌≡◌, false, OnOk, OnErr};
ghost use Rattle.sot_guard_input.specs.Reading.{IsLine};
ghost use Rattle.sot_guard_protocol.specs.Answers.{begins_text};
ghost use Rattle.sot_guard_protocol.specs.Talks.{tables_of, time_of, IsOver};
ghost use Rattle.sot_guard_program.specs.Moments.{ears, mouth, Utters};
ghost use Rattle.sot_guard_program.specs.Hearing.{AnswersLine, PassesTaken};
ghost use Rattle.sot_guard_program.specs.Hearing.{AnswersNext, AnswersAll, CutsOff};
ghost use Rattle.sot_guard_program.specs.Says.{end_status};
ghost use Rattle.sot_guard_program.specs.Tellings.{TellsStop, TellsEnd};

use crate::halt::{Halt, Stop, stopped};
use crate::line::{next_line, without_end};
use crate::tell::tell_put;
use sot_cli::Status;
use sot_guard_input::Ear;
use sot_guard_protocol::Talk;
use sot_ports::{Sink, Source};
use sot_text_output::Spool;

/// A talk, and the bytes through which its answers are written, with all their room.
#[derive(Drop)]
pub(crate) struct Speaker<'a> {
    pub talk: Talk<'a>,
    pub waiting: Vec<u8>,
}

// Hears a line, and writes its answer through these bytes.
fn answer<K: Sink>(
    talk: &mut Talk<'_>,
    line: &[u8],
    waiting: &mut Vec<u8>,
    sink: &mut K,
) -> Result<(), Stop>
    requires going { IsOver talk.old → ⊥ }
    ensures { AnswersLine talk.old line.now talk.new (mouth (K.held sink.old) (K.faults sink.old))
        (mouth (K.held sink.new) (K.faults sink.new)) result }
{
    waiting.clear();
    let mut spool = Spool::new(waiting, sink);
    let _ = talk.hear(line, &mut spool);
    match spool.end() {
        Ok(()) => Ok(()),
        Err(_) => Err(Stop::Sink),
    }
}

// Writes through these bytes that a talk begins.
fn tell_begins<K: Sink>(talk: &Talk<'_>, waiting: &mut Vec<u8>, sink: &mut K) -> Result<(), Stop>
    ensures well { OnOk result (Utters (mouth (K.held sink.old) (K.faults sink.old))
        (mouth (K.held sink.new) (K.faults sink.new))
        (begins_text (tables_of talk.now) (time_of talk.now))) }
    ensures cut { OnErr result (CutsOff (mouth (K.held sink.old) (K.faults sink.old))
        (mouth (K.held sink.new) (K.faults sink.new))
        (begins_text (tables_of talk.now) (time_of talk.now))) }
{
    waiting.clear();
    let mut spool = Spool::new(waiting, sink);
    talk.greet(&mut spool);
    match spool.end() {
        Ok(()) => Ok(()),
        Err(_) => Err(Stop::Sink),
    }
}

// 0 where the models are trusted, and 1 where they are not.
fn end_status(talk: &Talk<'_>) -> u8
    ensures { result ≡ end_status talk.now }
{
    if talk.trusted() { 0 } else { 1 }
}

// Writes the last line through these bytes.
fn tell_end<K: Sink>(talk: &Talk<'_>, waiting: &mut Vec<u8>, sink: &mut K) -> Status
    ensures { TellsEnd talk.now (mouth (K.held sink.old) (K.faults sink.old))
        (mouth (K.held sink.new) (K.faults sink.new)) result.0 }
{
    let status = end_status(talk);
    waiting.clear();
    let mut spool = Spool::new(waiting, sink);
    talk.end(&mut spool);
    tell_put(&mut spool, status)
}

impl<'a> Speaker<'a> {
    // The first line that waits is heard, answered and passed.
    fn take<K: Sink>(&mut self, ear: &mut Ear, len: usize, sink: &mut K) -> Result<(), Stop>
        requires line { (left : _) × IsLine len left ear.old }
        requires going { IsOver self.old.talk → ⊥ }
        ensures { PassesTaken self.old.talk self.new.talk len ear.old ear.new
            (mouth (K.held sink.old) (K.faults sink.old))
            (mouth (K.held sink.new) (K.faults sink.new)) result }
    {
        let line = without_end(&ear.bytes()[..len]);
        let answered = answer(&mut self.talk, line, &mut self.waiting, sink);
        ear.pass(len);
        answered
    }

    // Waits for the next line, hears it, and writes its answer before it asks for more. Says
    // whether there may be a line behind it.
    fn hear_next<S: Source, K: Sink>(
        &mut self,
        ear: &mut Ear,
        source: &mut S,
        sink: &mut K,
    ) -> Result<bool, Stop>
        requires open { ear.old.ended ≡ false }
        requires going { IsOver self.old.talk → ⊥ }
        ensures { AnswersNext self.old.talk self.new.talk
            (ears (S.left source.old) (S.faults source.old) ear.old)
            (ears (S.left source.new) (S.faults source.new) ear.new)
            (mouth (K.held sink.old) (K.faults sink.old))
            (mouth (K.held sink.new) (K.faults sink.new)) result }
    {
        match next_line(ear, source) {
            Ok(Some(len)) => match self.take(ear, len, sink) {
                Ok(()) => Ok(!ear.has_ended()),
                Err(stop) => Err(stop),
            },
            Ok(None) => Ok(false),
            Err(stop) => Err(stop),
        }
    }

    /// Writes that the talk begins.
    pub(crate) fn greet<K: Sink>(&mut self, sink: &mut K) -> Result<(), Stop>
        ensures same { self.new.talk ≡ self.old.talk }
        ensures well { OnOk result (Utters (mouth (K.held sink.old) (K.faults sink.old))
            (mouth (K.held sink.new) (K.faults sink.new))
            (begins_text (tables_of self.old.talk) (time_of self.old.talk))) }
        ensures cut { OnErr result (CutsOff (mouth (K.held sink.old) (K.faults sink.old))
            (mouth (K.held sink.new) (K.faults sink.new))
            (begins_text (tables_of self.old.talk) (time_of self.old.talk))) }
    {
        tell_begins(&self.talk, &mut self.waiting, sink)
    }

    /// Hears line by line until the talk is over or the lines end. The next line has this number.
    pub(crate) fn hear_all<S: Source, K: Sink>(
        &mut self,
        first: usize,
        ear: &mut Ear,
        source: &mut S,
        sink: &mut K,
    ) -> Result<(), Halt>
        requires open { ear.old.ended ≡ false }
        ensures { AnswersAll self.old.talk self.new.talk first
            (ears (S.left source.old) (S.faults source.old) ear.old)
            (ears (S.left source.new) (S.faults source.new) ear.new)
            (mouth (K.held sink.old) (K.faults sink.old))
            (mouth (K.held sink.new) (K.faults sink.new)) result }
    {
        for line in first..usize::MAX {
            if self.talk.is_over() {
                return Ok(());
            }
            match self.hear_next(ear, source, sink) {
                Ok(true) => {}
                Ok(false) => return Ok(()),
                Err(stop) => return Err(Halt { line, stop }),
            }
        }
        Ok(())
    }

    /// Writes the last line. The status is 1 where the models are not trusted then.
    pub(crate) fn finish<K: Sink>(&mut self, sink: &mut K) -> Status
        ensures { TellsEnd self.old.talk (mouth (K.held sink.old) (K.faults sink.old))
            (mouth (K.held sink.new) (K.faults sink.new)) result.0 }
    {
        tell_end(&self.talk, &mut self.waiting, sink)
    }

    /// Writes why nothing more is heard.
    pub(crate) fn stop<K: Sink>(&mut self, halt: Halt, sink: &mut K) -> Status
        ensures { TellsStop halt.stop halt.line (mouth (K.held sink.old) (K.faults sink.old))
            (mouth (K.held sink.new) (K.faults sink.new)) result.0 }
    {
        stopped(&mut self.waiting, halt, sink)
    }
}
