//! A talk with a robot.

ghost use Rattle.std.specs.Prelude.{◌≡◌, ◌≤◌, ◌∷◌, [], ◌↔◌, ℕ, List, true, IsTrue, IfOk, IfErr, OnErr};
ghost use Rattle.std.specs.Prelude.{IsErrOf};
ghost use Rattle.sot_trace.specs.Traces.{text_of};
ghost use Rattle.sot_guard.specs.Guarding.{last_time};
ghost use Rattle.sot_guard.specs.Resuming.{AreHeldSafe};
ghost use Rattle.sot_guard.specs.Beginning.{IsOpeningAt, AtOpening, IsStartUnsafe, IfNotHeld};
ghost use Rattle.sot_guard.specs.Hearing.{NoDrafts};
ghost use Rattle.sot_guard.specs.declared.turn.SessionEvent.TheVariants.{Instant};
ghost use Rattle.sot_guard_lines.specs.Lines.{end_line};
ghost use Rattle.sot_guard_protocol.specs.Answers.{begins_text};
ghost use Rattle.sot_guard_protocol.specs.Talks.{tables_of, time_of, TakesLine, Hears, Mishears};
ghost use Rattle.sot_guard_protocol.specs.Talks.{IsOver};
ghost use Rattle.sot_guard_protocol.specs.Openings.{HasAll};

use crate::desk::SessionDesk;
use crate::heard::Heard;
use crate::opening::TalkOpening;
use sot_guard::{BeginFail, LAST_TIME, Misheard, Session, SessionEvent};
use sot_guard_lines::{put_begins, put_end, read_said};
use sot_text_output::Out;
use std::alloc::Global;
use std::marker::Model;

/// A talk with a robot whose plants were observed first: an instant, a tick, and so on. It has room
/// for the numbers of any line.
#[derive(Drop)]
pub struct Talk<'a> {
    desk: SessionDesk<'a>,
    numbers: Vec<i64>,
}

impl<'a> Model for Talk<'a> {
    ghost use Rattle.sot_guard_protocol.specs.Talks.{Talking};
    ghost use Rattle.sot_lang.specs.contracts.term.Term as term;
    ghost use Rattle.sot_lang.specs.contracts.act.Act as act;
    ghost use Rattle.std.specs.Coded.{codes};

    ghost Value = { Talking };

    ghost coded = { Prim.hlevel (codes, term.the_row.coded, act.the_row.coded) };

    ghost use Rattle.sot_guard_protocol.specs.TalkView.{HearsAnyLine};

    ghost view = { λ t. t.desk };

    ghost invariant = { HearsAnyLine };
}

impl<'a> Talk<'a> {
    /// The talk about plants that were all observed at this time, in ticks. It takes all memory that
    /// it will ever need. `NotHeldSafe` names the first module whose plant the first commands do not hold safe until
    /// the module's safe node fires; `Memory` comes only where each plant is held safe.
    pub fn begin(alloc: Global, opening: TalkOpening<'a>, time: u64) -> Result<Talk<'a>, BeginFail>
        requires all { HasAll opening }
        requires horizon { time ≤ last_time }
        ensures opening { IfOk result (λ t. IsOpeningAt opening.entry.accepted.program time
            opening.entry.starts t.hearing.guarding.at) }
        ensures held { IfOk result (λ t. AreHeldSafe opening.entry.accepted.program
            opening.entry.accepted.cert.jitter t.hearing.guarding.at) }
        ensures trusted { IfOk result (λ t. t.hearing.guarding.trusted ≡ true) }
        ensures accepted { IfOk result (λ t. t.hearing.guarding.accepted ≡ opening.entry.accepted) }
        ensures turn { IfOk result (λ t. t.hearing.turn ≡ Instant) }
        ensures seen { IfOk result (λ t. t.hearing.seen ≡ true) }
        ensures no_drafts { IfOk result (λ t. NoDrafts t.hearing) }
        ensures no_events { IfOk result (λ t. t.events ≡ 0) }
        ensures not_held { IfErr result (λ f. IfNotHeld f (λ m.
            IsStartUnsafe opening.entry.accepted.program opening.entry.accepted.cert.jitter time
            opening.entry.starts m)) }
        ensures memory { IsErrOf result BeginFail.Memory
            → AtOpening opening.entry.accepted.program time opening.entry.starts
            (λ C. AreHeldSafe opening.entry.accepted.program opening.entry.accepted.cert.jitter
            C) }
    {
        let acc = opening.accepted();
        let lists = opening.into_lists();
        let session = match Session::begin(alloc, acc, time, &lists.starts) {
            Ok(session) => session,
            Err(fail) => return Err(fail),
        };
        Ok(Talk {
            desk: SessionDesk::new(session, lists.starts),
            numbers: lists.numbers,
        })
    }

    // What a line says is taken and answered, or nothing changes, and nothing is put.
    fn take<O: Out>(&mut self, line: &[u8], out: &mut O) -> Result<Heard, Misheard>
        ensures heard { IfOk result (λ h. (answer : List (List ℕ))
            × TakesLine self.old line.now h answer self.new × O.puts out.old out.new
            (text_of answer)) }
        ensures same { OnErr result (self.new ≡ self.old) }
        ensures unheard { IfErr result (λ why. Mishears self.old line.now why) }
        ensures nothing_put { OnErr result (O.puts out.old out.new []) }
    {
        let p = self.desk.typed();
        match read_said(p, line, &mut self.numbers) {
            Some(said) => self.desk.take(said, &self.numbers, out),
            None => Err(Misheard::NotALine),
        }
    }

    /// Hears a line of the robot, without its line end, and puts the lines that it is answered
    /// with, each with a line end (LF). No line ends the talk: a draft, an input or a resume that
    /// is not taken is `Ignored` and changes nothing, and after any other line that is not taken
    /// the models are trusted no more (`Blind`).
    pub fn hear<O: Out>(&mut self, line: &[u8], out: &mut O) -> Heard
        requires going { IsOver self.old → ⊥ }
        ensures { Hears self.old line.now result self.new (O.puts out.old out.new) }
    {
        match self.take(line, out) {
            Ok(heard) => heard,
            Err(why) => self.desk.mishear(line, why, out),
        }
    }

    /// Whether nothing may come any more: the instant of time 10^12 was gone through.
    pub fn is_over(&self) -> bool
        ensures { IsTrue result ↔ IsOver self.now }
    {
        let session = self.desk.session();
        match session.turn() {
            SessionEvent::Instant => false,
            SessionEvent::Tick => session.guard().time() >= LAST_TIME,
        }
    }

    /// Whether the models are trusted now.
    pub fn trusted(&self) -> bool
        ensures { result ≡ self.now.hearing.guarding.trusted }
    {
        self.desk.session().guard().trusted()
    }

    /// Puts the first line, that the talk begins, with the external nodes that are due at its time.
    pub fn greet<O: Out>(&self, out: &mut O)
        ensures { O.puts out.old out.new (begins_text (tables_of self.now) (time_of self.now)) }
    {
        let guard = self.desk.session().guard();
        put_begins(out, guard.typed(), guard.time());
        out.put_byte(b'\n')
    }

    /// Puts the last line: the time, and how many inputs, decisions, firings and ticks there were.
    pub fn end<O: Out>(&self, out: &mut O)
        ensures { O.puts out.old out.new
            (text_of (end_line (time_of self.now) self.now.events ∷ [])) }
    {
        put_end(out, self.desk.session().guard().time(), self.desk.events());
        out.put_byte(b'\n')
    }
}
