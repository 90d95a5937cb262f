//! A session, and what it is answered with.

ghost use Rattle.std.specs.Prelude.{◌≡◌, ◌<◌, ◌∷◌, ℕ, ℤ, Bool, true, Option, None, Some, List, []};
ghost use Rattle.std.specs.Prelude.{length};
ghost use Rattle.sot_trace.specs.Words.{AreWords};
ghost use Rattle.sot_trace_lines.specs.Shown.{Holds, ShowsDraft};
ghost use Rattle.sot_board.specs.Counts.{state_count};
ghost use Rattle.sot_guard.specs.Hearing.{Hearing, program_of};
ghost use Rattle.sot_guard_lines.specs.Sayings.{Saying, InputSaid, DraftSaid, GoSaid, TickSaid};
ghost use Rattle.sot_guard_lines.specs.Sayings.{ResumeSaid, FitsSaying};
ghost use Rattle.sot_guard_lines.specs.Shown.{ShowsSaid};
ghost use Rattle.sot_guard_protocol.specs.Asides.{aside_of};
ghost use Rattle.sot_guard_protocol.specs.Answers.{blind_line};
ghost use Rattle.sot_guard_protocol.specs.Talks.{tables_of, draft_of, counted, Answers};
ghost use Rattle.sot_guard_protocol.specs.Talks.{RefusesLarge};
ghost use Rattle.sot_guard_protocol.specs.Talks.{time_of, Mishears, Hears, LosesSight, GoesOnBlind};
ghost use Rattle.sot_guard_protocol.specs.Talks.{IsOver};
ghost use Rattle.sot_guard.specs.Guarding.{last_time};
ghost use Rattle.sot_guard.specs.Hearing.{PassesUnseen};
ghost use Rattle.sot_guard.specs.declared.turn.SessionEvent.TheVariants.{Instant, Tick};
ghost use Rattle.sot_trace.specs.Traces.{text_of};

use crate::aside::{Aside, aside_of, is_go};
use crate::heard::Heard;
use crate::put::{put_blind, put_ignored, put_instant, put_resume, put_value, put_where_outside};
use sot_box::Point;
use sot_guard::{Misheard, Session, SessionEvent};
use sot_guard_lines::Said;
use sot_history_state::put_points;
use sot_lang::{Draft, Typed};
use sot_text_output::Out;
use std::marker::Model;

/// A session, how many events there were, and room for what is put.
#[derive(Drop)]
pub(crate) struct SessionDesk<'a> {
    session: Session<'a>,
    events: usize,
    points: Vec<Point>,
}

impl<'a> Model for SessionDesk<'a> {
    ghost use Rattle.sot_guard_protocol.specs.Talks.{Talking};
    ghost use Rattle.sot_lang.specs.contracts.term.Term as term;
    ghost use Rattle.sot_lang.specs.contracts.act.Act as act;
    ghost use Rattle.std.specs.Coded.{codes};

    ghost Value = { Talking };

    ghost coded = { Prim.hlevel (codes, term.the_row.coded, act.the_row.coded) };

    ghost use Rattle.sot_guard_protocol.specs.DeskView.{talking, IsDesk};

    ghost view = { talking };

    ghost invariant = { IsDesk };
}

impl<'a> SessionDesk<'a> {
    /// No events yet.
    pub(crate) fn new(session: Session<'a>, points: Vec<Point>) -> SessionDesk<'a>
        requires points { length points.items ≡ length (program_of session).plants }
        requires words { AreWords (program_of session) }
        ensures hearing { result.hearing ≡ session.entry }
        ensures events { result.events ≡ 0 }
    {
        SessionDesk {
            session,
            events: 0,
            points,
        }
    }

    /// The session.
    pub(crate) fn session(&self) -> &Session<'a>
        ensures { result.now ≡ self.now.hearing }
    {
        &self.session
    }

    /// How many events there were so far.
    pub(crate) fn events(&self) -> usize
        ensures { result ≡ self.now.events }
    {
        self.events
    }

    /// The program, whose names are words.
    pub(crate) fn typed(&self) -> &'a Typed
        ensures value { result.now ≡ tables_of self.now }
        ensures words { AreWords result.now }
    {
        self.session.guard().typed()
    }

    // Why a line with a number of more than 64 bits is not taken, which may come in this turn.
    fn too_large(&self, turn: SessionEvent) -> Misheard
        ensures { RefusesLarge self.now.hearing turn result }
    {
        if self.session.turn() == turn {
            Misheard::OutsideType
        } else {
            Misheard::OutOfTurn
        }
    }

    fn input<O: Out>(&mut self, topic: u32, value: &[i64], out: &mut O) -> Result<Heard, Misheard>
        ensures { Answers self.old (InputSaid topic value.now) self.new
            (O.puts out.old out.new) result }
    {
        match self.session.input(topic, value) {
            Ok(()) => {}
            Err(why) => return Err(why),
        }
        self.events = self.events.saturating_add(1);
        let guard = self.session.guard();
        put_value(out, guard.typed(), guard.time(), topic, value);
        Ok(Heard::Input)
    }

    fn draft<O: Out>(&mut self, node: u32, draft: &Draft, out: &mut O) -> Result<Heard, Misheard>
        ensures { (slots : List (Option (Bool × ℤ))) → draft.now ≡ draft_of slots
            → Answers self.old (DraftSaid node slots) self.new (O.puts out.old out.new) result }
    {
        match self.session.draft(node, draft) {
            Ok(()) => {}
            Err(why) => return Err(why),
        }
        Ok(Heard::Draft)
    }

    fn go<O: Out>(&mut self, out: &mut O) -> Result<Heard, Misheard>
        ensures { Answers self.old GoSaid self.new (O.puts out.old out.new) result }
    {
        match self.session.go() {
            Ok(()) => {}
            Err(why) => return Err(why),
        }
        let guard = self.session.guard();
        guard.reveal_invariant();
        let told = self.session.told();
        put_instant(out, guard.typed(), guard.time(), told, guard.scalars());
        self.events = self.events.saturating_add(told.len());
        Ok(Heard::Go)
    }

    fn resume<O: Out>(&mut self, out: &mut O) -> Result<Heard, Misheard>
        ensures { Answers self.old ResumeSaid self.new (O.puts out.old out.new) result }
    {
        let refused = match self.session.resume() {
            Ok(refused) => refused,
            Err(why) => return Err(why),
        };
        let guard = self.session.guard();
        put_resume(out, guard.typed(), guard.time(), refused);
        Ok(Heard::Resume)
    }

    fn tick<O: Out>(&mut self, states: &[i64], out: &mut O) -> Result<Heard, Misheard>
        requires { length states.now ≡ state_count (tables_of self.old).plants }
        ensures { Answers self.old (TickSaid states.now) self.new (O.puts out.old out.new) result }
    {
        put_points(&self.typed().plants, states, &mut self.points);
        let outside = match self.session.tick(&self.points) {
            Ok(outside) => outside,
            Err(why) => return Err(why),
        };
        self.events = self.events.saturating_add(1);
        let guard = self.session.guard();
        put_where_outside(out, guard.typed(), guard.time(), outside);
        Ok(Heard::Tick)
    }

    fn take_input<O: Out>(
        &mut self,
        topic: u32,
        whole: bool,
        numbers: &[i64],
        out: &mut O,
    ) -> Result<Heard, Misheard>
        ensures { (value : List ℤ) → Holds whole numbers.now value
            → Answers self.old (InputSaid topic value) self.new (O.puts out.old out.new) result }
    {
        if whole {
            self.input(topic, numbers, out)
        } else {
            Err(self.too_large(SessionEvent::Instant))
        }
    }

    fn take_draft<O: Out>(
        &mut self,
        node: u32,
        draft: Option<Draft>,
        out: &mut O,
    ) -> Result<Heard, Misheard>
        ensures { (slots : List (Option (Bool × ℤ))) → ShowsDraft draft slots
            → Answers self.old (DraftSaid node slots) self.new (O.puts out.old out.new) result }
    {
        match draft {
            Some(own) => self.draft(node, &own, out),
            None => Err(self.too_large(SessionEvent::Instant)),
        }
    }

    fn take_tick<O: Out>(
        &mut self,
        whole: bool,
        numbers: &[i64],
        out: &mut O,
    ) -> Result<Heard, Misheard>
        requires { whole ≡ true
            → length numbers.now ≡ state_count (tables_of self.old).plants }
        ensures { (states : List ℤ) → Holds whole numbers.now states
            → Answers self.old (TickSaid states) self.new (O.puts out.old out.new) result }
    {
        if whole {
            self.tick(numbers, out)
        } else {
            Err(self.too_large(SessionEvent::Tick))
        }
    }

    /// What is said is taken and answered, or nothing changes. Its numbers stand in the list.
    pub(crate) fn take<O: Out>(
        &mut self,
        said: Said,
        numbers: &[i64],
        out: &mut O,
    ) -> Result<Heard, Misheard>
        requires { (s : Saying) × FitsSaying (tables_of self.old) s
            × ShowsSaid said numbers.now s }
        ensures { (s : Saying) → ShowsSaid said numbers.now s
            → Answers self.old s self.new (O.puts out.old out.new) result }
    {
        match said {
            Said::Start { .. } => Err(Misheard::OutOfTurn),
            Said::Input { topic, whole } => self.take_input(topic, whole, numbers, out),
            Said::Draft { node, draft } => self.take_draft(node, draft, out),
            Said::Go => self.go(out),
            Said::Resume => self.resume(out),
            Said::Tick { whole } => self.take_tick(whole, numbers, out),
        }
    }

    // A draft, an input or a resume is not taken, which is told.
    fn ignore<O: Out>(&mut self, line: &[u8], aside: Aside, why: Misheard, out: &mut O) -> Heard
        requires is { aside_of line.now ≡ Some aside }
        requires misheard { Mishears self.old line.now why }
        ensures { Hears self.old line.now result self.new (O.puts out.old out.new) }
    {
        let guard = self.session.guard();
        put_ignored(out, guard.typed(), guard.time(), aside, line, why);
        Heard::Ignored
    }

    // A tick passes unseen.
    fn pass_unseen(&mut self)
        requires turn { self.old.hearing.turn ≡ Tick }
        requires time { time_of self.old < last_time }
        ensures passes { PassesUnseen self.old.hearing self.new.hearing }
        ensures events { self.new.events ≡ counted self.old.events 1 }
    {
        self.session.pass_unseen(&mut self.points);
        self.events = self.events.saturating_add(1);
    }

    // The plants are lost from sight.
    fn lose_sight(&mut self)
        requires going { IsOver self.old → ⊥ }
        ensures loses { LosesSight self.old self.new }
        ensures turn { self.new.hearing.turn ≡ Instant }
    {
        match self.session.turn() {
            SessionEvent::Tick => self.pass_unseen(),
            SessionEvent::Instant => self.session.withdraw(),
        }
    }

    // Where the line says `go`, the instant is gone through all the same.
    fn go_on_blind<O: Out>(&mut self, line: &[u8], out: &mut O)
        requires turn { self.old.hearing.turn ≡ Instant }
        ensures { (more : List (List ℕ)) × GoesOnBlind self.old line.now more self.new
            × O.puts out.old out.new (text_of more) }
    {
        if is_go(line) {
            match self.go(out) {
                Ok(_) => {}
                Err(_) => unreachable!(),
            }
        }
    }

    // A line is not taken that is no draft, no input and no resume.
    fn go_blind<O: Out>(&mut self, line: &[u8], why: Misheard, out: &mut O) -> Heard
        requires going { IsOver self.old → ⊥ }
        requires none { aside_of line.now ≡ None }
        requires misheard { Mishears self.old line.now why }
        ensures { Hears self.old line.now result self.new (O.puts out.old out.new) }
    {
        self.lose_sight();
        put_blind(out, self.session.guard().time(), why);
        self.go_on_blind(line, out);
        Heard::Blind
    }

    /// A line is not taken: a draft, an input or a resume is ignored, and after any other line the
    /// models are trusted no more.
    pub(crate) fn mishear<O: Out>(&mut self, line: &[u8], why: Misheard, out: &mut O) -> Heard
        requires going { IsOver self.old → ⊥ }
        requires misheard { Mishears self.old line.now why }
        ensures { Hears self.old line.now result self.new (O.puts out.old out.new) }
    {
        match aside_of(line) {
            Some(aside) => self.ignore(line, aside, why, out),
            None => self.go_blind(line, why, out),
        }
    }
}
