//! A session, instant by instant.

ghost use Rattle.std.specs.Prelude.{◌≡◌, ◌<◌, ◌≤◌, ℕ, [], true, length, IfOk, IfErr, MatchResult};
ghost use Rattle.std.specs.Prelude.{MatchOption, IsErrOf};
ghost use Rattle.sot_world.specs.Opens.{AreStarts};
ghost use Rattle.sot_guard.specs.Guarding.{last_time};
ghost use Rattle.sot_guard.specs.Hearing.{TakesInput, TakesDraft, GoesThrough, TakesTick};
ghost use Rattle.sot_guard.specs.Hearing.{RefusesInput, RefusesDraft, RefusesGo};
ghost use Rattle.sot_guard.specs.Hearing.{RefusesTick, NoDrafts, IsHearing, IsWithdrawn};
ghost use Rattle.sot_guard.specs.Hearing.{PassesUnseen, Resumes, MayNotResume, RefusesResume};
ghost use Rattle.sot_guard.specs.Hearing.{program_of};
ghost use Rattle.sot_guard.specs.Resuming.{AreHeldSafe};
ghost use Rattle.sot_guard.specs.Beginning.{IsOpeningAt, AtOpening, IsStartUnsafe, IfNotHeld};
ghost use Rattle.sot_guard.specs.declared.turn.SessionEvent.TheVariants.{Instant, Tick};

use crate::begin_fail::BeginFail;
use crate::blank::{blank_drafts, clear_drafts, clear_flags, no_flags};
use crate::guard::{Guard, LAST_TIME};
use crate::hear::{are_points, is_external, is_input, is_typed};
use crate::instant::go;
use crate::misheard::Misheard;
use crate::outside::Outside;
use crate::told::Told;
use crate::turn::SessionEvent;
use sot_box::Point;
use sot_lang::Draft;
use sot_tube::Accepted;
use std::alloc::{AllocError, Global};
use std::marker::Model;

/// A guard, and what was said to it in this instant.
#[derive(Drop)]
pub struct Session<'a> {
    guard: Guard<'a>,
    turn: SessionEvent,
    seen: bool,
    drafts: Vec<Draft>,
    drafted: Vec<bool>,
    told: Vec<Told>,
}

impl<'a> Model for Session<'a> {
    ghost use Rattle.sot_guard.specs.Hearing.{Hearing};
    ghost use Rattle.sot_lang.specs.contracts.term.Term as term;
    ghost use Rattle.sot_lang.specs.contracts.act.Act as act;
    ghost use Rattle.std.specs.Coded.{codes};

    ghost Value = { Hearing };

    ghost coded = { Prim.hlevel (codes, term.the_row.coded, act.the_row.coded) };

    ghost use Rattle.sot_guard.specs.SessionView.{hearing, IsSession};

    ghost view = { hearing };

    ghost invariant = { IsSession };
}

impl<'a> Session<'a> {
    /// A session whose plants start at this time, in ticks, and at these points, one for each plant
    /// with a coordinate for each of its state variables. It takes all memory that the session will
    /// ever need. `NotHeldSafe` and `Memory` as [`Guard::begin`] says them.
    pub fn begin(
        alloc: Global,
        acc: &'a Accepted<'a>,
        time: u64,
        start: &[Point],
    ) -> Result<Session<'a>, BeginFail>
        requires starts { AreStarts acc.now.program start.now }
        requires horizon { time ≤ last_time }
        ensures opening { IfOk result (λ s.
            IsOpeningAt acc.now.program time start.now s.guarding.at) }
        ensures held { IfOk result (λ s.
            AreHeldSafe acc.now.program acc.now.cert.jitter s.guarding.at) }
        ensures trusted { IfOk result (λ s. s.guarding.trusted ≡ true) }
        ensures accepted { IfOk result (λ s. s.guarding.accepted ≡ acc.now) }
        ensures turn { IfOk result (λ s. s.turn ≡ Instant) }
        ensures seen { IfOk result (λ s. s.seen ≡ true) }
        ensures no_drafts { IfOk result (λ s. NoDrafts s) }
        ensures nothing_told { IfOk result (λ s. s.told ≡ []) }
        ensures not_held { IfErr result (λ f.
            IfNotHeld f (λ m. IsStartUnsafe acc.now.program acc.now.cert.jitter time start.now
            m)) }
        ensures memory { IsErrOf result BeginFail.Memory → AtOpening acc.now.program time
            start.now (λ C. AreHeldSafe acc.now.program acc.now.cert.jitter C) }
    {
        match Guard::begin(alloc, acc, time, start) {
            Ok(guard) => match Session::around(alloc, guard) {
                Ok(session) => Ok(session),
                Err(_) => Err(BeginFail::Memory),
            },
            Err(fail) => Err(fail),
        }
    }

    // A session in which nothing was said.
    fn around(alloc: Global, guard: Guard<'a>) -> Result<Session<'a>, AllocError>
        ensures guarding { IfOk result (λ s. s.guarding ≡ guard.entry) }
        ensures turn { IfOk result (λ s. s.turn ≡ Instant) }
        ensures seen { IfOk result (λ s. s.seen ≡ true) }
        ensures no_drafts { IfOk result (λ s. NoDrafts s) }
        ensures nothing_told { IfOk result (λ s. s.told ≡ []) }
    {
        let p = guard.typed();
        let drafts = blank_drafts(alloc, &p.nodes)?;
        let drafted = no_flags(alloc, &p.nodes)?;
        let told = Vec::with_capacity(alloc, p.modules.len() + p.nodes.len())?;
        Ok(Session {
            guard,
            turn: SessionEvent::Instant,
            seen: true,
            drafts,
            drafted,
            told,
        })
    }

    /// Does nothing, and tells the proof what the type keeps.
    pub fn reveal_invariant(&self)
        ensures { IsHearing self.now }
    {
        // A look at a field brings what the type keeps.
        let _turn = self.turn;
    }

    /// What the session hears next.
    pub fn turn(&self) -> SessionEvent
        ensures { result ≡ self.now.turn }
    {
        self.turn
    }

    /// Whether all plants were observed at the present time.
    pub fn seen(&self) -> bool
        ensures { result ≡ self.now.seen }
    {
        self.seen
    }

    /// What happened in the last instant that was gone through, in order.
    pub fn told(&self) -> &[Told]
        ensures { result.now ≡ self.now.told }
    {
        &self.told
    }

    /// The guard: its time, modes and states, and the commands that are in force.
    pub fn guard(&self) -> &Guard<'a>
        ensures { result.now ≡ self.now.guarding }
    {
        &self.guard
    }

    /// A value comes on a topic. `OutOfTurn` after the instant was gone through; `NotALine` where
    /// the topic is none of the environment or has another count of scalars; `OutsideType` where a
    /// number is outside its scalar's range.
    pub fn input(&mut self, topic: u32, value: &[i64]) -> Result<(), Misheard>
        ensures { MatchResult result
            (λ _. TakesInput self.old topic value.now self.new)
            (λ why. (self.new ≡ self.old) × RefusesInput self.old topic value.now why) }
    {
        match self.turn {
            SessionEvent::Tick => return Err(Misheard::OutOfTurn),
            SessionEvent::Instant => {}
        }
        let p = self.guard.typed();
        if !is_input(p, topic, value) {
            return Err(Misheard::NotALine);
        }
        if !is_typed(p, topic, value) {
            return Err(Misheard::OutsideType);
        }
        self.guard.take(topic, value);
        Ok(())
    }

    /// An external node has drafted, of which the slots of the scalars that it writes count.
    /// `OutOfTurn` after the instant was gone through; `NotALine` where there is no such node or it
    /// is coded; `NotDue`; and `AlreadyDrafted` at a second draft in one instant.
    pub fn draft(&mut self, node: u32, draft: &Draft) -> Result<(), Misheard>
        ensures { MatchResult result
            (λ _. TakesDraft self.old node draft.now self.new)
            (λ why. (self.new ≡ self.old) × RefusesDraft self.old node why) }
    {
        match self.turn {
            SessionEvent::Tick => return Err(Misheard::OutOfTurn),
            SessionEvent::Instant => {}
        }
        if !is_external(self.guard.typed(), node) {
            return Err(Misheard::NotALine);
        }
        if !self.guard.left(node) {
            return Err(Misheard::NotDue);
        }
        let n = node as usize;
        if self.drafted[n] {
            return Err(Misheard::AlreadyDrafted);
        }
        self.drafts[n] = *draft;
        self.drafted[n] = true;
        Ok(())
    }

    /// All that is left in the instant happens, with what was drafted; [`Session::told`] is what
    /// happened. `OutOfTurn` where the instant was gone through already.
    pub fn go(&mut self) -> Result<(), Misheard>
        ensures { MatchResult result
            (λ _. GoesThrough self.old self.new)
            (λ why. (self.new ≡ self.old) × RefusesGo self.old why) }
    {
        match self.turn {
            SessionEvent::Tick => return Err(Misheard::OutOfTurn),
            SessionEvent::Instant => {}
        }
        go(&mut self.guard, &self.drafts, &mut self.told);
        clear_drafts(&mut self.drafts);
        clear_flags(&mut self.drafted);
        self.turn = SessionEvent::Tick;
        Ok(())
    }

    /// The plants are at these points after the tick. The first state variable outside the least
    /// interval of its next value is handed out where the models were trusted, and then the safe
    /// node of each module is left to fire, whether it is due or not. `OutOfTurn` before the
    /// instant was gone through; `TooFar` at time 10^12; `NotALine` where there is not one point
    /// for each plant, of its width.
    pub fn tick(&mut self, points: &[Point]) -> Result<Option<Outside>, Misheard>
        ensures { MatchResult result
            (λ outside. TakesTick self.old points.now outside self.new)
            (λ why. (self.new ≡ self.old) × RefusesTick self.old points.now why) }
    {
        match self.turn {
            SessionEvent::Instant => return Err(Misheard::OutOfTurn),
            SessionEvent::Tick => {}
        }
        if self.guard.time() >= LAST_TIME {
            return Err(Misheard::TooFar);
        }
        if !are_points(self.guard.typed(), points) {
            return Err(Misheard::NotALine);
        }
        let outside = self.guard.observe(points);
        self.turn = SessionEvent::Instant;
        self.seen = true;
        self.guard.ask_safe_nodes_if(outside.is_some());
        Ok(outside)
    }

    /// The models are to be trusted again, which they are where the commands in force hold every
    /// module's plant safe until its safe node fires, with exactly what is due left. Else nothing
    /// changes, and the first module whose plant they do not hold is handed out. `OutOfTurn` after
    /// the instant was gone through; `NotDue` where the models are trusted; `NotSeen` where the
    /// plants were not observed at this time.
    pub fn resume(&mut self) -> Result<Option<u32>, Misheard>
        ensures { MatchResult result
            (λ unheld. MatchOption unheld
            (Resumes self.old self.new)
            (λ m. (self.new ≡ self.old) × MayNotResume self.old m))
            (λ why. (self.new ≡ self.old) × RefusesResume self.old why) }
    {
        match self.turn {
            SessionEvent::Tick => return Err(Misheard::OutOfTurn),
            SessionEvent::Instant => {}
        }
        if self.guard.trusted() {
            return Err(Misheard::NotDue);
        }
        if !self.seen {
            return Err(Misheard::NotSeen);
        }
        Ok(self.guard.resume())
    }

    /// In an instant: the models are trusted no more. Every module is in mode Sc, and its safe node
    /// is left to fire, whether it is due or not.
    pub fn withdraw(&mut self)
        requires { self.old.turn ≡ Instant }
        ensures { IsWithdrawn self.old self.new }
    {
        self.guard.withdraw();
        self.guard.ask_safe_nodes();
    }

    /// A tick passes after which no plant is observed: each is taken where it was observed last,
    /// and the models are trusted no more, as after [`Session::withdraw`]. The points are room for
    /// as many as there are plants.
    pub fn pass_unseen(&mut self, room: &mut [Point])
        requires turn { self.old.turn ≡ Tick }
        requires time { self.old.guarding.at.time < last_time }
        requires room { length room.old ≡ length (program_of self.old).plants }
        ensures passes { PassesUnseen self.old self.new }
        ensures room { length room.new ≡ length room.old }
    {
        self.guard.reveal_invariant();
        self.guard.put_states(room);
        let _ = self.guard.observe(room);
        self.guard.withdraw();
        self.guard.ask_safe_nodes();
        self.turn = SessionEvent::Instant;
        self.seen = false;
    }
}
