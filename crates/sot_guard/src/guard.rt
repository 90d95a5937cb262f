//! A mission beside plants that are observed.

ghost use Rattle.std.specs.Prelude.{◌≡◌, ◌<◌, ◌≤◌, true, length, IfOk, IfErr, IsErrOf};
ghost use Rattle.sot_world.specs.Configurations.{is_left, is_left_dm, mode_of, number_of};
ghost use Rattle.sot_world.specs.Configurations.{point_of};
ghost use Rattle.sot_world.specs.Opens.{AreStarts};
ghost use Rattle.sot_guard.specs.Guarding.{IsGuarding, last_time};
ghost use Rattle.sot_guard.specs.HeldParts.{AreAnswered};
ghost use Rattle.sot_guard.specs.Resuming.{AreHeldSafe};
ghost use Rattle.sot_guard.specs.Beginning.{IsOpeningAt, AtOpening, IsStartUnsafe, IfNotHeld};

use crate::begin_fail::BeginFail;
use crate::due::{decisions_due, nodes_due};
use crate::held::first_unheld_start;
use crate::put::put_points;
use sot_box::Point;
use sot_code::Locals;
use sot_lang::Typed;
use sot_tube::Accepted;
use sot_world::{Mode, all_locals, initial_scalars, safe_modes};
use std::alloc::{AllocError, Global};
use std::marker::Model;

mod step;

/// A guard goes on until this time, in ticks.
pub const LAST_TIME: u64 = 1_000_000_000_000;

/// An accepted mission that is decided and fired beside plants that are observed. Its type keeps
/// that every module's plant is in its safe region while the models are trusted, and that every
/// module is in mode Sc while they are not.
#[derive(Drop)]
pub struct Guard<'a> {
    accepted: &'a Accepted<'a>,
    trusted: bool,
    time: u64,
    left: Vec<bool>,
    left_dm: Vec<bool>,
    modes: Vec<Mode>,
    scalars: Vec<i64>,
    locals: Vec<Locals>,
    points: Vec<Point>,
}

impl<'a> Model for Guard<'a> {
    ghost use Rattle.sot_guard.specs.Guarding.{Guarding};
    ghost use Rattle.sot_lang.specs.contracts.term.Term as term;
    ghost use Rattle.sot_lang.specs.contracts.act.Act as act;
    ghost use Rattle.std.specs.Coded.{codes};

    ghost Value = { Guarding };

    ghost coded = { Prim.hlevel (codes, term.the_row.coded, act.the_row.coded) };

    ghost use Rattle.sot_guard.specs.GuardView.{guarding, IsGuard};

    ghost view = { guarding };

    ghost invariant = { IsGuard };
}

impl<'a> Guard<'a> {
    /// The opening of a program at this time, in ticks, and at these points, one for each plant with
    /// a coordinate for each of its state variables: all that is due then is left, and every module
    /// is in mode Sc. It takes all memory that the guard will ever need.
    ///
    /// `NotHeldSafe` names the first module whose plant the first commands do not hold safe until
    /// the module's safe node fires; `Memory` says that there is none, and comes only where they
    /// hold every module's.
    pub fn begin(
        alloc: Global,
        acc: &'a Accepted<'a>,
        time: u64,
        start: &[Point],
    ) -> Result<Guard<'a>, BeginFail>
        requires starts { AreStarts acc.now.program start.now }
        requires horizon { time ≤ last_time }
        ensures opening { IfOk result (λ g. IsOpeningAt acc.now.program time start.now g.at) }
        ensures held { IfOk result (λ g.
            AreHeldSafe acc.now.program acc.now.cert.jitter g.at) }
        ensures trusted { IfOk result (λ g. g.trusted ≡ true) }
        ensures accepted { IfOk result (λ g. g.accepted ≡ acc.now) }
        ensures not_held { IfErr result (λ f.
            IfNotHeld f (λ m. IsStartUnsafe acc.now.program acc.now.cert.jitter time start.now
            m)) }
        ensures memory { IsErrOf result BeginFail.Memory → AtOpening acc.now.program time
            start.now (λ C. AreHeldSafe acc.now.program acc.now.cert.jitter C) }
    {
        let p = acc.typed();
        if let Some(module) = first_unheld_start(p, acc.cert().jitter, time, start) {
            return Err(BeginFail::NotHeldSafe { module });
        }
        match Guard::at_start(alloc, acc, time, start) {
            Ok(guard) => Ok(guard),
            Err(_) => Err(BeginFail::Memory),
        }
    }

    fn at_start(
        alloc: Global,
        acc: &'a Accepted<'a>,
        time: u64,
        start: &[Point],
    ) -> Result<Guard<'a>, AllocError>
        requires starts { AreStarts acc.now.program start.now }
        requires horizon { time ≤ last_time }
        requires held { AreAnswered acc.now.program acc.now.cert.jitter time start.now }
        ensures opening { IfOk result (λ g. IsOpeningAt acc.now.program time start.now g.at) }
        ensures held { IfOk result (λ g.
            AreHeldSafe acc.now.program acc.now.cert.jitter g.at) }
        ensures trusted { IfOk result (λ g. g.trusted ≡ true) }
        ensures accepted { IfOk result (λ g. g.accepted ≡ acc.now) }
    {
        let p = acc.typed();
        let left = nodes_due(alloc, &p.nodes, time)?;
        let left_dm = decisions_due(alloc, &p.modules, time)?;
        let modes = safe_modes(alloc, &p.modules)?;
        let scalars = initial_scalars(alloc, &p.scalars)?;
        let locals = all_locals(alloc, &p.nodes)?;
        let points = Vec::from_slice(alloc, start)?;
        Ok(Guard {
            accepted: acc,
            trusted: true,
            time,
            left,
            left_dm,
            modes,
            scalars,
            locals,
            points,
        })
    }

    /// Does nothing, and tells the proof what the type keeps.
    pub fn reveal_invariant(&self)
        ensures { IsGuarding self.now.accepted self.now.trusted self.now.at }
    {
        // A look at a field brings what the type keeps.
        let _time = self.time;
    }

    /// The program, which lives on where this value does not.
    pub fn typed(&self) -> &'a Typed
        ensures { result.now ≡ self.now.accepted.program }
    {
        self.accepted.typed()
    }

    /// Whether the models are trusted.
    pub fn trusted(&self) -> bool
        ensures { result ≡ self.now.trusted }
    {
        self.trusted
    }

    /// The count of ticks so far, at most 10^12.
    pub fn time(&self) -> u64
        ensures value { result ≡ self.now.at.time }
        ensures horizon { result ≤ last_time }
    {
        self.time
    }

    /// Which of a module's nodes is enabled now.
    pub fn mode(&self, module: u32) -> Mode
        requires { «module» < length self.now.accepted.program.modules }
        ensures { result ≡ mode_of self.now.at «module» }
    {
        self.modes[module as usize]
    }

    /// The point at which a plant was observed last, in mantissas at the scales of its state
    /// variables.
    pub fn state(&self, plant: u32) -> Point
        requires { plant < length self.now.accepted.program.plants }
        ensures { result ≡ point_of self.now.at plant }
    {
        self.points[plant as usize]
    }

    /// The present number of a scalar, a mantissa at its scale: of a plant's input the command that
    /// is in force.
    pub fn scalar(&self, scalar: u32) -> i64
        requires { scalar < length self.now.accepted.program.scalars }
        ensures { result ≡ number_of self.now.at scalar }
    {
        self.scalars[scalar as usize]
    }

    /// The present numbers of all scalars, mantissas at their scales.
    pub fn scalars(&self) -> &[i64]
        ensures { result.now ≡ self.now.at.scalars }
    {
        &self.scalars
    }

    /// Writes the points at which the plants were observed last over as many others.
    pub fn put_states(&self, points: &mut [Point])
        requires { length points.old ≡ length self.now.accepted.program.plants }
        ensures { points.new ≡ self.now.at.points }
    {
        put_points(&self.points, points);
    }

    /// Whether a node is still to fire.
    pub fn left(&self, node: u32) -> bool
        requires { node < length self.now.accepted.program.nodes }
        ensures { result ≡ is_left self.now.at node }
    {
        self.left[node as usize]
    }

    /// Whether a module is still to decide.
    pub fn left_dm(&self, module: u32) -> bool
        requires { «module» < length self.now.accepted.program.modules }
        ensures { result ≡ is_left_dm self.now.at «module» }
    {
        self.left_dm[module as usize]
    }
}
