//! A configuration of a run of an accepted program.

ghost use Rattle.std.specs.Prelude.{◌≡◌, ℕ, ◌<◌, ◌≤◌, length, true, MatchResult, IsTrue, ◌↔◌, IfOk};
ghost use Rattle.std.specs.Prelude.{IfErr, IsErrOf};
ghost use Rattle.sot_lists.specs.Places.{At};
ghost use Rattle.sot_lang.specs.declared.tables.TopicInfo.{TopicInfo};
ghost use Rattle.sot_world.specs.Configurations.{is_left, is_left_dm, mode_of, number_of};
ghost use Rattle.sot_world.specs.Configurations.{locals_of, point_of, IsOpening, IsSafer};
ghost use Rattle.sot_world.specs.Opens.{AreStarts, StartInside, IsFirstOutside, IfNotSafer};
ghost use Rattle.sot_world.specs.Events.{Names, IsPossible, Refuses, RefusesNode, RefusesDecision};
ghost use Rattle.sot_world.specs.Events.{RefusesInput, RefusesTick, IsTypedInput, IsInBounds};
ghost use Rattle.sot_world.specs.Events.{noise_count};
ghost use Rattle.sot_world.specs.Steps.{MayTick};
ghost use Rattle.sot_world.specs.State.{IsKept};

use crate::answers::Answers;
use crate::clock::{due_within, no_decision_at_deadline, no_node_at_deadline};
use crate::event::Event;
use crate::looks::{is_in_bounds, is_in_type};
use crate::mode::Mode;
use crate::open_fail::OpenFail;
use crate::outcome::Why;
use crate::role::Role;
use crate::schedule::{Schedule, decision_schedules, node_schedules};
use crate::starts::{
    all_locals, decisions_left, first_outside, initial_scalars, nodes_left, roles, safe_modes,
};
use sot_box::Point;
use sot_code::Locals;
use sot_lang::Typed;
use sot_tube::Accepted;
use std::alloc::{AllocError, Global};
use std::marker::Model;

mod step;

/// A configuration of a run of an accepted program. Its type keeps the invariant, for all modules
/// together: in mode Ac any commands keep the plant in the safe region until a period after the
/// next decision, and in mode Sc the present commands do until the safe node fires next.
#[derive(Drop)]
pub struct World<'a> {
    accepted: &'a Accepted<'a>,
    roles: Vec<Role>,
    time: u32,
    left: Vec<bool>,
    left_dm: Vec<bool>,
    modes: Vec<Mode>,
    scalars: Vec<i64>,
    locals: Vec<Locals>,
    points: Vec<Point>,
    // Room for the points after a tick.
    next: Vec<Point>,
    answers: Answers<'a>,
    // When each node and each decision is due for the first time after now.
    node_schedules: Vec<Schedule>,
    decision_schedules: Vec<Schedule>,
}

impl<'a> Model for World<'a> {
    ghost use Rattle.sot_world.specs.State.{State};
    ghost use Rattle.sot_lang.specs.contracts.term.Term as term;
    ghost use Rattle.sot_lang.specs.contracts.act.Act as act;
    ghost use Rattle.std.specs.Coded.{codes};

    ghost Value = { State };

    ghost coded = { Prim.hlevel (codes, term.the_row.coded, act.the_row.coded) };

    ghost use Rattle.sot_world.specs.WorldView.{state, IsWorld};

    ghost view = { state };

    ghost invariant = { IsWorld };
}

impl<'a> World<'a> {
    /// The opening of a program at these points, one for each plant with a coordinate for each of
    /// its state variables: time 0, all that is due left to fire, every module in mode Sc. It takes
    /// all memory that the world will ever need.
    ///
    /// `NotSafer` names the first module whose plant starts outside the module's safer region;
    /// `Memory` says that there is none, and comes only where every plant starts inside.
    pub fn open(
        alloc: Global,
        acc: &'a Accepted<'a>,
        start: &[Point],
    ) -> Result<World<'a>, OpenFail>
        requires { AreStarts acc.now.program start.now }
        ensures opening { IfOk result (λ w. IsOpening acc.now.program start.now w.at) }
        ensures safer { IfOk result (λ w. IsSafer acc.now.program w.at) }
        ensures accepted { IfOk result (λ w. w.accepted ≡ acc.now) }
        ensures not_safer { IfErr result (λ f.
            IfNotSafer f (λ m. IsFirstOutside acc.now.program start.now m)) }
        ensures memory { IsErrOf result OpenFail.Memory
            → StartInside acc.now.program start.now (length acc.now.program.modules) }
    {
        let p = acc.typed();
        if let Some(module) = first_outside(p, start) {
            return Err(OpenFail::NotSafer { module });
        }
        match World::at_start(alloc, acc, start) {
            Ok(world) => Ok(world),
            Err(_) => Err(OpenFail::Memory),
        }
    }

    fn at_start(
        alloc: Global,
        acc: &'a Accepted<'a>,
        start: &[Point],
    ) -> Result<World<'a>, AllocError>
        requires starts { AreStarts acc.now.program start.now }
        requires inside { StartInside acc.now.program start.now (length acc.now.program.modules) }
        ensures opening { IfOk result (λ w. IsOpening acc.now.program start.now w.at) }
        ensures safer { IfOk result (λ w. IsSafer acc.now.program w.at) }
        ensures accepted { IfOk result (λ w. w.accepted ≡ acc.now) }
    {
        let p = acc.typed();
        let roles = roles(alloc, p)?;
        let left = nodes_left(alloc, &p.nodes)?;
        let left_dm = decisions_left(alloc, &p.modules)?;
        let modes = safe_modes(alloc, &p.modules)?;
        let scalars = initial_scalars(alloc, &p.scalars)?;
        let locals = all_locals(alloc, &p.nodes)?;
        let points = Vec::from_slice(alloc, start)?;
        let next = Vec::from_slice(alloc, start)?;
        let answers = Answers::none(alloc, acc)?;
        let node_schedules = node_schedules(alloc, &p.nodes)?;
        let decision_schedules = decision_schedules(alloc, &p.modules)?;
        Ok(World {
            accepted: acc,
            roles,
            time: 0,
            left,
            left_dm,
            modes,
            scalars,
            locals,
            points,
            next,
            answers,
            node_schedules,
            decision_schedules,
        })
    }

    /// Does nothing, and tells the proof what the type keeps: the tables are in form, the
    /// certificate holds, and the configuration satisfies the invariant.
    pub fn reveal_invariant(&self)
        ensures { IsKept self.now.accepted self.now.at }
    {
        // A look at a field brings what the type keeps.
        let _time = self.time;
    }

    /// The program, which lives on where this value does not.
    pub fn typed(&self) -> &'a Typed
        ensures { result.now ≡ self.now.accepted.program }
    {
        self.accepted.typed()
    }

    /// The count of ticks so far, at most 100,000.
    pub fn time(&self) -> u32
        ensures value { result ≡ self.now.at.time }
        ensures horizon { result ≤ 100000 }
    {
        self.time
    }

    /// Which of a module's nodes is enabled now.
    pub fn mode(&self, module: u32) -> Mode
        requires { «module» < length self.now.accepted.program.modules }
        ensures { result ≡ mode_of self.now.at «module» }
    {
        self.modes[module as usize]
    }

    /// The point of a plant, with a coordinate for each of its state variables, in mantissas at
    /// their scales.
    pub fn state(&self, plant: u32) -> Point
        requires { plant < length self.now.accepted.program.plants }
        ensures { result ≡ point_of self.now.at plant }
    {
        self.points[plant as usize]
    }

    /// The present number of a scalar, a mantissa at its scale.
    pub fn scalar(&self, scalar: u32) -> i64
        requires { scalar < length self.now.accepted.program.scalars }
        ensures { result ≡ number_of self.now.at scalar }
    {
        self.scalars[scalar as usize]
    }

    /// The locals of a node, none for an external one.
    pub fn locals(&self, node: u32) -> Locals
        requires { node < length self.now.accepted.program.nodes }
        ensures { result ≡ locals_of self.now.at node }
    {
        self.locals[node as usize]
    }

    /// Whether a node is still to fire.
    pub fn left(&self, node: u32) -> bool
        requires { node < length self.now.accepted.program.nodes }
        ensures { result ≡ is_left self.now.at node }
    {
        self.left[node as usize]
    }

    /// Whether a module is still to decide.
    pub fn left_dm(&self, module: u32) -> bool
        requires { «module» < length self.now.accepted.program.modules }
        ensures { result ≡ is_left_dm self.now.at «module» }
    {
        self.left_dm[module as usize]
    }

    /// Whether an event can happen now, and else why not. `NotDue`: no due time of the node or
    /// decision is now or at most the certificate's jitter ago. `AlreadyFired`: there is one, and
    /// it has fired for it. `NodesLeft`: at a tick something that is left has its deadline now.
    /// `OutsideType`: a value or a disturbance is out of range; for a tick it is looked for last.
    /// The event names what is there and of the right sort, and its lists have the lengths of what
    /// they are for.
    pub fn can(&self, e: &Event<'_>) -> Result<(), Why>
        requires { Names self.now.accepted.program e.now }
        ensures { MatchResult result
            (λ _. IsPossible self.now.accepted.program self.now.accepted.cert.jitter self.now.at
            e.now)
            (λ why. Refuses self.now.accepted.program self.now.accepted.cert.jitter self.now.at
            e.now why) }
    {
        match *e {
            Event::Input { topic, value } => self.can_take(topic, value),
            Event::Code { node } => self.can_fire(node),
            Event::Guest { node, .. } => self.can_fire(node),
            Event::Decide { module } => self.can_decide(module),
            Event::Tick { noise } => self.can_tick(noise),
        }
    }

    fn can_take(&self, topic: u32, value: &[i64]) -> Result<(), Why>
        requires { (info : TopicInfo) × At self.now.accepted.program.topics topic info
            × (length value.now ≡ info.count) }
        ensures { MatchResult result
            (λ _. IsTypedInput self.now.accepted.program topic value.now)
            (λ why. RefusesInput self.now.accepted.program topic value.now why) }
    {
        let p = self.accepted.typed();
        let info = &p.topics[topic as usize];
        if is_in_type(&p.scalars, info.first as usize, value) {
            Ok(())
        } else {
            Err(Why::OutsideType)
        }
    }

    fn can_fire(&self, node: u32) -> Result<(), Why>
        requires { node < length self.now.accepted.program.nodes }
        ensures { MatchResult result
            (λ _. is_left self.now.at node ≡ true)
            (λ why. RefusesNode self.now.accepted.program self.now.accepted.cert.jitter self.now.at
            node why) }
    {
        if self.left[node as usize] {
            return Ok(());
        }
        let p = self.accepted.typed();
        let info = &p.nodes[node as usize];
        let jitter = self.accepted.cert().jitter;
        if due_within(jitter, info.period, info.offset, self.time) {
            Err(Why::AlreadyFired)
        } else {
            Err(Why::NotDue)
        }
    }

    fn can_decide(&self, module: u32) -> Result<(), Why>
        requires { «module» < length self.now.accepted.program.modules }
        ensures { MatchResult result
            (λ _. is_left_dm self.now.at «module» ≡ true)
            (λ why. RefusesDecision self.now.accepted.program self.now.accepted.cert.jitter
            self.now.at «module» why) }
    {
        if self.left_dm[module as usize] {
            return Ok(());
        }
        let p = self.accepted.typed();
        let info = &p.modules[module as usize];
        let jitter = self.accepted.cert().jitter;
        if due_within(jitter, info.period, info.offset, self.time) {
            Err(Why::AlreadyFired)
        } else {
            Err(Why::NotDue)
        }
    }

    /// Whether nothing that is left to fire or to decide has its deadline now.
    pub fn may_tick(&self) -> bool
        ensures { IsTrue result ↔ MayTick self.now.accepted.program self.now.accepted.cert.jitter
            self.now.at }
    {
        let p = self.accepted.typed();
        let jitter = self.accepted.cert().jitter;
        no_node_at_deadline(jitter, &p.nodes, &self.left, self.time)
            && no_decision_at_deadline(jitter, &p.modules, &self.left_dm, self.time)
    }

    fn can_tick(&self, noise: &[i64]) -> Result<(), Why>
        requires { length noise.now ≡ noise_count self.now.accepted.program.plants }
        ensures { MatchResult result
            (λ _. MayTick self.now.accepted.program self.now.accepted.cert.jitter self.now.at
            × IsInBounds self.now.accepted.program.plants noise.now)
            (λ why. RefusesTick self.now.accepted.program self.now.accepted.cert.jitter self.now.at
            noise.now why) }
    {
        if !self.may_tick() {
            return Err(Why::NodesLeft);
        }
        let p = self.accepted.typed();
        if is_in_bounds(&p.plants, noise) {
            Ok(())
        } else {
            Err(Why::OutsideType)
        }
    }
}
