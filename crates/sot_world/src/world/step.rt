//! The steps of a world. Each changes what the event touches, and no step meets a trap: the
//! invariant that the type keeps rules it out.

ghost use Rattle.std.specs.Prelude.{◌≡◌, ℕ, ◌<◌, length, true, None, List, take};
ghost use Rattle.sot_lists.specs.Places.{At};
ghost use Rattle.sot_lang.specs.declared.act.Act.{Act};
ghost use Rattle.sot_lang.specs.declared.tables.TopicInfo.{TopicInfo};
ghost use Rattle.sot_lang.specs.declared.tables.NodeInfo.{NodeInfo};
ghost use Rattle.sot_lang.specs.TableRules.{IsCoded};
ghost use Rattle.sot_world.specs.Configurations.{is_left, is_left_dm, mode_of, locals_of};
ghost use Rattle.sot_world.specs.Changes.{IsRun};
ghost use Rattle.sot_world.specs.Steps as steps;
ghost use Rattle.sot_world.specs.declared.outcome.Outcome.TheVariants.{Fired as HasFired};
ghost use Rattle.sot_world.specs.Events.{Names, IsPossible, IsTypedInput, IsInBounds, event_of};
ghost use Rattle.sot_world.specs.Events.{noise_count, cut, slot_count};
ghost use Rattle.sot_world.specs.Outcomes.{Recorded, RecordsCode, NodeFired};
ghost use Rattle.sot_world.specs.StepOutcomes.{IsInTime, IsOutcome, IsFiring};

use super::World;
use crate::decide::next_mode;
use crate::event::Event;
use crate::fire::{enables, first_slots, publish_if, seen_by};
use crate::input::write;
use crate::mode::Mode;
use crate::outcome::{Firing, Outcome};
use crate::schedule::leave;
use crate::tick::move_all;
use sot_code::{Fired, run_node_over};
use sot_lang::Draft;
use std::mem::swap;

// What `step` tells of a firing.
fn outcome_of(firing: Firing) -> Outcome
    ensures { result ≡ HasFired firing.draft firing.enabled }
{
    Outcome::Fired {
        draft: firing.draft,
        enabled: firing.enabled,
    }
}

impl<'a> World<'a> {
    /// Goes to the next configuration by an event that can happen now, and tells what is recorded
    /// of it. Of a firing this is the draft, numbers that are refused included, and whether the
    /// node is enabled; of a decision the mode afterwards. A disabled node has new locals and
    /// publishes nothing. Times are in ticks, at most 100,000.
    pub fn step(&mut self, e: &Event<'_>) -> Outcome
        requires names { Names self.old.accepted.program e.now }
        requires possible { IsPossible self.old.accepted.program self.old.accepted.cert.jitter
            self.old.at e.now }
        requires time { IsInTime self.old.at e.now }
        ensures step { steps.Step self.old.accepted.program self.old.accepted.cert.jitter
            self.old.at (event_of self.old.accepted.program e.now) self.new.at }
        ensures accepted { self.new.accepted ≡ self.old.accepted }
        ensures outcome { IsOutcome self.old.accepted.program self.old.at e.now self.new.at result }
    {
        match e {
            Event::Input { topic, value } => {
                self.take(*topic, value);
                Outcome::Input
            }
            Event::Code { node } => outcome_of(self.fire_code(*node)),
            Event::Guest { node, draft } => outcome_of(self.fire_guest(*node, draft)),
            Event::Decide { module } => Outcome::Decided {
                mode: self.decide(*module),
            },
            Event::Tick { noise } => {
                self.tick(noise);
                Outcome::Ticked
            }
        }
    }

    /// A value comes on an environment topic, with a number in range for each of its scalars.
    pub fn take(&mut self, topic: u32, value: &[i64])
        requires topic { (info : TopicInfo) × At self.old.accepted.program.topics topic info
            × (info.outside ≡ true) × (length value.now ≡ info.count) }
        requires typed { IsTypedInput self.old.accepted.program topic value.now }
        ensures step { steps.Inputs self.old.accepted.program topic value.now self.old.at
            self.new.at }
        ensures accepted { self.new.accepted ≡ self.old.accepted }
    {
        let p = self.accepted.typed();
        let first = p.topics[topic as usize].first as usize;
        write(first, value, &mut self.scalars);
    }

    /// A module, which is left to decide, does so, and answers its mode afterwards.
    pub fn decide(&mut self, module: u32) -> Mode
        requires there { «module» < length self.old.accepted.program.modules }
        requires left { is_left_dm self.old.at «module» ≡ true }
        ensures step { steps.Decides self.old.accepted.program self.old.accepted.cert.jitter
            «module» self.old.at self.new.at }
        ensures accepted { self.new.accepted ≡ self.old.accepted }
        ensures mode { result ≡ mode_of self.new.at «module» }
    {
        let p = self.accepted.typed();
        let plant = p.modules[module as usize].plant;
        let before = self.modes[module as usize];
        let point = &self.points[plant as usize];
        let mode = next_mode(&mut self.answers, module, before, point);
        self.modes[module as usize] = mode;
        self.left_dm[module as usize] = false;
        mode
    }

    /// A coded node, which is left, fires with what its body gives on the present numbers. A
    /// disabled node has new locals, and publishes nothing.
    pub fn fire_code(&mut self, node: u32) -> Firing
        requires coded { (info : NodeInfo) × (acts : List Act)
            × At self.old.accepted.program.nodes node info × IsCoded info acts }
        requires left { is_left self.old.at node ≡ true }
        ensures step { steps.CodeFires self.old.accepted.program node self.old.at self.new.at }
        ensures accepted { self.new.accepted ≡ self.old.accepted }
        ensures firing { (r : Recorded) × RecordsCode self.old.accepted.program node self.old.at r
            × IsFiring result r }
    {
        let p = self.accepted.typed();
        // The locals are changed where they stand, since what a body gives is large and would be
        // copied.
        let locals = &mut self.locals[node as usize];
        let seen = seen_by(p, node, &self.scalars, &self.points);
        let mut draft = Draft::blank();
        if run_node_over(p, node, &seen, locals, &mut draft).is_err() {
            unreachable!();
        }
        let enabled = enables(self.roles[node as usize], &self.modes);
        let writes = &p.nodes[node as usize].writes;
        publish_if(enabled, p, writes, &draft, &mut self.scalars);
        self.left[node as usize] = false;
        Firing { draft, enabled }
    }

    /// A coded node, which is left, fires with what its body gives on the present numbers and its
    /// locals, which the caller has computed.
    pub fn commit(&mut self, node: u32, fired: &Fired) -> Firing
        requires coded { (info : NodeInfo) × (acts : List Act)
            × At self.old.accepted.program.nodes node info × IsCoded info acts }
        requires left { is_left self.old.at node ≡ true }
        requires run { IsRun self.old.accepted.program node self.old.at.scalars self.old.at.points
            (locals_of self.old.at node) fired.now }
        ensures step { steps.CodeFires self.old.accepted.program node self.old.at self.new.at }
        ensures accepted { self.new.accepted ≡ self.old.accepted }
        ensures firing { (r : Recorded) × RecordsCode self.old.accepted.program node self.old.at r
            × IsFiring result r }
    {
        let p = self.accepted.typed();
        let enabled = enables(self.roles[node as usize], &self.modes);
        let writes = &p.nodes[node as usize].writes;
        publish_if(enabled, p, writes, &fired.draft, &mut self.scalars);
        self.locals[node as usize] = fired.locals;
        self.left[node as usize] = false;
        Firing {
            draft: fired.draft,
            enabled,
        }
    }

    /// An external node, which is left, fires with a draft, of which its own slots alone are
    /// recorded.
    pub fn fire_guest(&mut self, node: u32, draft: &Draft) -> Firing
        requires external { (info : NodeInfo) × At self.old.accepted.program.nodes node info
            × (info.body ≡ None) }
        requires left { is_left self.old.at node ≡ true }
        ensures step { steps.GuestFires self.old.accepted.program node
            (take (slot_count self.old.accepted.program node) draft.now) self.old.at self.new.at }
        ensures accepted { self.new.accepted ≡ self.old.accepted }
        ensures firing { IsFiring result (NodeFired
            (take (slot_count self.old.accepted.program node) draft.now)
            (steps.is_enabled self.old.accepted.program self.old.at node)) }
    {
        let p = self.accepted.typed();
        let writes = &p.nodes[node as usize].writes;
        let own = first_slots(draft, writes.len());
        let enabled = enables(self.roles[node as usize], &self.modes);
        publish_if(enabled, p, writes, draft, &mut self.scalars);
        self.left[node as usize] = false;
        Firing {
            draft: own,
            enabled,
        }
    }

    /// All plants tick, where nothing that is left has its deadline now and the time is below
    /// 100,000. The disturbances of all plants, one plant after another, are in their bounds.
    // The next points are all computed before one takes the place of an old one.
    pub fn tick(&mut self, noise: &[i64])
        requires noise { length noise.now ≡ noise_count self.old.accepted.program.plants }
        requires may { steps.MayTick self.old.accepted.program self.old.accepted.cert.jitter
            self.old.at }
        requires bounded { IsInBounds self.old.accepted.program.plants noise.now }
        requires time { self.old.at.time < 100000 }
        ensures step { steps.Ticks self.old.accepted.program self.old.accepted.cert.jitter
            (cut self.old.accepted.program.plants noise.now) self.old.at self.new.at }
        ensures accepted { self.new.accepted ≡ self.old.accepted }
    {
        let p = self.accepted.typed();
        move_all(p, &self.scalars, &self.points, noise, &mut self.next);
        swap(&mut self.points, &mut self.next);
        self.time += 1;
        leave(self.time, &mut self.node_schedules, &mut self.left);
        leave(self.time, &mut self.decision_schedules, &mut self.left_dm);
    }
}
