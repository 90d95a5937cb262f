//! What a guard does in an instant, and what it makes of the next observations.

ghost use Rattle.std.specs.Prelude.{◌≡◌, ℕ, ◌<◌, length, true, false, List, None, take};
ghost use Rattle.std.specs.Prelude.{MatchOption};
ghost use Rattle.sot_lists.specs.Places.{At};
ghost use Rattle.sot_lang.specs.declared.act.Act.{Act};
ghost use Rattle.sot_lang.specs.declared.tables.TopicInfo.{TopicInfo};
ghost use Rattle.sot_lang.specs.declared.tables.NodeInfo.{NodeInfo};
ghost use Rattle.sot_lang.specs.TableRules.{IsCoded};
ghost use Rattle.sot_world.specs.Configurations.{is_left, is_left_dm, mode_of};
ghost use Rattle.sot_world.specs.Changes.{ArePoints};
ghost use Rattle.sot_world.specs.Calendar.{NothingLeft};
ghost use Rattle.sot_world.specs.Steps as steps;
ghost use Rattle.sot_world.specs.Events.{IsTypedInput, slot_count};
ghost use Rattle.sot_world.specs.Outcomes.{NodeFired};
ghost use Rattle.sot_world.specs.StepOutcomes.{IsFiring};
ghost use Rattle.sot_guard.specs.Changes.{DecidesWhere, FiresCode, MovesTo, GoesOn, Withdraws};
ghost use Rattle.sot_guard.specs.Changes.{Distrusts, AsksSafeNodes};
ghost use Rattle.sot_guard.specs.Guarding.{last_time};
ghost use Rattle.sot_guard.specs.HeldParts.{AnswersAt};
ghost use Rattle.sot_guard.specs.Resuming.{RegainsTrust, StaysUnsafe};

use super::Guard;
use crate::decide::mode_where;
use crate::due::{
    leave_decisions, leave_due_decisions, leave_due_nodes, leave_nodes, leave_safe_nodes,
};
use crate::enabled::is_enabled;
use crate::fire::run;
use crate::held::first_unheld;
use crate::outside::{Outside, outside_where};
use crate::put::{is_still, put_points, put_safe, put_safe_unless};
use sot_box::Point;
use sot_lang::Draft;
use sot_world::{Firing, Mode, first_slots, publish_if, write};

impl<'a> Guard<'a> {
    /// A value comes on an environment topic, with a number in range for each of its scalars.
    pub fn take(&mut self, topic: u32, value: &[i64])
        requires topic { (info : TopicInfo) × At self.old.accepted.program.topics topic info
            × (info.outside ≡ true) × (length value.now ≡ info.count) }
        requires typed { IsTypedInput self.old.accepted.program topic value.now }
        ensures step { steps.Inputs self.old.accepted.program topic value.now self.old.at
            self.new.at }
        ensures accepted { self.new.accepted ≡ self.old.accepted }
        ensures trusted { self.new.trusted ≡ self.old.trusted }
    {
        let p = self.accepted.typed();
        let first = p.topics[topic as usize].first as usize;
        write(first, value, &mut self.scalars);
    }

    /// A module, which is left to decide, does so, and answers its mode afterwards. It stays in
    /// mode Sc where the models are not trusted.
    pub fn decide(&mut self, module: u32) -> Mode
        requires there { «module» < length self.old.accepted.program.modules }
        requires left { is_left_dm self.old.at «module» ≡ true }
        ensures step { DecidesWhere self.old.trusted self.old.accepted.program
            self.old.accepted.cert.jitter «module» self.old.at self.new.at }
        ensures accepted { self.new.accepted ≡ self.old.accepted }
        ensures trusted { self.new.trusted ≡ self.old.trusted }
        ensures mode { result ≡ mode_of self.new.at «module» }
    {
        let p = self.accepted.typed();
        let jitter = self.accepted.cert().jitter;
        let plant = p.modules[module as usize].plant;
        let before = self.modes[module as usize];
        let point = &self.points[plant as usize];
        let mode = mode_where(self.trusted, p, jitter, module, before, point);
        self.modes[module as usize] = mode;
        self.left_dm[module as usize] = false;
        mode
    }

    /// A coded node, which is left, fires with what its body gives on the present numbers. A
    /// disabled node has new locals, and publishes nothing. Where the models are not trusted
    /// the body may trap, and then nothing is drafted.
    pub fn fire_code(&mut self, node: u32) -> Firing
        requires coded { (info : NodeInfo) × (acts : List Act)
            × At self.old.accepted.program.nodes node info × IsCoded info acts }
        requires left { is_left self.old.at node ≡ true }
        ensures fires { FiresCode self.old.accepted.program node self.old.at self.new.at result }
        ensures step { self.old.trusted ≡ true
            → steps.CodeFires self.old.accepted.program node self.old.at self.new.at }
        ensures accepted { self.new.accepted ≡ self.old.accepted }
        ensures trusted { self.new.trusted ≡ self.old.trusted }
    {
        let p = self.accepted.typed();
        let locals = &mut self.locals[node as usize];
        let draft = run(p, node, &self.scalars, &self.points, locals);
        let enabled = is_enabled(&p.modules, &self.modes, node);
        let writes = &p.nodes[node as usize].writes;
        publish_if(enabled, p, writes, &draft, &mut self.scalars);
        self.left[node as usize] = false;
        Firing { draft, enabled }
    }

    /// An external node, which is left, fires with a draft, of which its own slots alone count.
    pub fn fire_guest(&mut self, node: u32, draft: &Draft) -> Firing
        requires external { (info : NodeInfo) × At self.old.accepted.program.nodes node info
            × (info.body ≡ None) }
        requires left { is_left self.old.at node ≡ true }
        ensures step { steps.GuestFires self.old.accepted.program node
            (take (slot_count self.old.accepted.program node) draft.now) self.old.at self.new.at }
        ensures accepted { self.new.accepted ≡ self.old.accepted }
        ensures trusted { self.new.trusted ≡ self.old.trusted }
        ensures firing { IsFiring result (NodeFired
            (take (slot_count self.old.accepted.program node) draft.now)
            (steps.is_enabled self.old.accepted.program self.old.at node)) }
    {
        let p = self.accepted.typed();
        let writes = &p.nodes[node as usize].writes;
        let own = first_slots(draft, writes.len());
        let enabled = is_enabled(&p.modules, &self.modes, node);
        publish_if(enabled, p, writes, draft, &mut self.scalars);
        self.left[node as usize] = false;
        Firing {
            draft: own,
            enabled,
        }
    }

    /// The models are trusted no more: every module is in mode Sc until they are again. Nothing else
    /// changes.
    pub fn withdraw(&mut self)
        ensures { Distrusts self.old self.new }
    {
        put_safe(&mut self.modes);
        self.trusted = false;
    }

    /// Where the models are not trusted: the safe node of each module is left to fire, whether it
    /// is due or not.
    pub fn ask_safe_nodes(&mut self)
        requires { self.old.trusted ≡ false }
        ensures { AsksSafeNodes self.old self.new }
    {
        let p = self.accepted.typed();
        leave_safe_nodes(&p.modules, &mut self.left);
    }

    /// The safe nodes are asked where the trust has ended, and else nothing is done.
    pub(crate) fn ask_safe_nodes_if(&mut self, ended: bool)
        requires { ended ≡ true → self.old.trusted ≡ false }
        ensures asks { ended ≡ true → AsksSafeNodes self.old self.new }
        ensures same { ended ≡ false → self.new ≡ self.old }
    {
        if ended {
            self.ask_safe_nodes();
        }
    }

    /// Where the models are not trusted, and each plant is known to be at its point: with what is
    /// due left and nothing else, the first module whose plant the commands in force do not hold
    /// safe until its safe node fires, and nothing changes; or, where there is none, the models are
    /// trusted again.
    pub fn resume(&mut self) -> Option<u32>
        requires { self.old.trusted ≡ false }
        ensures { MatchOption result
            (RegainsTrust self.old self.new)
            (λ m. (self.new ≡ self.old) × StaysUnsafe self.old m) }
    {
        let p = self.accepted.typed();
        let jitter = self.accepted.cert().jitter;
        match first_unheld(p, jitter, self.time, &self.scalars, &self.points) {
            Some(module) => Some(module),
            None => {
                self.trust_again();
                None
            }
        }
    }

    // What is due is left, and the models are trusted.
    fn trust_again(&mut self)
        requires off { self.old.trusted ≡ false }
        requires held { (m : ℕ) → AnswersAt self.old.accepted.program self.old.accepted.cert.jitter
            self.old.at.time self.old.at.scalars self.old.at.points m true }
        ensures { RegainsTrust self.old self.new }
    {
        let p = self.accepted.typed();
        leave_due_nodes(&p.nodes, self.time, &mut self.left);
        leave_due_decisions(&p.modules, self.time, &mut self.left_dm);
        self.trusted = true;
    }

    /// After a tick, at which nothing was left, each plant is observed at a point. Where the models
    /// were trusted so far, each point is tested against the least box of its plant's next state;
    /// the first state variable outside is told, and ends the trust: every module is in mode Sc.
    pub fn observe(&mut self, next: &[Point]) -> Option<Outside>
        requires points { ArePoints self.old.accepted.program next.now }
        requires settled { NothingLeft self.old.accepted.program self.old.at }
        requires time { self.old.at.time < last_time }
        ensures moves { MovesTo self.old.accepted.program next.now self.old.at self.new.at }
        ensures accepted { self.new.accepted ≡ self.old.accepted }
        ensures told { MatchOption result
            (GoesOn self.old self.new)
            (λ o. Withdraws self.old self.new next.now o) }
    {
        let p = self.accepted.typed();
        let outside = outside_where(self.trusted, p, &self.scalars, &self.points, next);
        put_points(next, &mut self.points);
        self.time += 1;
        leave_nodes(&p.nodes, self.time, &mut self.left);
        leave_decisions(&p.modules, self.time, &mut self.left_dm);
        let inside = outside.is_none();
        self.trusted = is_still(self.trusted, inside);
        put_safe_unless(inside, &mut self.modes);
        outside
    }
}
