//! The calls that change a board. Each goes on by one event, and appends the one entry that tells
//! of it.

ghost use Rattle.std.specs.Prelude.{◌≡◌, ℕ, ◌<◌, true, None, List, Option, ℤ, length, take};
ghost use Rattle.sot_lists.specs.Places.{At};
ghost use Rattle.sot_lang.specs.declared.act.Act.{Act};
ghost use Rattle.sot_lang.specs.declared.tables.NodeInfo.{NodeInfo};
ghost use Rattle.sot_lang.specs.TableRules.{IsCoded};
ghost use Rattle.sot_world.specs.Configurations.{is_left, is_left_dm};
ghost use Rattle.sot_world.specs.Events.{slot_count};
ghost use Rattle.sot_world.specs.HistoryEntry.{Logged, DecideAt};
ghost use Rattle.sot_world.specs.Steps as steps;
ghost use Rattle.sot_flight.specs.Plans as plans;
ghost use Rattle.sot_flight.specs.Stated.{stated_noise};
ghost use Rattle.sot_board.specs.Flown.{IsStated};
ghost use Rattle.sot_board.specs.Calls.{InputDue, MayTickNow, Logs, LogsInput, LogsFiring};

use super::Board;
use crate::receipt::Receipt;
use crate::record::note_firing;
use crate::states::put_states;
use crate::versions::count_one;
use sot_lang::Draft;
use sot_world::{Entry, Mode};

impl<'a> Board<'a> {
    /// The flight's next input comes.
    pub fn input(&mut self)
        requires { InputDue self.old.position }
        ensures { LogsInput self.old self.new }
    {
        let flight = self.flight;
        let given = flight.input(self.next_input);
        let time = self.world.time();
        self.world.take(given.topic, given.value);
        count_one(given.topic, &mut self.versions);
        self.next_input += 1;
        self.history.push(&Entry::Input {
            time,
            topic: given.topic,
            value: given.value,
        });
    }

    /// A module decides. It answers the mode afterwards.
    pub fn decide(&mut self, module: u32) -> Mode
        requires there { «module» < length self.old.accepted.program.modules }
        requires left { is_left_dm self.old.position.at «module» ≡ true }
        ensures { Logs self.old self.new (steps.Decide «module»)
            (DecideAt self.old.position.at.time «module» result) }
    {
        let time = self.world.time();
        let mode = self.world.decide(module);
        self.history.push(&Entry::Decide { time, module, mode });
        mode
    }

    /// A coded node fires with what its body gives on the present numbers.
    pub fn fire(&mut self, node: u32) -> Receipt
        requires coded { (info : NodeInfo) × (acts : List Act)
            × At self.old.accepted.program.nodes node info × IsCoded info acts }
        requires left { is_left self.old.position.at node ≡ true }
        ensures { LogsFiring self.old self.new node (steps.Code node) result }
    {
        let p = self.world.typed();
        let time = self.world.time();
        let firing = self.world.fire_code(node);
        note_firing(
            p,
            time,
            node,
            &firing,
            &mut self.versions,
            &mut self.fired,
            &mut self.history,
        )
    }

    // A node that is not coded fires with a draft.
    fn fire_guest(&mut self, node: u32, draft: Draft) -> Receipt
        requires external { (info : NodeInfo) × At self.old.accepted.program.nodes node info
            × (info.body ≡ None) }
        requires stated { IsStated self.old.accepted.program self.old.plan self.old.position
            (steps.Guest node (take (slot_count self.old.accepted.program node) draft)) }
        requires left { is_left self.old.position.at node ≡ true }
        ensures { LogsFiring self.old self.new node
            (steps.Guest node (take (slot_count self.old.accepted.program node) draft)) result }
    {
        let p = self.world.typed();
        let time = self.world.time();
        let firing = self.world.fire_guest(node, &draft);
        note_firing(
            p,
            time,
            node,
            &firing,
            &mut self.versions,
            &mut self.fired,
            &mut self.history,
        )
    }

    /// A node that a guest flies fires with the guest's draft, of which the slots of the scalars
    /// that the node writes count.
    pub fn commit_guest(&mut self, node: u32, draft: Draft) -> Receipt
        requires guest { (i : ℕ) × At self.old.plan.crews node (plans.Guest i) }
        requires left { is_left self.old.position.at node ≡ true }
        ensures { LogsFiring self.old self.new node
            (steps.Guest node (take (slot_count self.old.accepted.program node) draft)) result }
    {
        // A look at a field brings what the type keeps.
        let _world = &self.world;
        self.fire_guest(node, draft)
    }

    /// A node that is not coded and that no guest flies fires with the draft that the flight states
    /// for this firing.
    pub fn commit_stated(&mut self, node: u32) -> Receipt
        requires external { (info : NodeInfo) × At self.old.accepted.program.nodes node info
            × (info.body ≡ None) }
        requires no_guest { (i : ℕ) → At self.old.plan.crews node (plans.Guest i) → ⊥ }
        requires left { is_left self.old.position.at node ≡ true }
        ensures { (draft : List (Option ℤ))
            × LogsFiring self.old self.new node (steps.Guest node draft) result }
    {
        let p = self.world.typed();
        let firing = self.fired[node as usize];
        let draft = self.flight.stated(p, node, firing).unwrap();
        self.fire_guest(node, draft)
    }

    /// All plants tick, with the disturbances that the flight states.
    pub fn tick(&mut self)
        requires may { MayTickNow self.old.accepted.program self.old.accepted.cert.jitter
            self.old.position }
        requires time { self.old.position.at.time < self.old.plan.horizon }
        ensures { (entry : Logged) × Logs self.old self.new
            (steps.Tick (stated_noise self.old.accepted.program self.old.plan
            self.old.position.at.time)) entry }
    {
        let p = self.world.typed();
        let time = self.world.time();
        self.flight.disturb(p, time, &mut self.noise);
        self.world.tick(&self.noise);
        put_states(&self.world, p.plants.len() as u32, &mut self.states);
        self.history.push(&Entry::Tick {
            time,
            noise: &self.noise,
            states: &self.states,
        });
    }
}
