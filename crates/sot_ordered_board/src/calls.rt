//! The calls that change a board in order: each is the board's own, where its event may come next.

ghost use Rattle.std.specs.Prelude.{◌≡◌, ◌<◌, ℕ, ℤ, true, None, List, Option, length, take};
ghost use Rattle.sot_lists.specs.Places.{At};
ghost use Rattle.sot_lang.specs.declared.act.Act.{Act};
ghost use Rattle.sot_lang.specs.declared.tables.NodeInfo.{NodeInfo};
ghost use Rattle.sot_lang.specs.TableRules.{IsCoded};
ghost use Rattle.sot_world.specs.Configurations.{is_left, is_left_dm};
ghost use Rattle.sot_world.specs.Events.{slot_count};
ghost use Rattle.sot_world.specs.HistoryEntry.{Logged, DecideAt};
ghost use Rattle.sot_world.specs.Steps as steps;
ghost use Rattle.sot_flight.specs.Plans as plans;
ghost use Rattle.sot_flight.specs.Stated.{stated_noise};
ghost use Rattle.sot_board.specs.Flown.{NoInputDue};
ghost use Rattle.sot_board.specs.Calls.{InputDue, MayTickNow, Logs, LogsInput, LogsFiring};
ghost use Rattle.sot_board.specs.Views.{IsView, viewed_node};
ghost use Rattle.sot_board.specs.Commits.{IsTakenFrom, IsCurrent, IsRunOn, MatchCommit};
ghost use Rattle.sot_ordered_board.specs.Order.{HaveDecided, HasTurn};

use crate::ordered::OrderedBoard;
use sot_board::{Commit, Receipt, View};
use sot_code::Fired;
use sot_lang::Draft;
use sot_world::Mode;

impl<'a> OrderedBoard<'a> {
    /// The flight's next input comes.
    pub fn input(&mut self)
        requires { InputDue self.old.position }
        ensures { LogsInput self.old self.new }
    {
        self.board.input();
    }

    /// A module decides, once all inputs that are due have come and the modules before it have
    /// decided. It answers the mode afterwards.
    pub fn decide(&mut self, module: u32) -> Mode
        requires there { «module» < length self.old.accepted.program.modules }
        requires left { is_left_dm self.old.position.at «module» ≡ true }
        requires inputs { NoInputDue self.old.position }
        requires before { HaveDecided self.old.position «module» }
        ensures { Logs self.old self.new (steps.Decide «module»)
            (DecideAt self.old.position.at.time «module» result) }
    {
        self.board.decide(module)
    }

    /// A coded node, whose turn it is, fires with what its body gives on the present numbers.
    pub fn fire(&mut self, node: u32) -> Receipt
        requires coded { (info : NodeInfo) × (acts : List Act)
            × At self.old.accepted.program.nodes node info × IsCoded info acts }
        requires left { is_left self.old.position.at node ≡ true }
        requires turn { HasTurn self.old.accepted.program self.old.plan self.old.position node }
        ensures { LogsFiring self.old self.new node (steps.Code node) result }
    {
        self.board.fire(node)
    }

    /// A node that a guest flies fires with the guest's draft, as soon as there is one.
    pub fn commit_guest(&mut self, node: u32, draft: Draft) -> Receipt
        requires guest { (i : ℕ) × At self.old.plan.crews node (plans.Guest i) }
        requires left { is_left self.old.position.at node ≡ true }
        ensures { LogsFiring self.old self.new node
            (steps.Guest node (take (slot_count self.old.accepted.program node) draft)) result }
    {
        self.board.commit_guest(node, draft)
    }

    /// A node that is not coded and that no guest flies, whose turn it is, fires with the draft
    /// that the flight states for this firing.
    pub fn commit_stated(&mut self, node: u32) -> Receipt
        requires external { (info : NodeInfo) × At self.old.accepted.program.nodes node info
            × (info.body ≡ None) }
        requires no_guest { (i : ℕ) → At self.old.plan.crews node (plans.Guest i) → ⊥ }
        requires left { is_left self.old.position.at node ≡ true }
        requires turn { HasTurn self.old.accepted.program self.old.plan self.old.position node }
        ensures { (draft : List (Option ℤ))
            × LogsFiring self.old self.new node (steps.Guest node draft) result }
    {
        self.board.commit_stated(node)
    }

    /// The node of a view, which is coded and whose turn it is, fires with what its code gives on
    /// the view, as [`sot_board::Board::commit_code`] says.
    pub fn commit_code(&mut self, view: View, fired: &Fired) -> Commit
        requires coded { (info : NodeInfo) × (acts : List Act)
            × At self.old.accepted.program.nodes (viewed_node view) info × IsCoded info acts }
        requires left { is_left self.old.position.at (viewed_node view) ≡ true }
        requires turn { HasTurn self.old.accepted.program self.old.plan self.old.position
            (viewed_node view) }
        requires taken { IsTakenFrom self.old view }
        requires ran { IsRunOn self.old.accepted.program view fired.now }
        ensures { MatchCommit result
            (λ receipt. IsCurrent self.old view
            × LogsFiring self.old self.new (viewed_node view) (steps.Code (viewed_node view))
            receipt)
            (λ again. (IsCurrent self.old view → ⊥) × (self.new ≡ self.old)
            × IsView self.old.accepted.program self.old.entries self.old.position
            (viewed_node view) again) }
    {
        self.board.commit_code(view, fired)
    }

    /// All plants tick, with the disturbances that the flight states, once it is the tick's turn.
    pub fn tick(&mut self)
        requires may { MayTickNow self.old.accepted.program self.old.accepted.cert.jitter
            self.old.position }
        requires time { self.old.position.at.time < self.old.plan.horizon }
        requires turn { HasTurn self.old.accepted.program self.old.plan self.old.position
            (length self.old.accepted.program.nodes) }
        ensures { (entry : Logged) × Logs self.old self.new
            (steps.Tick (stated_noise self.old.accepted.program self.old.plan
            self.old.position.at.time)) entry }
    {
        self.board.tick();
    }
}
