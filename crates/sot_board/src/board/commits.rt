//! Commits of what a node's code gave on a view.

ghost use Rattle.std.specs.Prelude.{◌≡◌, ◌<◌, true, List, length, IsTrue, ◌↔◌};
ghost use Rattle.sot_lists.specs.Places.{At};
ghost use Rattle.sot_lang.specs.declared.act.Act.{Act};
ghost use Rattle.sot_lang.specs.declared.tables.NodeInfo.{NodeInfo};
ghost use Rattle.sot_lang.specs.TableRules.{IsCoded};
ghost use Rattle.sot_world.specs.Configurations.{is_left, locals_of};
ghost use Rattle.sot_world.specs.Changes.{IsRun};
ghost use Rattle.sot_world.specs.Steps as steps;
ghost use Rattle.sot_board.specs.Calls.{LogsFiring};
ghost use Rattle.sot_board.specs.Views.{IsView, viewed_node};
ghost use Rattle.sot_board.specs.Commits.{IsTakenFrom, IsCurrent, IsRunOn, MatchCommit};

use super::Board;
use crate::commit::Commit;
use crate::receipt::Receipt;
use crate::record::note_firing;
use crate::view::View;
use sot_code::Fired;

impl<'a> Board<'a> {
    // Whether a view has the present time, and the present versions of the topics that its node
    // reads.
    fn is_current(&self, view: &View) -> bool
        requires { viewed_node view.now < length self.now.accepted.program.nodes }
        ensures { IsTrue result ↔ IsCurrent self.now view.now }
    {
        let now = self.view(view.node);
        view.time == now.time && view.has_versions_of(&now)
    }

    // A coded node fires with what its body gives on the present numbers.
    fn commit_run(&mut self, node: u32, fired: &Fired) -> Receipt
        requires coded { (info : NodeInfo) × (acts : List Act)
            × At self.old.accepted.program.nodes node info × IsCoded info acts }
        requires left { is_left self.old.position.at node ≡ true }
        requires run { IsRun self.old.accepted.program node self.old.position.at.scalars
            self.old.position.at.points (locals_of self.old.position.at node) fired.now }
        ensures { LogsFiring self.old self.new node (steps.Code node) result }
    {
        let p = self.world.typed();
        let time = self.world.time();
        let firing = self.world.commit(node, fired);
        note_firing(
            p,
            time,
            node,
            &firing,
            &mut self.versions,
            &mut self.fired,
            &mut self.history,
        )
    }

    /// The node of a view, which is coded and still to fire, fires with what its code gives on the
    /// view. `Again`, with the view of now, comes exactly where time went on or the version of a
    /// topic that the node reads differs from the view's; it changes nothing. The view was taken of
    /// this board, at any length of its history so far.
    pub fn commit_code(&mut self, view: View, fired: &Fired) -> Commit
        requires coded { (info : NodeInfo) × (acts : List Act)
            × At self.old.accepted.program.nodes (viewed_node view) info × IsCoded info acts }
        requires left { is_left self.old.position.at (viewed_node view) ≡ true }
        requires taken { IsTakenFrom self.old view }
        requires ran { IsRunOn self.old.accepted.program view fired.now }
        ensures { MatchCommit result
            (λ receipt. IsCurrent self.old view
            × LogsFiring self.old self.new (viewed_node view) (steps.Code (viewed_node view))
            receipt)
            (λ again. (IsCurrent self.old view → ⊥) × (self.new ≡ self.old)
            × IsView self.old.accepted.program self.old.entries self.old.position
            (viewed_node view) again) }
    {
        // A look at a field brings what the type keeps.
        let _world = &self.world;
        if !self.is_current(&view) {
            return Commit::Again(self.view(view.node));
        }
        Commit::Done(self.commit_run(view.node, fired))
    }
}
