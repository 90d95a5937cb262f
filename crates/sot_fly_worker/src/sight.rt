//! What a worker sees of its node, while it has the turn.

ghost use Rattle.std.specs.Prelude.{◌≡◌, ◌<◌, true, false, length};
ghost use Rattle.sot_world.specs.Configurations.{is_left};
ghost use Rattle.sot_board.specs.Flown.{IsEnd};
ghost use Rattle.sot_board.specs.Standing.{IsStanding};
ghost use Rattle.sot_world.specs.NodeSorts.{IsCodedNode, IsExternalNode};
ghost use Rattle.sot_fly_worker.specs.Holds.{IsDueView, MatchSight};

use sot_board::View;
use sot_lang::Typed;
use sot_ordered_board::OrderedBoard;
use sot_world::is_coded;

/// The flight is at its end; the node is not due; it is due and its draft is stated; its code is to
/// run on this view; or its guest is to be asked with it.
#[derive(Clone, Copy)]
pub enum Sight<'a> {
    Ended,
    Idle,
    Stated,
    Runs(&'a Typed, View),
    Asks(View),
}

/// What there is to do for a node, which a guest flies or not.
pub(crate) fn see<'a>(board: &OrderedBoard<'a>, node: u32, guest: bool) -> Sight<'a>
    requires { node < length board.now.accepted.program.nodes }
    ensures standing { IsStanding board.now }
    ensures sight { MatchSight result
        (IsEnd board.now.accepted.program board.now.plan board.now.position)
        ((is_left board.now.position.at node ≡ false)
        × (IsEnd board.now.accepted.program board.now.plan board.now.position → ⊥))
        ((guest ≡ false) × (is_left board.now.position.at node ≡ true)
        × IsExternalNode board.now.accepted.program node)
        (λ p view. (guest ≡ false) × (p ≡ board.now.accepted.program)
        × IsCodedNode board.now.accepted.program node × IsDueView board.now node view)
        (λ view. (guest ≡ true) × IsDueView board.now node view) }
{
    board.reveal_invariant();
    if board.finished() {
        return Sight::Ended;
    }
    if !board.left(node) {
        return Sight::Idle;
    }
    if guest {
        return Sight::Asks(board.view(node));
    }
    let p = board.typed();
    if is_coded(p, node) {
        Sight::Runs(p, board.view(node))
    } else {
        Sight::Stated
    }
}
