//! Whose turn it is.

ghost use Rattle.std.specs.Prelude.{◌≡◌, ◌<◌, ◌↔◌, ℕ, true, length, IsTrue, IfSome, IfNone};
ghost use Rattle.sot_world.specs.Configurations.{is_left};
ghost use Rattle.sot_ordered_board.specs.Crews.{IsOwn};
ghost use Rattle.sot_ordered_board.specs.Order.{HaveDecided, HaveFired};
ghost use Rattle.sot_ordered_board.specs.Turns.{FiresNext};

use crate::ordered::OrderedBoard;

// Whether no module is left to decide.
fn have_decided(board: &OrderedBoard<'_>, modules: u32) -> bool
    requires { modules ≡ length board.now.accepted.program.modules }
    ensures { IsTrue result
        ↔ HaveDecided board.now.position (length board.now.accepted.program.modules) }
{
    for module in 0..modules {
        if board.left_dm(module) {
            return false;
        }
    }
    true
}

// Whether a node is left that no guest flies.
fn is_own_left(board: &OrderedBoard<'_>, node: u32) -> bool
    requires { node < length board.now.accepted.program.nodes }
    ensures { IsTrue result
        ↔ ((is_left board.now.position.at node ≡ true) × IsOwn board.now.plan node) }
{
    board.reveal_invariant();
    board.left(node) && board.flight().guest(node).is_none()
}

// The first node that is left and that no guest flies.
fn first_own_left(board: &OrderedBoard<'_>, nodes: u32) -> Option<u32>
    requires { nodes ≡ length board.now.accepted.program.nodes }
    ensures there { IfSome result (λ n. n < length board.now.accepted.program.nodes) }
    ensures left { IfSome result (λ n. is_left board.now.position.at n ≡ true) }
    ensures own { IfSome result (λ n. IsOwn board.now.plan n) }
    ensures first { IfSome result (λ n. HaveFired board.now.plan board.now.position n) }
    ensures none { IfNone result (HaveFired board.now.plan board.now.position
        (length board.now.accepted.program.nodes)) }
{
    for node in 0..nodes {
        if is_own_left(board, node) {
            return Some(node);
        }
    }
    None
}

/// The node that fires next: of those that are left and that no guest flies the first one. None
/// before all inputs that are due have come and all modules have decided.
pub fn next_to_fire(board: &OrderedBoard<'_>) -> Option<u32>
    ensures some { IfSome result (FiresNext board.now) }
    ensures none { IfNone result ((n : ℕ) → FiresNext board.now n → ⊥) }
{
    let p = board.typed();
    board.reveal_invariant();
    if board.due_input() || !have_decided(board, p.modules.len() as u32) {
        return None;
    }
    first_own_left(board, p.nodes.len() as u32)
}
