//! The order in which the nodes that no guest flies fire in an instant: as declared.

ghost use Rattle.std.specs.Prelude.{◌≡◌, true};
ghost use Rattle.sot_ordered_board.specs.Turns.{FiresNext};

use crate::bells::Bells;
use sot_ordered_board::{OrderedBoard, next_to_fire};

/// Whether a node that no guest flies fires next.
pub(crate) fn is_next(board: &OrderedBoard<'_>, node: u32) -> bool
    ensures { result ≡ true → FiresNext board.now node }
{
    match next_to_fire(board) {
        Some(next) => next == node,
        None => false,
    }
}

/// Who goes on after a firing: the worker of the node that fires next, where that has a thread, and
/// else the caller.
#[derive(Clone, Copy, Debug, PartialEq, Eq)]
pub(crate) enum Follower {
    Worker(u32),
    Caller,
}

/// Who goes on after a firing.
pub(crate) fn who_follows(board: &OrderedBoard<'_>, bells: &Bells) -> Follower {
    match next_to_fire(board) {
        Some(node) => {
            if bells.is_out(node) {
                Follower::Worker(node)
            } else {
                Follower::Caller
            }
        }
        None => Follower::Caller,
    }
}

/// Rings for who goes on. The turn is given back before: who wakes wants it at once.
pub(crate) fn ring_for(bells: &Bells, follower: Follower) {
    match follower {
        Follower::Worker(node) => bells.ring_next(node),
        Follower::Caller => bells.ring_caller(),
    }
}
