//! What a flown history sent.

ghost use Rattle.std.specs.Prelude.{◌≡◌, ◌<◌, length, map, IfOk};
ghost use Rattle.sot_flight.specs.Relayed.{send_of};
ghost use Rattle.sot_bridge.specs.SendLaws.{sends_of};

use crate::history::sends;
use sot_board::Board;
use sot_flight::Sent;
use std::alloc::{AllocError, Global};

/// What has been sent on a topic by what has happened on a board so far, as [`sends`] lists it.
pub fn board_sends(alloc: Global, board: &Board<'_>, topic: u32) -> Result<Vec<Sent>, AllocError>
    requires { topic < length board.now.accepted.program.topics }
    ensures { IfOk result (λ v. map send_of v.items
        ≡ sends_of board.now.accepted.program topic board.now.entries) }
{
    board.reveal_invariant();
    sends(
        alloc,
        board.typed(),
        topic,
        board.flight().start(),
        board.history(),
    )
}
