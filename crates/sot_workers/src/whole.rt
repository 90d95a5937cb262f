//! A whole flight.

ghost use Rattle.std.specs.Prelude.{◌≡◌};
ghost use Rattle.sot_turn.specs.Prefixes.{IsPrefix};
ghost use Rattle.sot_board.specs.Flown.{FlownBy};
ghost use Rattle.sot_ordered_board.specs.Crews.{HasNoGuests};
ghost use Rattle.sot_ordered_board.specs.Order.{FliesInOrder};

use crate::instant::finish_instant;
use sot_ordered_board::OrderedBoard;

/// Flies a board to the end of its flight: the horizon, with nothing left to fire or to input. No
/// guest flies a node. It takes no memory. In each instant the inputs come first, then the modules
/// decide, and then the nodes fire, each in declared order and all as soon as they are due; then
/// comes the tick.
pub fn fly_alone(board: &mut OrderedBoard<'_>)
    requires no_guests { HasNoGuests board.old.plan }
    ensures flown { FlownBy board.new.accepted.program board.new.accepted.cert.jitter board.new.plan
        board.new.entries }
    ensures accepted { board.new.accepted ≡ board.old.accepted }
    ensures plan { board.new.plan ≡ board.old.plan }
    ensures goes_on { IsPrefix board.old.entries board.new.entries }
    ensures order { FliesInOrder board.new.accepted.program board.new.accepted.cert.jitter
        board.new.plan board.new.entries }
{
    let horizon = board.flight().horizon();
    'ticks: while board.time() < horizon {
        finish_instant(board);
        board.reveal_invariant();
        board.tick();
    }
    finish_instant(board);
    board.reveal_invariant();
    board.reveal_order();
}
