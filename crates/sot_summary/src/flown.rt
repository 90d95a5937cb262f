//! The summary of what was flown.

ghost use Rattle.std.specs.Prelude.{◌≡◌};
ghost use Rattle.sot_summary.specs.Summaries.{summary_of};

use crate::count::count_entries;
use crate::summary::Summary;
use sot_board::Board;

/// The summary of what has happened on a board so far. It takes no memory.
pub fn board_summary(board: &Board<'_>) -> Summary
    ensures { result ≡ summary_of board.now.accepted.program board.now.plan board.now.entries }
{
    board.reveal_invariant();
    let p = board.typed();
    let counts = count_entries(p, board.history());
    Summary {
        modules: p.modules.len(),
        nodes: p.nodes.len(),
        horizon: board.flight().horizon(),
        firings: counts.firings,
        ticks: counts.ticks,
        refused: counts.refused,
        outside: counts.outside,
        sum: counts.sum,
    }
}
