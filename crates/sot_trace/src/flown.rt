//! The text of a flown history.

ghost use Rattle.sot_trace.specs.Traces.{trace_text};

use crate::text::put_trace;
use sot_board::Board;
use sot_text_output::Out;

/// The text of what has happened on a board so far, from the start of its flight.
pub fn put_board<O: Out>(out: &mut O, board: &Board<'_>)
    ensures { O.puts out.old out.new
        (trace_text board.now.accepted.program board.now.plan.start board.now.entries) }
{
    board.reveal_invariant();
    put_trace(out, board.typed(), board.flight().start(), board.history())
}
