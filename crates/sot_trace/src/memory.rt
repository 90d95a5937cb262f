//! Lines of traces, and whole traces, in memory.

ghost use Rattle.std.specs.Prelude.{◌≡◌, ◌++◌, [], OnOk, IfOk};
ghost use Rattle.std.specs.String.{string_bytes};
ghost use Rattle.sot_world.specs.Opens.{AreStarts};
ghost use Rattle.sot_trace.specs.Lines.{start_line, end_line};
ghost use Rattle.sot_trace.specs.Traces.{trace_text};
ghost use Rattle.sot_trace.specs.Fitting.{FitsHistory};

use crate::flown::put_board;
use crate::start::put_plant_start;
use crate::text::{put_counts, put_trace};
use sot_board::Board;
use sot_box::Point;
use sot_lang::{PlantInfo, Typed};
use sot_text_output::Scratch;
use sot_world::History;
use std::alloc::{AllocError, Global};

/// Where a plant starts, without a line end. The error is want of memory.
pub fn put_start(out: &mut String, plant: &PlantInfo, point: &Point) -> Result<(), AllocError>
    ensures { OnOk result (string_bytes out.new
        ≡ string_bytes out.old ++ start_line plant.now point.now) }
{
    let mut scratch = Scratch::new(out);
    put_plant_start(&mut scratch, plant, point);
    scratch.end()
}

/// The last line of a history with these counts, without its line end: of ticks, of entries, and of
/// numbers outside their scalars' ranges. The error is want of memory.
pub fn put_end_line(
    out: &mut String,
    ticks: usize,
    events: usize,
    refused: u128,
) -> Result<(), AllocError>
    ensures { OnOk result (string_bytes out.new
        ≡ string_bytes out.old ++ end_line ticks events refused) }
{
    let mut scratch = Scratch::new(out);
    put_counts(&mut scratch, ticks, events, refused);
    scratch.end()
}

/// The trace of a history from these points, as [`put_trace`] puts it. The error is want of memory.
pub fn trace_text(
    alloc: Global,
    p: &Typed,
    start: &[Point],
    history: &History,
) -> Result<String, AllocError>
    requires starts { AreStarts p.now start.now }
    requires fits { FitsHistory p.now history.now.entries }
    ensures { IfOk result (λ text. string_bytes text
        ≡ trace_text p.now start.now history.now.entries) }
{
    let mut text = room_for(alloc, history)?;
    let mut scratch = Scratch::new(&mut text);
    put_trace(&mut scratch, p, start, history);
    scratch.end()?;
    Ok(text)
}

/// The text of what has happened on a board so far, from the start of its flight. The error is want
/// of memory.
pub fn board_text(alloc: Global, board: &Board<'_>) -> Result<String, AllocError>
    ensures { IfOk result (λ text. string_bytes text
        ≡ trace_text board.now.accepted.program board.now.plan.start board.now.entries) }
{
    let mut text = room_for(alloc, board.history())?;
    let mut scratch = Scratch::new(&mut text);
    put_board(&mut scratch, board);
    scratch.end()?;
    Ok(text)
}

// An empty text, with room for a line an entry.
fn room_for(alloc: Global, history: &History) -> Result<String, AllocError>
    ensures { IfOk result (λ text. string_bytes text ≡ []) }
{
    String::with_capacity(alloc, history.len().saturating_mul(LINE))
}

// Room for a line, more than most need, so that the text is seldom moved. Where pages are handed
// out when they are first touched, what is never written takes up none.
const LINE: usize = 48;
