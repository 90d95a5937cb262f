//! The text of a history.

ghost use Rattle.std.specs.Prelude.{◌≡◌, ◌++◌, codes, map, sum_by};
ghost use Rattle.sot_world.specs.Opens.{AreStarts};
ghost use Rattle.sot_trace.specs.Lines.{line_of, end_line, ticks_in, refused_in};
ghost use Rattle.sot_trace.specs.Traces.{text_of, last_line, trace_text};
ghost use Rattle.sot_trace.specs.Fitting.{FitsHistory};

use crate::line::{put_entry, refused_in, ticks_in};
use crate::number::put_count;
use crate::start::put_front;
use sot_box::Point;
use sot_lang::Typed;
use sot_text_output::Out;
use sot_world::History;

// What the last line counts beside the entries.
#[derive(Clone, Copy)]
struct Counts {
    ticks: usize,
    refused: u128,
}

// The lines of all entries, and what the last line counts of them.
fn put_entries<O: Out>(out: &mut O, p: &Typed, history: &History) -> Counts
    requires { FitsHistory p.now history.now.entries }
    ensures text { O.puts out.old out.new (text_of (map (line_of p.now) history.now.entries)) }
    ensures ticks { result.ticks ≡ sum_by ticks_in history.now.entries }
    ensures refused { result.refused ≡ sum_by (refused_in p.now) history.now.entries }
{
    let mut counts = Counts {
        ticks: 0,
        refused: 0,
    };
    for i in 0..history.len() {
        let entry = history.entry(i);
        let refused = put_entry(out, p, &entry);
        out.put_byte(b'\n');
        counts.refused += refused as u128;
        counts.ticks += ticks_in(&entry) as usize;
    }
    counts
}

/// The last line of a history with these counts, without its line end: of ticks, of entries, and of
/// numbers outside their scalars' ranges.
pub fn put_counts<O: Out>(out: &mut O, ticks: usize, events: usize, refused: u128)
    ensures { O.puts out.old out.new (end_line ticks events refused) }
{
    out.put("end ");
    put_count(out, ticks as u128);
    out.put(" events ");
    put_count(out, events as u128);
    out.put(" refused ");
    put_count(out, refused)
}

// The last line, with its line end.
fn put_end<O: Out>(out: &mut O, ticks: usize, events: usize, refused: u128)
    ensures { O.puts out.old out.new (end_line ticks events refused ++ codes "\n") }
{
    put_counts(out, ticks, events, refused);
    out.put_byte(b'\n')
}

// What the last line counts of all entries.
fn count_entries(p: &Typed, history: &History) -> Counts
    requires { FitsHistory p.now history.now.entries }
    ensures ticks { result.ticks ≡ sum_by ticks_in history.now.entries }
    ensures refused { result.refused ≡ sum_by (refused_in p.now) history.now.entries }
{
    let mut counts = Counts {
        ticks: 0,
        refused: 0,
    };
    for i in 0..history.len() {
        let entry = history.entry(i);
        counts.refused += refused_in(p, &entry) as u128;
        counts.ticks += ticks_in(&entry) as usize;
    }
    counts
}

/// The last line of a history, without its line end.
pub fn put_last_line<O: Out>(out: &mut O, p: &Typed, history: &History)
    requires { FitsHistory p.now history.now.entries }
    ensures { O.puts out.old out.new (last_line p.now history.now.entries) }
{
    let counts = count_entries(p, history);
    put_counts(out, counts.ticks, history.len(), counts.refused)
}

/// The trace of a history from these points, one for each plant.
///
/// Lines with line ends (LF): a header, where each plant starts, a line for each entry in order,
/// and the counts of ticks, of entries, and of numbers outside their scalars' ranges. Times are in
/// ticks, numbers are mantissas.
pub fn put_trace<O: Out>(out: &mut O, p: &Typed, start: &[Point], history: &History)
    requires starts { AreStarts p.now start.now }
    requires fits { FitsHistory p.now history.now.entries }
    ensures { O.puts out.old out.new (trace_text p.now start.now history.now.entries) }
{
    put_front(out, p, start);
    let counts = put_entries(out, p, history);
    put_end(out, counts.ticks, history.len(), counts.refused)
}
