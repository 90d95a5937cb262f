//! The line of an entry.

ghost use Rattle.std.specs.Prelude.{◌≡◌, ℕ, ◌<◌, ◌≤◌, ◌++◌, length};
ghost use Rattle.sot_lists.specs.Places.{At};
ghost use Rattle.sot_world.specs.Histories.{entry_of};
ghost use Rattle.sot_world.specs.HistoryEntry.{InputAt, FireAt, DecideAt, TickAt};
ghost use Rattle.sot_trace.specs.Lines.{writes_of, firing_word, mode_word, line_of, refused_in};
ghost use Rattle.sot_trace.specs.Lines.{ticks_in};
ghost use Rattle.sot_trace.specs.Fitting.{FitsEntry};

use crate::draft::{put_draft, refused_in_draft};
use crate::moves::put_moves;
use crate::name::{put_module, put_node, put_topic};
use crate::number::{put_numbers, put_time};
use sot_lang::{Draft, Typed};
use sot_text_output::Out;
use sot_world::{Entry, Mode};

/// The line of an input without its line end: its time, its topic, and a number for each scalar.
pub fn put_input<O: Out>(out: &mut O, p: &Typed, time: u64, topic: u32, value: &[i64])
    ensures { O.puts out.old out.new (line_of p.now (InputAt time topic value.now)) }
{
    put_time(out, time);
    out.put(" input ");
    put_topic(out, p, topic);
    out.put_byte(b'=');
    put_numbers(out, value)
}

// Each word is put by itself, so that its length is known where it is put.
fn put_firing_word<O: Out>(out: &mut O, enabled: bool)
    ensures { O.puts out.old out.new (firing_word enabled) }
{
    if enabled {
        out.put(" fire ")
    } else {
        out.put(" idle ")
    }
}

/// The scalars that a node writes, in order.
pub fn writes_of(p: &Typed, node: u32) -> &[u32]
    requires { node < length p.now.nodes }
    ensures value { result.now ≡ writes_of p.now node }
    ensures few { length result.now ≤ 8 }
    ensures written { (i k : ℕ) → At result.now i k → k < length p.now.scalars }
{
    &p.nodes[node as usize].writes
}

/// The line of a firing without its line end, and how many of its numbers are outside their ranges.
pub fn put_firing<O: Out>(
    out: &mut O,
    p: &Typed,
    time: u64,
    node: u32,
    draft: &Draft,
    enabled: bool,
) -> u8
    requires { node < length p.now.nodes }
    ensures text { O.puts out.old out.new (line_of p.now (FireAt time node draft.now enabled)) }
    ensures refused { result ≡ refused_in p.now (FireAt time node draft.now enabled) }
    ensures few { result ≤ 8 }
{
    put_time(out, time);
    put_firing_word(out, enabled);
    put_node(out, p, node);
    put_draft(out, p, writes_of(p, node), draft)
}

fn put_mode<O: Out>(out: &mut O, mode: Mode)
    ensures { O.puts out.old out.new (mode_word mode) }
{
    match mode {
        Mode::Ac => out.put(" ac"),
        Mode::Sc => out.put(" sc"),
    }
}

/// The line of a decision without its line end: its time, its module, and the mode after it.
pub fn put_decision<O: Out>(out: &mut O, p: &Typed, time: u64, decider: u32, mode: Mode)
    ensures { O.puts out.old out.new (line_of p.now (DecideAt time decider mode)) }
{
    put_time(out, time);
    out.put(" decide ");
    put_module(out, p, decider);
    put_mode(out, mode)
}

/// The line of a tick without its line end: its time, and all plants' disturbances and states.
pub fn put_tick<O: Out>(out: &mut O, p: &Typed, time: u32, noise: &[i64], states: &[i64])
    requires { FitsEntry p.now (TickAt time noise.now states.now) }
    ensures { O.puts out.old out.new (line_of p.now (TickAt time noise.now states.now)) }
{
    put_time(out, time as u64);
    out.put(" tick");
    put_moves(out, &p.plants, noise, states)
}

/// The line of an entry without its line end, and how many of its numbers are outside their ranges.
pub fn put_entry<O: Out>(out: &mut O, p: &Typed, entry: &Entry<'_>) -> u8
    requires { FitsEntry p.now (entry_of entry.now) }
    ensures text { O.puts out.old out.new (line_of p.now (entry_of entry.now)) }
    ensures refused { result ≡ refused_in p.now (entry_of entry.now) }
    ensures few { result ≤ 8 }
{
    // By reference: a draft is large, and mostly fresh.
    match entry {
        Entry::Input { time, topic, value } => {
            put_input(out, p, *time as u64, *topic, value);
            0
        }
        Entry::Fire {
            time,
            node,
            draft,
            enabled,
        } => put_firing(out, p, *time as u64, *node, draft, *enabled),
        Entry::Decide { time, module, mode } => {
            put_decision(out, p, *time as u64, *module, *mode);
            0
        }
        Entry::Tick {
            time,
            noise,
            states,
        } => {
            put_tick(out, p, *time, noise, states);
            0
        }
    }
}

/// 1 for a tick, 0 for any other entry.
pub fn ticks_in(entry: &Entry<'_>) -> u8
    ensures value { result ≡ ticks_in (entry_of entry.now) }
    ensures few { result ≤ 1 }
{
    match entry {
        Entry::Tick { .. } => 1,
        _ => 0,
    }
}

/// How many numbers of an entry are outside their scalars' ranges.
pub fn refused_in(p: &Typed, entry: &Entry<'_>) -> u8
    requires { FitsEntry p.now (entry_of entry.now) }
    ensures value { result ≡ refused_in p.now (entry_of entry.now) }
    ensures few { result ≤ 8 }
{
    match entry {
        Entry::Fire { node, draft, .. } => refused_in_draft(p, writes_of(p, *node), draft),
        _ => 0,
    }
}
