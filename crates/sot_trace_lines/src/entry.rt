//! Whether a line is that of an entry. It is looked at piece by piece, so that no text is made.

ghost use Rattle.std.specs.Prelude.{◌≡◌, ◌↔◌, ℕ, ◌<◌, ◌≤◌, length, IsTrue};
ghost use Rattle.std.specs.Option.{option_map};
ghost use Rattle.sot_lists.specs.Places.{At};
ghost use Rattle.sot_world.specs.Histories.{entry_of};
ghost use Rattle.sot_world.specs.HistoryEntry.{InputAt, FireAt, DecideAt, TickAt};
ghost use Rattle.sot_world.specs.Events.{noise_count};
ghost use Rattle.sot_board.specs.Counts.{state_count};
ghost use Rattle.sot_trace.specs.Numbers.{numeral, signed_numeral};
ghost use Rattle.sot_lang.specs.Names.{topic_name, node_name, module_name};
ghost use Rattle.sot_trace.specs.Drafts.{mark};
ghost use Rattle.sot_trace.specs.Lines.{line_of, writes_of, firing_word, mode_word};
ghost use Rattle.sot_trace.specs.Fitting.{FitsEntry};
ghost use Rattle.sot_trace_lines.specs.Pieces.{behind};
ghost use Rattle.sot_trace_lines.specs.Entries.{behind_further, behind_numbers, behind_slot};
ghost use Rattle.sot_trace_lines.specs.Entries.{behind_draft, behind_move, behind_moves};
ghost use Rattle.sot_trace_lines.specs.Entries.{behind_entry};

use crate::moves::move_front;
use crate::piece::{behind, behind_byte};
use crate::slot::behind_scalar;
use itoa::Buffer;
use sot_lang::{Draft, PlantInfo, Typed};
use sot_trace::{digit, digit_below, is_in_range, writes_of};
use sot_world::{Entry, Mode};

fn behind_time(time: u32, text: &[u8]) -> Option<&[u8]>
    ensures { option_map (λ rest. rest.now) result ≡ behind (numeral time) text.now }
{
    behind(text, Buffer::new().format(time).as_bytes())
}

// A number that is not one digit alone.
fn behind_longer(number: i64, text: &[u8]) -> Option<&[u8]>
    ensures { option_map (λ rest. rest.now) result ≡ behind (signed_numeral number) text.now }
{
    match digit_below(number) {
        Some(digit) => behind(text, &[b'-', digit]),
        None => behind(text, Buffer::new().format(number).as_bytes()),
    }
}

#[inline(always)]
fn behind_number(number: i64, text: &[u8]) -> Option<&[u8]>
    ensures { option_map (λ rest. rest.now) result ≡ behind (signed_numeral number) text.now }
{
    match digit(number) {
        Some(digit) => behind_byte(text, digit),
        None => behind_longer(number, text),
    }
}

fn behind_further<'a>(more: &[i64], text: &'a [u8]) -> Option<&'a [u8]>
    ensures { option_map (λ rest. rest.now) result ≡ behind_further more.now text.now }
{
    let (_, mut rest) = text.split_at(0);
    for number in more {
        rest = behind_number(*number, behind(rest, b",")?)?;
    }
    Some(rest)
}

#[inline(always)]
fn behind_numbers<'a>(all: &[i64], text: &'a [u8]) -> Option<&'a [u8]>
    ensures { option_map (λ rest. rest.now) result ≡ behind_numbers all.now text.now }
{
    match all {
        [] => Some(text),
        [first, more @ ..] => behind_further(more, behind_number(*first, text)?),
    }
}

fn behind_mark(in_range: bool, text: &[u8]) -> Option<&[u8]>
    ensures { option_map (λ rest. rest.now) result ≡ behind (mark in_range) text.now }
{
    if in_range {
        behind(text, b"=")
    } else {
        behind(text, b"!")
    }
}

fn behind_slot<'a>(p: &Typed, scalar: usize, slot: Option<i64>, text: &'a [u8]) -> Option<&'a [u8]>
    requires { scalar < length p.now.scalars }
    ensures { option_map (λ rest. rest.now) result ≡ behind_slot p.now scalar slot text.now }
{
    let Some(number) = slot else {
        return Some(text);
    };
    let name = behind(text, b" ")?;
    let mark = behind_scalar(p, scalar, name)?;
    let numeral = behind_mark(is_in_range(p, scalar, number), mark)?;
    behind_number(number, numeral)
}

fn behind_draft<'a>(p: &Typed, writes: &[u32], draft: &Draft, text: &'a [u8]) -> Option<&'a [u8]>
    requires few { length writes.now ≤ 8 }
    requires written { (i k : ℕ) → At writes.now i k → k < length p.now.scalars }
    ensures { option_map (λ rest. rest.now) result
        ≡ behind_draft p.now writes.now draft.now text.now }
{
    let (_, mut rest) = text.split_at(0);
    for i in 0..writes.len() {
        rest = behind_slot(p, writes[i] as usize, draft.get(i), rest)?;
    }
    Some(rest)
}

fn behind_move<'a>(
    plant: &PlantInfo,
    noise: &[i64],
    states: &[i64],
    text: &'a [u8],
) -> Option<&'a [u8]>
    ensures { option_map (λ rest. rest.now) result
        ≡ behind_move plant.now noise.now states.now text.now }
{
    let front = move_front(plant, text)?;
    let sign = behind_numbers(noise, front)?;
    let rest = behind(sign, b")=")?;
    behind_numbers(states, rest)
}

fn behind_moves<'a>(
    plants: &[PlantInfo],
    noise: &[i64],
    states: &[i64],
    text: &'a [u8],
) -> Option<&'a [u8]>
    requires noise { length noise.now ≡ noise_count plants.now }
    requires states { length states.now ≡ state_count plants.now }
    ensures { option_map (λ rest. rest.now) result
        ≡ behind_moves plants.now noise.now states.now text.now }
{
    let (_, mut rest) = text.split_at(0);
    let (_, mut noise_left) = noise.split_at(0);
    let (_, mut states_left) = states.split_at(0);
    for plant in plants {
        let (own_noise, more_noise) = noise_left.split_at(plant.noise.len());
        let (own_states, more_states) = states_left.split_at(plant.states.len());
        rest = behind_move(plant, own_noise, own_states, rest)?;
        noise_left = more_noise;
        states_left = more_states;
    }
    Some(rest)
}

// The text behind a name, and all of the text where there is none.
fn behind_topic<'a>(p: &Typed, topic: u32, text: &'a [u8]) -> Option<&'a [u8]>
    ensures { option_map (λ rest. rest.now) result ≡ behind (topic_name p.now topic) text.now }
{
    match p.topics.get(topic as usize) {
        Some(info) => behind(text, info.name.as_bytes()),
        None => Some(text),
    }
}

fn behind_node<'a>(p: &Typed, node: u32, text: &'a [u8]) -> Option<&'a [u8]>
    ensures { option_map (λ rest. rest.now) result ≡ behind (node_name p.now node) text.now }
{
    match p.nodes.get(node as usize) {
        Some(info) => behind(text, info.name.as_bytes()),
        None => Some(text),
    }
}

fn behind_module<'a>(p: &Typed, module: u32, text: &'a [u8]) -> Option<&'a [u8]>
    ensures { option_map (λ rest. rest.now) result ≡ behind (module_name p.now «module») text.now }
{
    match p.modules.get(module as usize) {
        Some(info) => behind(text, info.name.as_bytes()),
        None => Some(text),
    }
}

fn behind_firing_word(enabled: bool, text: &[u8]) -> Option<&[u8]>
    ensures { option_map (λ rest. rest.now) result ≡ behind (firing_word enabled) text.now }
{
    if enabled {
        behind(text, b" fire ")
    } else {
        behind(text, b" idle ")
    }
}

fn behind_mode(mode: Mode, text: &[u8]) -> Option<&[u8]>
    ensures { option_map (λ rest. rest.now) result ≡ behind (mode_word mode) text.now }
{
    match mode {
        Mode::Ac => behind(text, b" ac"),
        Mode::Sc => behind(text, b" sc"),
    }
}

fn behind_input<'a>(
    p: &Typed,
    time: u32,
    topic: u32,
    value: &[i64],
    line: &'a [u8],
) -> Option<&'a [u8]>
    ensures { option_map (λ rest. rest.now) result
        ≡ behind_entry p.now (InputAt time topic value.now) line.now }
{
    let event = behind_time(time, line)?;
    let name = behind(event, b" input ")?;
    let sign = behind_topic(p, topic, name)?;
    let numbers = behind(sign, b"=")?;
    behind_numbers(value, numbers)
}

fn behind_firing<'a>(
    p: &Typed,
    time: u32,
    node: u32,
    draft: &Draft,
    enabled: bool,
    line: &'a [u8],
) -> Option<&'a [u8]>
    requires { node < length p.now.nodes }
    ensures { option_map (λ rest. rest.now) result
        ≡ behind_entry p.now (FireAt time node draft.now enabled) line.now }
{
    let event = behind_time(time, line)?;
    let name = behind_firing_word(enabled, event)?;
    let slots = behind_node(p, node, name)?;
    behind_draft(p, writes_of(p, node), draft, slots)
}

fn behind_decision<'a>(
    p: &Typed,
    time: u32,
    module: u32,
    mode: Mode,
    line: &'a [u8],
) -> Option<&'a [u8]>
    ensures { option_map (λ rest. rest.now) result
        ≡ behind_entry p.now (DecideAt time «module» mode) line.now }
{
    let event = behind_time(time, line)?;
    let name = behind(event, b" decide ")?;
    let word = behind_module(p, module, name)?;
    behind_mode(mode, word)
}

fn behind_tick<'a>(
    p: &Typed,
    time: u32,
    noise: &[i64],
    states: &[i64],
    line: &'a [u8],
) -> Option<&'a [u8]>
    requires noise { length noise.now ≡ noise_count p.now.plants }
    requires states { length states.now ≡ state_count p.now.plants }
    ensures { option_map (λ rest. rest.now) result
        ≡ behind_entry p.now (TickAt time noise.now states.now) line.now }
{
    let event = behind_time(time, line)?;
    let moves = behind(event, b" tick")?;
    behind_moves(&p.plants, noise, states, moves)
}

fn behind_entry<'a>(p: &Typed, entry: &Entry<'_>, line: &'a [u8]) -> Option<&'a [u8]>
    requires { FitsEntry p.now (entry_of entry.now) }
    ensures { option_map (λ rest. rest.now) result
        ≡ behind_entry p.now (entry_of entry.now) line.now }
{
    match entry {
        Entry::Input { time, topic, value } => behind_input(p, *time, *topic, value, line),
        Entry::Fire {
            time,
            node,
            draft,
            enabled,
        } => behind_firing(p, *time, *node, draft, *enabled, line),
        Entry::Decide { time, module, mode } => behind_decision(p, *time, *module, *mode, line),
        Entry::Tick {
            time,
            noise,
            states,
        } => behind_tick(p, *time, noise, states, line),
    }
}

/// Whether a line is that of an entry.
pub fn is_line_of(p: &Typed, entry: &Entry<'_>, line: &[u8]) -> bool
    requires { FitsEntry p.now (entry_of entry.now) }
    ensures { IsTrue result ↔ (line.now ≡ line_of p.now (entry_of entry.now)) }
{
    match behind_entry(p, entry, line) {
        Some(rest) => rest.is_empty(),
        None => false,
    }
}
