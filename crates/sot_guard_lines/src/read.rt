//! A line, read as what a robot says.

ghost use Rattle.std.specs.Prelude.{◌≡◌, ◌<◌, ◌≤◌, ℕ, ℤ, [], List, length, vec_capacity};
ghost use Rattle.sot_trace.specs.Words.{AreWords};
ghost use Rattle.sot_lang.specs.declared.tables.PlantInfo.{PlantInfo as Plant};
ghost use Rattle.sot_guard_lines.specs.Shown.{AnswersSaid};
ghost use Rattle.sot_guard_lines.specs.Readers.{start_of, start_said_at, input_said_at};
ghost use Rattle.sot_guard_lines.specs.Readers.{draft_said_at, tick_said_at, go_said_at, said_at};
ghost use Rattle.sot_guard_lines.specs.Readers.{resume_said_at};
ghost use Rattle.sot_guard_lines.specs.Readers.{said_input, said_draft, ShowsReadSaid};
ghost use Rattle.sot_guard_lines.specs.Room.{said_room, HasRoom};
ghost use Rattle.sot_trace_lines.specs.Spelled.{Spelled};
ghost use Rattle.sot_trace_lines.specs.Shown.{Shows};
ghost use Rattle.sot_trace_lines.specs.Readers.{input_at};
ghost use Rattle.sot_trace_lines.specs.Kept.{ShowsRead};

use crate::place::{places_at, plant_named, point_at};
use crate::said::Said;
use sot_lang::{PlantInfo, Typed};
use sot_trace_lines::{Line, behind, keeps_rules, read_fire, read_input, word_at};

// The first state of a plant, to the end of the line.
fn read_point(k: u32, plant: &PlantInfo, text: &[u8], numbers: &mut Vec<i64>) -> Option<Said>
    requires none { numbers.old.items ≡ [] }
    requires room { HasRoom (length plant.now.states.items) numbers.old }
    ensures said { ShowsReadSaid numbers.new.items result (start_of k plant.now text.now) }
    ensures room { vec_capacity numbers.old ≤ vec_capacity numbers.new }
{
    let Some(point) = point_at(plant, text, true, numbers) else {
        return None;
    };
    if !point.rest.is_empty() {
        return None;
    }
    Some(Said::Start {
        plant: k,
        whole: point.whole,
    })
}

fn read_start(p: &Typed, text: &[u8], numbers: &mut Vec<i64>) -> Option<Said>
    requires none { numbers.old.items ≡ [] }
    requires room { HasRoom (said_room p.now) numbers.old }
    ensures said { ShowsReadSaid numbers.new.items result (start_said_at p.now text.now) }
    ensures room { vec_capacity numbers.old ≤ vec_capacity numbers.new }
{
    let word = word_at(text);
    let Some(k) = plant_named(p, word.name) else {
        return None;
    };
    let Some(rest) = behind(word.rest, b"(") else {
        return None;
    };
    read_point(k, &p.plants[k as usize], rest, numbers)
}

// An input, as a line of a trace shows it.
fn input_of(line: Line) -> Option<Said>
    ensures { (list : List ℤ) (s : Spelled) → Shows line list s
        → ShowsReadSaid list result (said_input s) }
{
    match line {
        Line::Input { topic, whole, .. } => Some(Said::Input { topic, whole }),
        Line::Fire { .. } => None,
        Line::Decide { .. } => None,
        Line::Tick { .. } => None,
        Line::End { .. } => None,
    }
}

// An input at time 0, for which the list has room.
fn input_within(p: &Typed, text: &[u8], numbers: &mut Vec<i64>) -> Option<Line>
    requires none { numbers.old.items ≡ [] }
    requires room { HasRoom (said_room p.now) numbers.old }
    ensures read { ShowsRead numbers.new.items result (input_at p.now 0 text.now) }
    ensures room { vec_capacity numbers.old ≤ vec_capacity numbers.new }
{
    let mut from = 0;
    match read_input(p, Some(0), text, &mut from, numbers) {
        Ok(line) => line,
        Err(_) => unreachable!(),
    }
}

fn read_value(p: &Typed, text: &[u8], numbers: &mut Vec<i64>) -> Option<Said>
    requires none { numbers.old.items ≡ [] }
    requires room { HasRoom (said_room p.now) numbers.old }
    ensures said { ShowsReadSaid numbers.new.items result (input_said_at p.now text.now) }
    ensures room { vec_capacity numbers.old ≤ vec_capacity numbers.new }
{
    match input_within(p, text, numbers) {
        Some(line) => input_of(line),
        None => None,
    }
}

// The draft of a firing, as a line of a trace shows it.
fn draft_of(line: Line) -> Option<Said>
    ensures { (list : List ℤ) (s : Spelled) → Shows line list s
        → ShowsReadSaid list result (said_draft s) }
{
    match line {
        Line::Input { .. } => None,
        Line::Fire { node, draft, .. } => Some(Said::Draft { node, draft }),
        Line::Decide { .. } => None,
        Line::Tick { .. } => None,
        Line::End { .. } => None,
    }
}

fn read_draft(p: &Typed, text: &[u8]) -> Option<Said>
    ensures { (list : List ℤ) → ShowsReadSaid list result (draft_said_at p.now text.now) }
{
    let mut from = 0;
    match read_fire(p, Some(0), text, &mut from) {
        Some(line) => draft_of(line),
        None => None,
    }
}

fn read_states(p: &Typed, text: &[u8], numbers: &mut Vec<i64>) -> Option<Said>
    requires none { numbers.old.items ≡ [] }
    requires room { HasRoom (said_room p.now) numbers.old }
    ensures said { ShowsReadSaid numbers.new.items result (tick_said_at p.now text.now) }
    ensures room { vec_capacity numbers.old ≤ vec_capacity numbers.new }
{
    keeps_rules(p);
    let Some(read) = places_at(&p.plants, text, numbers) else {
        return None;
    };
    if !read.rest.is_empty() {
        return None;
    }
    Some(Said::Tick { whole: read.whole })
}

fn read_go(text: &[u8]) -> Option<Said>
    ensures { (list : List ℤ) → ShowsReadSaid list result (go_said_at text.now) }
{
    if text.is_empty() {
        Some(Said::Go)
    } else {
        None
    }
}

fn read_resume(text: &[u8]) -> Option<Said>
    ensures { (list : List ℤ) → ShowsReadSaid list result (resume_said_at text.now) }
{
    if text.is_empty() {
        Some(Said::Resume)
    } else {
        None
    }
}

fn read(p: &Typed, line: &[u8], numbers: &mut Vec<i64>) -> Option<Said>
    requires none { numbers.old.items ≡ [] }
    requires room { HasRoom (said_room p.now) numbers.old }
    ensures said { ShowsReadSaid numbers.new.items result (said_at p.now line.now) }
    ensures room { vec_capacity numbers.old ≤ vec_capacity numbers.new }
{
    if let Some(rest) = behind(line, b"tick") {
        return read_states(p, rest, numbers);
    }
    if let Some(rest) = behind(line, b"input ") {
        return read_value(p, rest, numbers);
    }
    if let Some(rest) = behind(line, b"draft ") {
        return read_draft(p, rest);
    }
    if let Some(rest) = behind(line, b"go") {
        return read_go(rest);
    }
    if let Some(rest) = behind(line, b"resume") {
        return read_resume(rest);
    }
    if let Some(rest) = behind(line, b"start ") {
        return read_start(p, rest, numbers);
    }
    None
}

/// What a robot says in a line, which has no line end; none where it says nothing. The list is
/// cleared, and then holds the coordinates of a start, the value of an input or the states of a
/// tick. It has room for them, so that no line takes memory.
pub fn read_said(p: &Typed, line: &[u8], numbers: &mut Vec<i64>) -> Option<Said>
    requires words { AreWords p.now }
    requires room { said_room p.now ≤ vec_capacity numbers.old }
    ensures said { AnswersSaid p.now line.now numbers.new.items result }
    ensures room { vec_capacity numbers.old ≤ vec_capacity numbers.new }
{
    numbers.clear();
    keeps_rules(p);
    read(p, line, numbers)
}
