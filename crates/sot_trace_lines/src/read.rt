//! A line, read as what it spells.

ghost use Rattle.std.specs.Prelude.{◌≡◌, ℕ, ◌<◌, ℤ, pos, [], List, Option, Some, None};
ghost use Rattle.std.specs.Prelude.{if◌then◌else◌, is_some, IfOk, OnErr, length};
ghost use Rattle.sot_trace.specs.Lines.{writes_of};
ghost use Rattle.sot_trace.specs.Words.{AreWords};
ghost use Rattle.sot_trace_lines.specs.Shown.{AnswersLine};
ghost use Rattle.sot_trace_lines.specs.Readers.{value_at, input_at, fire_at, mode_of, decide_at};
ghost use Rattle.sot_trace_lines.specs.Readers.{tick_at, counts_at, event_at, spelled_at};
ghost use Rattle.sot_trace_lines.specs.Kept.{bounded, ShowsRead};
ghost use Rattle.sot_trace_lines.specs.Room.{TakesRoom, IsFull};

use crate::line::Line;
use crate::moves::moves_at;
use crate::name::{keeps_rules, module_named, node_named, topic_named, word_at};
use crate::piece::{behind, numeral_at};
use crate::row::row_at;
use crate::slot::{Slots, slots_at};
use sot_lang::{Draft, TopicInfo, Typed};
use sot_trace::writes_of;
use std::alloc::AllocError;

// A value for a topic, if it is an environment topic.
fn read_value(
    time: Option<i64>,
    topic: u32,
    info: &TopicInfo,
    text: &[u8],
    numbers: &mut Vec<i64>,
) -> Result<Option<Line>, AllocError>
    requires { numbers.old.items ≡ [] }
    ensures read { IfOk result (λ l. (t : ℕ) → time ≡ bounded (pos t)
        → ShowsRead numbers.new.items l (value_at t topic info.now text.now)) }
    ensures room { TakesRoom info.now.count numbers.old numbers.new }
    ensures full { OnErr result (IsFull info.now.count numbers.old) }
{
    if !info.outside {
        return Ok(None);
    }
    let Some(text) = behind(text, b"=") else {
        return Ok(None);
    };
    let Some(value) = row_at(info.count as usize, text, true, numbers)? else {
        return Ok(None);
    };
    if !value.rest.is_empty() {
        return Ok(None);
    }
    Ok(Some(Line::Input {
        time,
        topic,
        whole: value.whole,
    }))
}

/// An input at this time, of what stands behind the words `T input`.
pub fn read_input(
    p: &Typed,
    time: Option<i64>,
    text: &[u8],
    from: &mut usize,
    numbers: &mut Vec<i64>,
) -> Result<Option<Line>, AllocError>
    requires { numbers.old.items ≡ [] }
    ensures read { IfOk result (λ l. (t : ℕ) → time ≡ bounded (pos t)
        → ShowsRead numbers.new.items l (input_at p.now t text.now)) }
    ensures room { TakesRoom (length p.now.scalars) numbers.old numbers.new }
    ensures full { OnErr result (IsFull (length p.now.scalars) numbers.old) }
{
    let word = word_at(text);
    let Some(topic) = topic_named(p, word.name, from) else {
        return Ok(None);
    };
    read_value(time, topic, &p.topics[topic as usize], word.rest, numbers)
}

fn drafted(slots: &Slots<'_>) -> Option<Draft>
    ensures { result ≡ (if slots.now.whole then Some slots.now.draft else None) }
{
    if slots.whole { Some(slots.draft) } else { None }
}

/// A firing at this time, enabled or not, of what stands behind its word.
pub fn read_fire(p: &Typed, time: Option<i64>, text: &[u8], from: &mut usize) -> Option<Line>
    ensures { (t : ℕ) (enabled : _) (list : List ℤ) → time ≡ bounded (pos t)
        → ShowsRead list result (fire_at p.now enabled t text.now) }
{
    let word = word_at(text);
    let node = node_named(p, word.name, from)?;
    let Some(slots) = slots_at(p, writes_of(p, node), word.rest) else {
        return None;
    };
    if !slots.rest.is_empty() {
        return None;
    }
    Some(Line::Fire {
        time,
        node,
        draft: drafted(&slots),
    })
}

fn is_mode(text: &[u8]) -> bool
    ensures { result ≡ is_some (mode_of text.now) }
{
    text == b" ac".as_slice() || text == b" sc".as_slice()
}

fn read_decision(p: &Typed, time: Option<i64>, text: &[u8], from: &mut usize) -> Option<Line>
    ensures { (t : ℕ) (list : List ℤ) → time ≡ bounded (pos t)
        → ShowsRead list result (decide_at p.now t text.now) }
{
    let word = word_at(text);
    let decider = module_named(p, word.name, from)?;
    if !is_mode(word.rest) {
        return None;
    }
    Some(Line::Decide {
        time,
        module: decider,
    })
}

fn read_tick(
    p: &Typed,
    time: Option<i64>,
    text: &[u8],
    numbers: &mut Vec<i64>,
) -> Result<Option<Line>, AllocError>
    requires { numbers.old.items ≡ [] }
    ensures { IfOk result (λ l. (t : ℕ) → time ≡ bounded (pos t)
        → ShowsRead numbers.new.items l (tick_at p.now t text.now)) }
{
    let Some(read) = moves_at(&p.plants, text, numbers)? else {
        return Ok(None);
    };
    if !read.rest.is_empty() {
        return Ok(None);
    }
    Ok(Some(Line::Tick {
        time,
        whole: read.whole,
    }))
}

/// The counts of the last line.
pub(crate) fn read_counts(text: &[u8]) -> Option<Line>
    ensures { (list : List ℤ) → ShowsRead list result (counts_at text.now) }
{
    let ticks = numeral_at(text)?;
    let events = numeral_at(behind(ticks.rest, b" events ")?)?;
    let refused = numeral_at(behind(events.rest, b" refused ")?)?;
    if !refused.rest.is_empty() {
        return None;
    }
    Some(Line::End { ticks: ticks.value })
}

/// What stands behind the time.
pub(crate) fn read_event(
    p: &Typed,
    time: Option<i64>,
    text: &[u8],
    from: &mut usize,
    numbers: &mut Vec<i64>,
) -> Result<Option<Line>, AllocError>
    requires { numbers.old.items ≡ [] }
    ensures { IfOk result (λ l. (t : ℕ) → time ≡ bounded (pos t)
        → ShowsRead numbers.new.items l (event_at p.now t text.now)) }
{
    if let Some(rest) = behind(text, b" input ") {
        return read_input(p, time, rest, from, numbers);
    }
    if let Some(rest) = behind(text, b" fire ") {
        return Ok(read_fire(p, time, rest, from));
    }
    if let Some(rest) = behind(text, b" idle ") {
        return Ok(read_fire(p, time, rest, from));
    }
    if let Some(rest) = behind(text, b" decide ") {
        return Ok(read_decision(p, time, rest, from));
    }
    if let Some(rest) = behind(text, b" tick") {
        return read_tick(p, time, rest, numbers);
    }
    Ok(None)
}

fn read(
    p: &Typed,
    line: &[u8],
    from: &mut usize,
    numbers: &mut Vec<i64>,
) -> Result<Option<Line>, AllocError>
    requires { numbers.old.items ≡ [] }
    ensures { IfOk result (λ l. ShowsRead numbers.new.items l (spelled_at p.now line.now)) }
{
    if let Some(rest) = behind(line, b"end ") {
        return Ok(read_counts(rest));
    }
    let Some(time) = numeral_at(line) else {
        return Ok(None);
    };
    read_event(p, time.value, time.rest, from, numbers)
}

/// What is looked at of a line, none where it is spelled as no line that stands behind the start
/// lines. The list is cleared, and then holds the value of an input or the disturbances of a tick;
/// only it takes memory, and the error is want of it. What a line names is looked for from a place
/// on, then among all, and the place is set behind it: lines mostly come in the order of what they
/// name. The answer is the same from each place.
pub fn read_line(
    p: &Typed,
    line: &[u8],
    from: &mut usize,
    numbers: &mut Vec<i64>,
) -> Result<Option<Line>, AllocError>
    requires words { AreWords p.now }
    ensures { IfOk result (λ l. AnswersLine p.now line.now numbers.new.items l) }
{
    numbers.clear();
    keeps_rules(p);
    read(p, line, from, numbers)
}
