//! Entries as a history keeps them: words, and numbers that stand in one list.

ghost use Rattle.std.specs.Prelude.{◌≡◌, ◌+◌, ◌^◌, ◌<◌, ◌≤◌, [], ◌∷◌, ◌++◌, ℤ, List, pos, length};
ghost use Rattle.std.specs.Prelude.{drop, vec_len, vec_capacity};
ghost use Rattle.sot_world.specs.HistoryEntry.{InputAt, FireAt, DecideAt, TickAt};
ghost use Rattle.sot_world.specs.Histories.{entry_of, numbers_in};
ghost use Rattle.sot_world.specs.HistoryRecords.{short_at, counted_at, end_at, flags_in};
ghost use Rattle.sot_world.specs.HistoryRecords.{count_there, record_as, logged, end_of, entry_in};
ghost use Rattle.sot_world.specs.HistoryRecords.{entry_end};

use crate::drafted::{append_draft, draft_at, draft_of, short_alone};
use crate::history::Entry;
use crate::mode::Mode;
use crate::word::{
    counted, far_word, flag_in, index_in, is_advanced, is_near, mode_in, near_word, number_in,
    place_in, there_in, time_in,
};
use sot_lang::Draft;

// Appends a number of 32 bits. There is room for it.
fn append_one(to: &mut Vec<i64>, number: u32)
    requires room { vec_len to.old < vec_capacity to.old }
    ensures items { to.new.items ≡ to.old.items ++ pos number ∷ [] }
    ensures len { vec_len to.new ≡ vec_len to.old + 1 }
    ensures capacity { vec_capacity to.old ≤ vec_capacity to.new }
{
    let _ = to.push(number as i64);
}

// Appends a time and what it is of. There is room for them.
fn append_front(to: &mut Vec<i64>, time: u32, index: u32)
    requires room { vec_len to.old + 2 ≤ vec_capacity to.old }
    ensures items { to.new.items ≡ to.old.items ++ pos time ∷ pos index ∷ [] }
    ensures len { vec_len to.new ≡ vec_len to.old + 2 }
    ensures capacity { vec_capacity to.old ≤ vec_capacity to.new }
{
    append_one(to, time);
    append_one(to, index);
}

// Appends numbers behind their count. There is room for them.
fn append(to: &mut Vec<i64>, more: &[i64])
    requires few { length more.now < 2 ^ 32 }
    requires room { vec_len to.old + 1 + length more.now ≤ vec_capacity to.old }
    ensures items { to.new.items ≡ to.old.items ++ pos (length more.now) ∷ more.now }
    ensures len { vec_len to.new ≡ vec_len to.old + 1 + length more.now }
    ensures capacity { vec_capacity to.old ≤ vec_capacity to.new }
{
    let _ = to.push(more.len() as i64);
    let _ = to.extend_from_slice(more);
}

// A number of 32 bits at a place.
fn short_at(numbers: &[i64], at: usize) -> u32
    requires { at < length numbers.now }
    ensures { result ≡ short_at numbers.now at }
{
    (numbers[at].unsigned_abs() % 4_294_967_296) as u32
}

// The numbers that stand at a place behind their count.
fn counted_at(numbers: &[i64], at: usize) -> &[i64]
    requires { end_at numbers.now at ≤ length numbers.now }
    ensures value { result.now ≡ counted_at numbers.now at }
    ensures end { at + 1 + length result.now ≡ end_at numbers.now at }
{
    let count = numbers[at].unsigned_abs() as usize;
    let from = at + 1;
    &numbers[from..from + count]
}

// The word of an input.
#[inline(never)]
fn kept_input(numbers: &mut Vec<i64>, time: u32, topic: u32, value: &[i64]) -> u64
    requires few { length value.now < 2 ^ 32 }
    requires room { vec_len numbers.old + length value.now + 10 ≤ vec_capacity numbers.old }
    requires place { vec_len numbers.old < 2 ^ 40 }
    ensures same { entry_in numbers.new.items result ≡ InputAt time topic value.now }
    ensures inside { entry_end numbers.new.items result ≤ length numbers.new.items }
    ensures behind { (more : List ℤ) × (numbers.new.items ≡ numbers.old.items ++ more) }
    ensures len { vec_len numbers.new ≤ vec_len numbers.old + length value.now + 10 }
    ensures capacity { vec_capacity numbers.old ≤ vec_capacity numbers.new }
{
    let place = numbers.len();
    append_front(numbers, time, topic);
    append(numbers, value);
    far_word(4, false, 0, place)
}

// The word of a tick.
#[inline(never)]
fn kept_tick(numbers: &mut Vec<i64>, time: u32, noise: &[i64], states: &[i64]) -> u64
    requires few { length noise.now + length states.now < 2 ^ 32 }
    requires room { vec_len numbers.old + (length noise.now + length states.now)
        + 10 ≤ vec_capacity numbers.old }
    requires place { vec_len numbers.old < 2 ^ 40 }
    ensures same { entry_in numbers.new.items result ≡ TickAt time noise.now states.now }
    ensures inside { entry_end numbers.new.items result ≤ length numbers.new.items }
    ensures behind { (more : List ℤ) × (numbers.new.items ≡ numbers.old.items ++ more) }
    ensures len { vec_len numbers.new ≤ vec_len numbers.old + (length noise.now + length states.now)
        + 10 }
    ensures capacity { vec_capacity numbers.old ≤ vec_capacity numbers.new }
{
    let place = numbers.len();
    append_one(numbers, time);
    append(numbers, noise);
    append(numbers, states);
    far_word(5, false, 0, place)
}

// The word of a decision of any time and module.
#[inline(never)]
fn kept_late_decision(numbers: &mut Vec<i64>, time: u32, module: u32, mode: Mode) -> u64
    requires room { vec_len numbers.old + 10 ≤ vec_capacity numbers.old }
    requires place { vec_len numbers.old < 2 ^ 40 }
    ensures same { entry_in numbers.new.items result ≡ DecideAt time «module» mode }
    ensures inside { entry_end numbers.new.items result ≤ length numbers.new.items }
    ensures behind { (more : List ℤ) × (numbers.new.items ≡ numbers.old.items ++ more) }
    ensures len { vec_len numbers.new ≤ vec_len numbers.old + 10 }
    ensures capacity { vec_capacity numbers.old ≤ vec_capacity numbers.new }
{
    let place = numbers.len();
    append_front(numbers, time, module);
    far_word(3, is_advanced(mode), 0, place)
}

// The word of a firing with any draft.
#[inline(never)]
fn kept_draft(numbers: &mut Vec<i64>, time: u32, node: u32, draft: &Draft, enabled: bool) -> u64
    requires room { vec_len numbers.old + 10 ≤ vec_capacity numbers.old }
    requires place { vec_len numbers.old < 2 ^ 40 }
    ensures same { entry_in numbers.new.items result ≡ FireAt time node draft.now enabled }
    ensures inside { entry_end numbers.new.items result ≤ length numbers.new.items }
    ensures behind { (more : List ℤ) × (numbers.new.items ≡ numbers.old.items ++ more) }
    ensures len { vec_len numbers.new ≤ vec_len numbers.old + 10 }
    ensures capacity { vec_capacity numbers.old ≤ vec_capacity numbers.new }
{
    let place = numbers.len();
    append_front(numbers, time, node);
    let there = append_draft(numbers, draft);
    far_word(2, enabled, there, place)
}

/// The word of a firing, whose numbers go behind the list where the word has no room for them.
pub(crate) fn kept_firing(
    numbers: &mut Vec<i64>,
    time: u32,
    node: u32,
    draft: &Draft,
    enabled: bool,
) -> u64
    requires room { vec_len numbers.old + 10 ≤ vec_capacity numbers.old }
    requires place { vec_len numbers.old < 2 ^ 40 }
    ensures same { entry_in numbers.new.items result ≡ FireAt time node draft.now enabled }
    ensures inside { entry_end numbers.new.items result ≤ length numbers.new.items }
    ensures behind { (more : List ℤ) × (numbers.new.items ≡ numbers.old.items ++ more) }
    ensures len { vec_len numbers.new ≤ vec_len numbers.old + 10 }
    ensures capacity { vec_capacity numbers.old ≤ vec_capacity numbers.new }
{
    if is_near(time, node) {
        if let Some(number) = short_alone(draft) {
            return near_word(0, enabled, time, node, counted(number));
        }
    }
    kept_draft(numbers, time, node, draft, enabled)
}

// The word of a decision.
fn kept_decision(numbers: &mut Vec<i64>, time: u32, module: u32, mode: Mode) -> u64
    requires room { vec_len numbers.old + 10 ≤ vec_capacity numbers.old }
    requires place { vec_len numbers.old < 2 ^ 40 }
    ensures same { entry_in numbers.new.items result ≡ DecideAt time «module» mode }
    ensures inside { entry_end numbers.new.items result ≤ length numbers.new.items }
    ensures behind { (more : List ℤ) × (numbers.new.items ≡ numbers.old.items ++ more) }
    ensures len { vec_len numbers.new ≤ vec_len numbers.old + 10 }
    ensures capacity { vec_capacity numbers.old ≤ vec_capacity numbers.new }
{
    if is_near(time, module) {
        near_word(1, is_advanced(mode), time, module, 0)
    } else {
        kept_late_decision(numbers, time, module, mode)
    }
}

/// The word of an entry, whose numbers go behind the list where the word has no room for them.
pub(crate) fn kept(numbers: &mut Vec<i64>, e: &Entry<'_>) -> u64
    requires room { vec_len numbers.old + numbers_in (entry_of e.now)
        + 10 ≤ vec_capacity numbers.old }
    requires few { numbers_in (entry_of e.now) < 2 ^ 32 }
    requires place { vec_len numbers.old < 2 ^ 40 }
    ensures same { entry_in numbers.new.items result ≡ entry_of e.now }
    ensures inside { entry_end numbers.new.items result ≤ length numbers.new.items }
    ensures behind { (more : List ℤ) × (numbers.new.items ≡ numbers.old.items ++ more) }
    ensures len { vec_len numbers.new ≤ vec_len numbers.old + numbers_in (entry_of e.now) + 10 }
    ensures capacity { vec_capacity numbers.old ≤ vec_capacity numbers.new }
{
    match e {
        Entry::Fire {
            time,
            node,
            draft,
            enabled,
        } => kept_firing(numbers, *time, *node, draft, *enabled),
        Entry::Decide { time, module, mode } => kept_decision(numbers, *time, *module, *mode),
        Entry::Input { time, topic, value } => kept_input(numbers, *time, *topic, value),
        Entry::Tick {
            time,
            noise,
            states,
        } => kept_tick(numbers, *time, noise, states),
    }
}

// The firing of a word that has its number in itself.
#[inline(always)]
fn lent_one<'n>(word: u64) -> Entry<'n>
    ensures { (numbers : List ℤ) → entry_of result ≡ logged numbers (record_as 0 word) }
{
    Entry::Fire {
        time: time_in(word),
        node: index_in(word),
        draft: draft_of(number_in(word)),
        enabled: flag_in(word),
    }
}

// The decision of a word.
#[inline(always)]
fn lent_decision<'n>(word: u64) -> Entry<'n>
    ensures { (numbers : List ℤ) → entry_of result ≡ logged numbers (record_as 1 word) }
{
    Entry::Decide {
        time: time_in(word),
        module: index_in(word),
        mode: mode_in(word),
    }
}

// The firing of a word whose numbers stand in the list.
#[inline(never)]
fn lent_draft(numbers: &[i64], word: u64) -> Entry<'_>
    requires { end_of numbers.now (record_as 2 word) ≤ length numbers.now }
    ensures { entry_of result ≡ logged numbers.now (record_as 2 word) }
{
    let place = place_in(word);
    Entry::Fire {
        time: short_at(numbers, place),
        node: short_at(numbers, place + 1),
        draft: draft_at(numbers, place + 2, there_in(word)),
        enabled: flag_in(word),
    }
}

// The decision of a word that has its place alone.
#[inline(never)]
fn lent_late_decision(numbers: &[i64], word: u64) -> Entry<'_>
    requires { end_of numbers.now (record_as 3 word) ≤ length numbers.now }
    ensures { entry_of result ≡ logged numbers.now (record_as 3 word) }
{
    let place = place_in(word);
    Entry::Decide {
        time: short_at(numbers, place),
        module: short_at(numbers, place + 1),
        mode: mode_in(word),
    }
}

// The input of a word.
#[inline(never)]
fn lent_input(numbers: &[i64], word: u64) -> Entry<'_>
    requires { end_of numbers.now (record_as 4 word) ≤ length numbers.now }
    ensures { entry_of result ≡ logged numbers.now (record_as 4 word) }
{
    let place = place_in(word);
    Entry::Input {
        time: short_at(numbers, place),
        topic: short_at(numbers, place + 1),
        value: counted_at(numbers, place + 2),
    }
}

// The tick of a word.
#[inline(never)]
fn lent_tick(numbers: &[i64], word: u64) -> Entry<'_>
    requires { end_of numbers.now (record_as 5 word) ≤ length numbers.now }
    ensures { entry_of result ≡ logged numbers.now (record_as 5 word) }
{
    let place = place_in(word);
    let noise = counted_at(numbers, place + 1);
    let states = counted_at(numbers, place + 2 + noise.len());
    Entry::Tick {
        time: short_at(numbers, place),
        noise,
        states,
    }
}

/// The entry that a word tells of.
#[inline(always)]
pub(crate) fn lent(numbers: &[i64], word: u64) -> Entry<'_>
    requires { entry_end numbers.now word ≤ length numbers.now }
    ensures { entry_of result ≡ entry_in numbers.now word }
{
    match word % 8 {
        0 => lent_one(word),
        1 => lent_decision(word),
        2 => lent_draft(numbers, word),
        3 => lent_late_decision(numbers, word),
        4 => lent_input(numbers, word),
        _ => lent_tick(numbers, word),
    }
}
