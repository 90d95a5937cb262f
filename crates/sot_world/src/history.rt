//! The events of a run as they are recorded.

ghost use Rattle.std.specs.Prelude.{◌≡◌, ◌+◌, ◌^◌, ◌<◌, ◌≤◌, [], ◌∷◌, ◌++◌, length, slice_get};
ghost use Rattle.std.specs.Prelude.{Some, IfOk, vec_len, vec_capacity};
ghost use Rattle.sot_world.specs.HistoryEntry.{FireAt};
ghost use Rattle.sot_world.specs.Histories.{entry_of, numbers_in};

use crate::mode::Mode;
use crate::recorded::{kept, kept_firing, lent};
use sot_lang::Draft;
use std::alloc::{AllocError, Global};
use std::marker::Model;

/// An event of a run as it is recorded, with its time in ticks and its outcome.
#[derive(Clone, Copy)]
pub enum Entry<'h> {
    /// The numbers of a value that came on a topic.
    Input {
        time: u32,
        topic: u32,
        value: &'h [i64],
    },
    /// The draft of a node, and whether it was enabled.
    Fire {
        time: u32,
        node: u32,
        draft: Draft,
        enabled: bool,
    },
    /// The mode of a module after its decision.
    Decide {
        time: u32,
        module: u32,
        mode: Mode,
    },
    /// The disturbances of all plants, and their states after the tick, each one plant after
    /// another.
    Tick {
        time: u32,
        noise: &'h [i64],
        states: &'h [i64],
    },
}

/// The entries of a run, in order, in room that is taken at the start.
#[derive(Drop)]
pub struct History {
    words: Vec<u64>,
    numbers: Vec<i64>,
    entries_left: usize,
    numbers_left: usize,
}

impl Model for History {
    ghost use Rattle.sot_world.specs.HistoryEntry.{Story};

    ghost Value = { Story };

    ghost use Rattle.sot_world.specs.HistoryView.{story_of, IsStory};

    ghost view = { story_of };

    ghost invariant = { IsStory };
}

impl History {
    /// No entries yet, with room for so many, and for so many numbers in their slices.
    pub fn none(alloc: Global, entries: u32, numbers: u32) -> Result<History, AllocError>
        ensures { IfOk result (λ h. h ≡ record
            { entries = []; entries_left = entries; numbers_left = numbers }) }
    {
        let entries_left = entries as usize;
        let numbers_left = numbers as usize;
        // Each entry may be a firing, of which a time, a node and at most eight numbers are kept;
        // of another entry at most a time and two counts are. Where pages are handed out when they
        // are first touched, what is never written takes up none.
        Ok(History {
            words: Vec::with_capacity(alloc, entries_left)?,
            numbers: Vec::with_capacity(alloc, numbers_left + 10 * entries_left)?,
            entries_left,
            numbers_left,
        })
    }

    /// Puts an entry behind the others, in the room that is left.
    pub fn push(&mut self, e: &Entry<'_>)
        requires entry { 0 < self.old.entries_left }
        requires numbers { numbers_in (entry_of e.now) ≤ self.old.numbers_left }
        ensures appended { self.new.entries ≡ self.old.entries ++ entry_of e.now ∷ [] }
        ensures entries_left { self.new.entries_left + 1 ≡ self.old.entries_left }
        ensures numbers_left { self.new.numbers_left + numbers_in (entry_of e.now)
            ≡ self.old.numbers_left }
    {
        let word = kept(&mut self.numbers, e);
        self.numbers_left -= numbers_in(e);
        add(&mut self.words, word);
        self.entries_left -= 1;
    }

    /// Puts a firing behind the other entries, as [`History::push`] does. Its draft is looked at
    /// where it lies.
    pub fn push_firing(&mut self, time: u32, node: u32, draft: &Draft, enabled: bool)
        requires { 0 < self.old.entries_left }
        ensures appended { self.new.entries
            ≡ self.old.entries ++ FireAt time node draft.now enabled ∷ [] }
        ensures entries_left { self.new.entries_left + 1 ≡ self.old.entries_left }
        ensures numbers_left { self.new.numbers_left ≡ self.old.numbers_left }
    {
        let word = kept_firing(&mut self.numbers, time, node, draft, enabled);
        add(&mut self.words, word);
        self.entries_left -= 1;
    }

    /// The number of entries.
    pub fn len(&self) -> usize
        ensures { result ≡ length self.now.entries }
    {
        self.words.len()
    }

    /// The entry at place `i`, in the order in which they were pushed.
    // An entry is large: where it is handed out by more than one call it is copied as often, also
    // if the calls are inlined.
    #[inline(never)]
    pub fn entry(&self, i: usize) -> Entry<'_>
        requires { i < length self.now.entries }
        ensures { slice_get self.now.entries i ≡ Some (entry_of result) }
    {
        lent(&self.numbers, self.words[i])
    }
}

// How many numbers an entry's slices hold.
fn numbers_in(e: &Entry<'_>) -> usize
    requires { numbers_in (entry_of e.now) < 2 ^ 64 }
    ensures { result ≡ numbers_in (entry_of e.now) }
{
    match *e {
        Entry::Input { value, .. } => value.len(),
        Entry::Tick { noise, states, .. } => noise.len() + states.len(),
        _ => 0,
    }
}

// Appends a word for which there is room.
fn add(to: &mut Vec<u64>, more: u64)
    requires { vec_len to.old < vec_capacity to.old }
    ensures items { to.new.items ≡ to.old.items ++ more ∷ [] }
    ensures len { vec_len to.new ≡ vec_len to.old + 1 }
    ensures capacity { vec_capacity to.old ≤ vec_capacity to.new }
{
    let _ = to.push(more);
}
