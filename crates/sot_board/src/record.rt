//! What a firing leaves in a board's counts and history.

ghost use Rattle.std.specs.Prelude.{◌≡◌, ℕ, ◌<◌, ◌^◌, length, slice_index_or};
ghost use Rattle.sot_world.specs.HistoryEntry.{FireAt};
ghost use Rattle.sot_board.specs.Standing.{Counted};
ghost use Rattle.sot_board.specs.Firings.{NotesFiring};

use crate::receipt::Receipt;
use crate::versions::{count_firing, count_one};
use sot_lang::Typed;
use sot_world::{Firing, History};

// One more for each topic that a firing writes.
fn count_topics(p: &Typed, time: u32, node: u32, firing: &Firing, versions: &mut [u32])
    requires there { node < length p.now.nodes }
    requires topics { length versions.old ≡ length p.now.topics }
    requires few { (k : ℕ) → slice_index_or versions.old k 0 < 2 ^ 30 }
    ensures { Counted p.now (FireAt time node firing.now.draft firing.now.enabled) versions.old
        versions.new }
{
    if firing.enabled {
        count_firing(p, &p.nodes[node as usize].writes, &firing.draft, versions);
    }
}

/// Notes a firing: it is counted for its node and for each topic that it writes, and its entry
/// comes behind the others.
pub fn note_firing(
    p: &Typed,
    time: u32,
    node: u32,
    firing: &Firing,
    versions: &mut [u32],
    fired: &mut [u32],
    history: &mut History,
) -> Receipt
    requires there { (node < length p.now.nodes) × (node < length fired.old) }
    requires topics { length versions.old ≡ length p.now.topics }
    requires few { (k : ℕ) → slice_index_or versions.old k 0 < 2 ^ 30 }
    requires few_firings { slice_index_or fired.old node 0 < 2 ^ 31 }
    requires room { 0 < history.old.entries_left }
    requires short { length history.old.entries < 2 ^ 32 }
    ensures notes { NotesFiring p.now time node firing.now versions.old versions.new fired.old
        fired.new history.old history.new }
    ensures place { result.place ≡ length history.old.entries }
    ensures draft { result.draft ≡ firing.now.draft }
{
    let place = history.len() as u32;
    count_topics(p, time, node, firing, versions);
    count_one(node, fired);
    history.push_firing(time, node, &firing.draft, firing.enabled);
    Receipt {
        place,
        draft: firing.draft,
    }
}
