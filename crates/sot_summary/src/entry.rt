//! What one entry of a history adds to the counts.

ghost use Rattle.std.specs.Prelude.{◌≡◌, pos, ◌*◌, ◌≤◌, ◌+ℤ◌, ◌≤ℤ◌, ◌^◌};
ghost use Rattle.sot_world.specs.Histories.{entry_of};
ghost use Rattle.sot_trace.specs.Lines.{ticks_in};
ghost use Rattle.sot_trace.specs.Fitting.{FitsEntry};
ghost use Rattle.sot_summary.specs.Counted.{firings_in, outside_in, states_in};
ghost use Rattle.sot_summary.specs.Fronts.{AreFronts};

use crate::outside::is_outside;
use crate::sum::total;
use sot_lang::Typed;
use sot_world::Entry;

/// 1 for a firing and for a decision.
pub fn firings_in(entry: &Entry<'_>) -> u8
    ensures value { result ≡ firings_in (entry_of entry.now) }
    ensures few { result ≤ 1 }
{
    match entry {
        Entry::Fire { .. } => 1,
        Entry::Decide { .. } => 1,
        _ => 0,
    }
}

/// 1 for a tick after which some plant is outside its safe region.
pub fn outside_in(p: &Typed, fronts: &[usize; 100], entry: &Entry<'_>) -> u8
    requires fronts { AreFronts p.now.plants fronts.now }
    requires fits { FitsEntry p.now (entry_of entry.now) }
    ensures value { result ≡ outside_in p.now (entry_of entry.now) }
    ensures few { result ≤ 1 }
{
    match *entry {
        Entry::Tick { states, .. } => { if is_outside(p, fronts, states) { 1 } else { 0 } }
        _ => 0,
    }
}

/// The sum of the states after a tick, and 0 for any other entry.
pub fn states_in(p: &Typed, entry: &Entry<'_>) -> i128
    requires { FitsEntry p.now (entry_of entry.now) }
    ensures value { result ≡ states_in (entry_of entry.now) }
    ensures low { pos 0 ≤ℤ (result +ℤ pos (2 ^ 72 * ticks_in (entry_of entry.now))) }
    ensures high { result ≤ℤ pos (2 ^ 72 * ticks_in (entry_of entry.now)) }
{
    // A look at a field brings what the type keeps: there are few states.
    let _plants = &p.plants;
    match *entry {
        Entry::Tick { states, .. } => total(states),
        _ => 0,
    }
}
