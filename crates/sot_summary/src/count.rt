//! What is counted of a history.

ghost use Rattle.std.specs.Prelude.{◌≡◌, ◌≤◌, sum_by};
ghost use Rattle.sot_trace.specs.Lines.{ticks_in, refused_in};
ghost use Rattle.sot_trace.specs.Fitting.{FitsHistory};
ghost use Rattle.sot_summary.specs.Counted.{firings_in, outside_in, states_sum};

use crate::entry::{firings_in, outside_in, states_in};
use crate::fronts::fronts_of;
use crate::sum::added;
use sot_lang::Typed;
use sot_trace::{refused_in, ticks_in};
use sot_world::History;

/// The counts of all entries.
#[derive(Clone, Copy)]
pub struct FlightCounts {
    pub firings: usize,
    pub ticks: usize,
    pub refused: u128,
    pub outside: usize,
    pub sum: i128,
}

/// FlightCounts a history in one pass.
pub fn count_entries(p: &Typed, history: &History) -> FlightCounts
    requires fits { FitsHistory p.now history.now.entries }
    requires few { sum_by ticks_in history.now.entries ≤ 100000 }
    ensures firings { result.firings ≡ sum_by firings_in history.now.entries }
    ensures ticks { result.ticks ≡ sum_by ticks_in history.now.entries }
    ensures refused { result.refused ≡ sum_by (refused_in p.now) history.now.entries }
    ensures outside { result.outside ≡ sum_by (outside_in p.now) history.now.entries }
    ensures sum { result.sum ≡ states_sum history.now.entries }
{
    let mut counts = FlightCounts {
        firings: 0,
        ticks: 0,
        refused: 0,
        outside: 0,
        sum: 0,
    };
    let fronts = fronts_of(&p.plants);
    for i in 0..history.len() {
        let entry = history.entry(i);
        counts.firings += firings_in(&entry) as usize;
        counts.ticks += ticks_in(&entry) as usize;
        counts.refused += refused_in(p, &entry) as u128;
        counts.outside += outside_in(p, &fronts, &entry) as usize;
        counts.sum = added(counts.sum, states_in(p, &entry));
    }
    counts
}
