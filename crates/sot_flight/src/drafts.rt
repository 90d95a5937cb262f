//! The stated draft of a node for a firing.

ghost use Rattle.std.specs.Prelude.{◌≡◌, ◌*◌, ◌<◌, ◌≤◌, Some, length, map, option_map};
ghost use Rattle.sot_lists.specs.Places.{At, Has};
ghost use Rattle.sot_lang.specs.declared.tables.NodeInfo.{NodeInfo};
ghost use Rattle.sot_lang.specs.Ranges.{write_ranges};
ghost use Rattle.sot_code.specs.Recorded.{in_slots};
ghost use Rattle.sot_flight.specs.Draws.{IsSpread, drawn_from, turn};
ghost use Rattle.sot_flight.specs.Stated.{draft_of};
ghost use Rattle.sot_flight.specs.Fits.{FitsCrew};
ghost use Rattle.sot_flight.specs.FlightView.{crew_of};

use crate::crew::Crew;
use crate::draws::{draw, words_from};
use crate::rows::row_of;
use crate::spread::{Spread, turn_of};
use sot_lang::{Draft, NodeInfo, Typed};

// A draft of a script, in eight slots.
fn script_draft(row: &[Option<i64>]) -> Draft
    requires { length row.now ≤ 8 }
    ensures { result ≡ in_slots row.now }
{
    let mut draft = Draft::blank();
    for i in 0..row.len() {
        if let Some(number) = row[i] {
            draft.set(i, number);
        }
    }
    draft
}

// A number in its range for each scalar that a node writes, from that firing's first word on, in
// eight slots.
fn wild_draft(
    p: &Typed,
    info: &NodeInfo,
    spread: Spread,
    seed: u64,
    stream: u64,
    firing: u32,
) -> Draft
    requires is { Has p.now.nodes info.now }
    requires few { length info.now.writes.items ≤ 8 }
    requires spread { IsSpread spread }
    ensures { result ≡ in_slots (map Some
        (drawn_from spread seed stream (turn spread firing * length info.now.writes.items)
        (write_ranges p.now info.now))) }
{
    let given = u64::from(turn_of(spread, firing)) * info.writes.len() as u64;
    let mut words = words_from(seed, stream, given);
    let mut draft = Draft::blank();
    for i in 0..info.writes.len() {
        let scalar = &p.scalars[info.writes[i] as usize];
        draft.set(i, draw(&mut words, spread, scalar.lo, scalar.hi));
    }
    draft
}

/// The stated draft of a node's firing, in eight slots; none where its own code or a guest drafts.
pub(crate) fn stated_draft(p: &Typed, node: u32, crew: &Crew, firing: u32) -> Option<Draft>
    requires node { node < length p.now.nodes }
    requires fits { (info : NodeInfo) → At p.now.nodes node info
        → FitsCrew info (crew_of crew.now) }
    ensures { (info : NodeInfo) → At p.now.nodes node info
        → result ≡ option_map in_slots (draft_of p.now info (crew_of crew.now) firing) }
{
    let info = &p.nodes[node as usize];
    match crew {
        Crew::Coded => None,
        Crew::Script(drafts) => Some(script_draft(row_of(drafts, firing))),
        Crew::Wild {
            spread,
            seed,
            stream,
        } => Some(wild_draft(p, info, *spread, *seed, *stream, firing)),
        Crew::Guest(_) => None,
    }
}
