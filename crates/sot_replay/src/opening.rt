//! The lines in the places of the header and of the start lines.

ghost use Rattle.std.specs.Prelude.{◌≡◌, ℕ, ◌+◌, ◌≤◌, ◌++◌, List, length, OnOk, IfOk, IfErr};
ghost use Rattle.std.specs.Prelude.{MatchOption};
ghost use Rattle.std.specs.String.{string_bytes};
ghost use Rattle.sot_lists.specs.Places.{At};
ghost use Rattle.sot_flight.specs.Fits.{FitsFlight};
ghost use Rattle.sot_replay.specs.Replays.{opening_lines, MatchFail};
ghost use Rattle.sot_replay.specs.Openings.{RefusesOpening, IsOpeningRefused};

use crate::fail::{LineKind, ReplayFail};
use crate::missing::missing;
use sot_flight::Flight;
use sot_lang::Typed;
use sot_trace::put_start;
use sot_trace_lines::{Lines, is_start_line};
use std::alloc::AllocError;

// The header, or behind it the start line of a plant.
fn put_opening_line(
    out: &mut String,
    p: &Typed,
    flight: &Flight,
    place: usize,
) -> Result<(), AllocError>
    requires fits { (guests : ℕ) × FitsFlight p.now guests flight.now }
    requires place { place ≤ length p.now.plants }
    ensures { (expected : List ℕ) → At (opening_lines p.now flight.now) place expected
        → OnOk result (string_bytes out.new ≡ string_bytes out.old ++ expected) }
{
    if place == 0 {
        out.push_str("soter trace 1")
    } else {
        put_start(out, &p.plants[place - 1], &flight.start()[place - 1])
    }
}

// Why a line is not the one that has to stand in this place; none where it is.
fn opening_kind(
    p: &Typed,
    flight: &Flight,
    place: usize,
    line: &[u8],
    printed: &mut String,
) -> Result<Option<LineKind>, AllocError>
    requires fits { (guests : ℕ) × FitsFlight p.now guests flight.now }
    requires place { place ≤ length p.now.plants }
    ensures { (expected : List ℕ) → At (opening_lines p.now flight.now) place expected
        → IfOk result (λ answer. MatchOption answer (line.now ≡ expected)
        (λ kind. (line.now ≡ expected → ⊥) × RefusesOpening p.now place line.now kind)) }
{
    printed.clear();
    put_opening_line(printed, p, flight, place)?;
    if printed.as_bytes() == line {
        return Ok(None);
    }
    if place == 0 {
        return Ok(Some(LineKind::NotALine));
    }
    if is_start_line(p, line) {
        Ok(Some(LineKind::Differs))
    } else {
        Ok(Some(LineKind::NotALine))
    }
}

/// The first lines have to be the header and a start line for each plant.
pub fn read_opening(
    lines: &mut Lines<'_>,
    p: &Typed,
    flight: &Flight,
    printed: &mut String,
) -> Result<(), ReplayFail>
    requires fits { (guests : ℕ) × FitsFlight p.now guests flight.now }
    ensures read { IfOk result (λ _. (lines.old.to_come
        ≡ opening_lines p.now flight.now ++ lines.new.to_come)
        × (lines.new.number ≡ lines.old.number + length (opening_lines p.now flight.now))) }
    ensures refused { IfErr result (λ fail.
        MatchFail fail (λ _. ⊥) (λ at kind. (place : ℕ) × (at ≡ lines.old.number + place)
        × IsOpeningRefused p.now flight.now lines.old.to_come place kind)) }
{
    'places: for place in 0..p.plants.len() + 1 {
        let Some((number, line)) = lines.next() else {
            return Err(missing(lines));
        };
        match opening_kind(p, flight, place, line, printed) {
            Ok(None) => {}
            Ok(Some(kind)) => return Err(ReplayFail::Line { line: number, kind }),
            Err(_) => return Err(ReplayFail::Memory),
        }
    }
    Ok(())
}
