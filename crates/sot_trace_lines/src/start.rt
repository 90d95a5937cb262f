//! A line, read as a start line.

ghost use Rattle.std.specs.Prelude.{◌≡◌, ◌↔◌, IsTrue, is_some};
ghost use Rattle.std.specs.Option.{option_map};
ghost use Rattle.std.specs.List.{list_any};
ghost use Rattle.sot_trace_lines.specs.Spelled.{IsStartLine};
ghost use Rattle.sot_trace_lines.specs.Readers.{start_front, point_at, start_at, starts_some};

use crate::piece::behind;
use crate::row::skip_row;
use sot_lang::{PlantInfo, Typed};

// The text behind the plant's name and a blank.
fn start_front<'a>(plant: &PlantInfo, text: &'a [u8]) -> Option<&'a [u8]>
    ensures { option_map (λ rest. rest.now) result ≡ start_front plant.now text.now }
{
    let text = behind(text, plant.name.as_bytes())?;
    behind(text, b" ")
}

// Whether a number for each state variable of a plant ends the line.
fn is_point(plant: &PlantInfo, text: &[u8]) -> bool
    ensures { result ≡ is_some (point_at plant.now text.now) }
{
    match skip_row(plant.states.len(), text) {
        Some(rest) => rest.is_empty(),
        None => false,
    }
}

fn starts_so(plant: &PlantInfo, text: &[u8]) -> bool
    ensures { result ≡ is_some (start_at plant.now text.now) }
{
    match start_front(plant, text) {
        Some(text) => is_point(plant, text),
        None => false,
    }
}

fn starts_some(plants: &[PlantInfo], text: &[u8]) -> bool
    ensures { result ≡ list_any (λ plant. is_some (start_at plant text.now)) plants.now }
{
    plants.iter().any(|plant| starts_so(plant, text))
}

fn is_spelled(p: &Typed, line: &[u8]) -> bool
    ensures { result ≡ starts_some p.now line.now }
{
    match behind(line, b"start ") {
        Some(text) => starts_some(&p.plants, text),
        None => false,
    }
}

/// Whether a line is spelled as a start line: of a plant that is there, with a number for each of
/// its state variables.
pub fn is_start_line(p: &Typed, line: &[u8]) -> bool
    ensures { IsTrue result ↔ IsStartLine p.now line.now }
{
    is_spelled(p, line)
}
