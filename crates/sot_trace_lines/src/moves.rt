//! The plants in the line of a tick.

ghost use Rattle.std.specs.Prelude.{◌≡◌, true, length, IfOk};
ghost use Rattle.std.specs.Option.{option_map};
ghost use Rattle.sot_trace_lines.specs.Readers.{move_front, move_at, moves_at};
ghost use Rattle.sot_trace_lines.specs.Kept.{kept_noise};

use crate::piece::behind;
use crate::row::{Row, row_at, skip_row};
use sot_lang::PlantInfo;
use std::alloc::AllocError;

/// The text behind a blank, the plant's name and `(`.
pub fn move_front<'a>(plant: &PlantInfo, text: &'a [u8]) -> Option<&'a [u8]>
    ensures { option_map (λ rest. rest.now) result ≡ move_front plant.now text.now }
{
    let text = behind(text, b" ")?;
    let text = behind(text, plant.name.as_bytes())?;
    behind(text, b"(")
}

// One plant, of which the disturbances are kept.
fn move_at<'a>(
    plant: &PlantInfo,
    text: &'a [u8],
    whole: bool,
    numbers: &mut Vec<i64>,
) -> Result<Option<Row<'a>>, AllocError>
    ensures { IfOk result (λ read. option_map (λ r. ((numbers.new.items, r.whole), r.rest.now)) read
        ≡ kept_noise (numbers.old.items, whole) (move_at plant.now text.now)) }
{
    let Some(front) = move_front(plant, text) else {
        return Ok(None);
    };
    let Some(noise) = row_at(plant.noise.len(), front, whole, numbers)? else {
        return Ok(None);
    };
    let Some(states) = behind(noise.rest, b")=") else {
        return Ok(None);
    };
    let Some(rest) = skip_row(plant.states.len(), states) else {
        return Ok(None);
    };
    Ok(Some(Row {
        whole: noise.whole,
        rest,
    }))
}

/// All plants in order, of which the disturbances are kept.
pub fn moves_at<'a>(
    plants: &[PlantInfo],
    text: &'a [u8],
    numbers: &mut Vec<i64>,
) -> Result<Option<Row<'a>>, AllocError>
    ensures { IfOk result (λ read. option_map (λ r. ((numbers.new.items, r.whole), r.rest.now)) read
        ≡ kept_noise (numbers.old.items, true) (moves_at plants.now text.now)) }
{
    let (_, mut rest) = text.split_at(0);
    let mut whole = true;
    for plant in plants {
        let Some(read) = move_at(plant, rest, whole, numbers)? else {
            return Ok(None);
        };
        whole = read.whole;
        rest = read.rest;
    }
    Ok(Some(Row { whole, rest }))
}
