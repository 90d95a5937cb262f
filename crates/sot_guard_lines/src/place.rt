//! Plants in their places.

ghost use Rattle.std.specs.Prelude.{◌≡◌, ◌<◌, true, length, IfSome};
ghost use Rattle.std.specs.Option.{option_map};
ghost use Rattle.std.specs.Str.{bytes_eq};
ghost use Rattle.sot_lang.specs.TableRules.{MeetsTableRules};
ghost use Rattle.sot_lang.specs.declared.tables.PlantInfo.{PlantInfo as Plant};
ghost use Rattle.sot_board.specs.Counts.{state_count};
ghost use Rattle.sot_trace_lines.specs.Readers.{place_of};
ghost use Rattle.sot_trace_lines.specs.Pieces.{row_at};
ghost use Rattle.sot_trace_lines.specs.Kept.{kept_row};
ghost use Rattle.sot_trace_lines.specs.Room.{TakesRoom};
ghost use Rattle.sot_guard_lines.specs.Readers.{plant_named, point_at, place_at, places_at};
ghost use Rattle.sot_guard_lines.specs.Room.{HasRoom};

use sot_lang::{PlantInfo, Typed};
use sot_trace_lines::{Row, behind, keeps_rules, move_front, row_at};

fn is_named(name: &[u8], word: &[u8]) -> bool
    ensures { result ≡ bytes_eq name.now word.now }
{
    name == word
}

fn plant_among(plants: &[PlantInfo], name: &[u8]) -> Option<usize>
    ensures { result ≡ place_of (λ (x : Plant). x.name) plants.now name.now }
{
    plants
        .iter()
        .position(|plant| is_named(plant.name.as_bytes(), name))
}

/// The plant of that name.
pub fn plant_named(p: &Typed, name: &[u8]) -> Option<u32>
    ensures value { result ≡ plant_named p.now name.now }
    ensures there { IfSome result (λ k. k < length p.now.plants) }
{
    keeps_rules(p);
    let count = p.plants.len();
    match plant_among(&p.plants, name) {
        Some(place) if place < count => Some(place as u32),
        Some(_) => unreachable!(),
        None => None,
    }
}

// So many numbers with a comma between two, for which the list has room.
fn row_within<'a>(
    count: usize,
    text: &'a [u8],
    whole: bool,
    numbers: &mut Vec<i64>,
) -> Option<Row<'a>>
    requires room { HasRoom count numbers.old }
    ensures read { option_map (λ r. ((numbers.new.items, r.whole), r.rest.now)) result
        ≡ kept_row (numbers.old.items, whole) (row_at count text.now) }
    ensures room { TakesRoom count numbers.old numbers.new }
{
    match row_at(count, text, whole, numbers) {
        Ok(read) => read,
        Err(_) => unreachable!(),
    }
}

/// The coordinates of a plant, put behind the numbers of the list as far as they have 64 bits, and
/// the text behind the `)` behind them.
pub fn point_at<'a>(
    plant: &PlantInfo,
    text: &'a [u8],
    whole: bool,
    numbers: &mut Vec<i64>,
) -> Option<Row<'a>>
    requires room { HasRoom (length plant.now.states.items) numbers.old }
    ensures read { option_map (λ r. ((numbers.new.items, r.whole), r.rest.now)) result
        ≡ kept_row (numbers.old.items, whole) (point_at plant.now text.now) }
    ensures room { TakesRoom (length plant.now.states.items) numbers.old numbers.new }
{
    let Some(row) = row_within(plant.states.len(), text, whole, numbers) else {
        return None;
    };
    let Some(rest) = behind(row.rest, b")") else {
        return None;
    };
    Some(Row {
        whole: row.whole,
        rest,
    })
}

// The coordinates of a plant behind a blank, its name and `(`, put behind the numbers of the list
// as far as they have 64 bits, and the text behind the `)` behind them.
fn place_at<'a>(
    plant: &PlantInfo,
    text: &'a [u8],
    whole: bool,
    numbers: &mut Vec<i64>,
) -> Option<Row<'a>>
    requires room { HasRoom (length plant.now.states.items) numbers.old }
    ensures read { option_map (λ r. ((numbers.new.items, r.whole), r.rest.now)) result
        ≡ kept_row (numbers.old.items, whole) (place_at plant.now text.now) }
    ensures room { TakesRoom (length plant.now.states.items) numbers.old numbers.new }
{
    let Some(front) = move_front(plant, text) else {
        return None;
    };
    point_at(plant, front, whole, numbers)
}

/// The coordinates of all plants in order.
pub fn places_at<'a>(
    plants: &[PlantInfo],
    text: &'a [u8],
    numbers: &mut Vec<i64>,
) -> Option<Row<'a>>
    requires room { HasRoom (state_count plants.now) numbers.old }
    ensures read { option_map (λ r. ((numbers.new.items, r.whole), r.rest.now)) result
        ≡ kept_row (numbers.old.items, true) (places_at plants.now text.now) }
    ensures room { TakesRoom (state_count plants.now) numbers.old numbers.new }
{
    let (_, mut rest) = text.split_at(0);
    let mut whole = true;
    for plant in plants {
        let Some(read) = place_at(plant, rest, whole, numbers) else {
            return None;
        };
        whole = read.whole;
        rest = read.rest;
    }
    Some(Row { whole, rest })
}
