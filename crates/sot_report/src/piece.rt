//! Pieces of texts, each put behind what stands there already.

ghost use Rattle.std.specs.Prelude.{◌≡◌, ◌++◌, drop, OnOk};
ghost use Rattle.std.specs.Fmt.{decimal, signed_decimal};
ghost use Rattle.sot_lang.specs.Names.{module_name, node_name, topic_name, plant_name};
ghost use Rattle.sot_report.specs.Pieces.{further};
ghost use Rattle.sot_report.specs.Pieces.{listed, side_text, point_text, box_text, place_text};
ghost use Rattle.sot_report.specs.Pieces.{ends_text, trap_word};

use sot_box::{BoxN, Interval, Point};
use sot_lang::{TrapKind, Typed};
use sot_text::Span;
use std::alloc::{AllocError, Global};

/// A piece that is always the same.
pub fn put(text: &mut Vec<u8>, piece: &str) -> Result<(), AllocError>
    ensures { OnOk result (text.new.items ≡ text.old.items ++ piece.now) }
{
    text.extend_from_slice(piece.as_bytes())
}

/// A number from 0 on.
pub fn put_count(alloc: Global, text: &mut Vec<u8>, number: u64) -> Result<(), AllocError>
    ensures { OnOk result (text.new.items ≡ text.old.items ++ decimal number) }
{
    let piece = format!(in alloc; "{number}")?;
    text.extend_from_slice(piece.as_bytes())
}

/// A whole number.
pub fn put_number(alloc: Global, text: &mut Vec<u8>, number: i128) -> Result<(), AllocError>
    ensures { OnOk result (text.new.items ≡ text.old.items ++ signed_decimal number) }
{
    let piece = format!(in alloc; "{number}")?;
    text.extend_from_slice(piece.as_bytes())
}

/// The name of a module, and nothing where there is none.
pub fn put_module(text: &mut Vec<u8>, p: &Typed, module: u32) -> Result<(), AllocError>
    ensures { OnOk result (text.new.items ≡ text.old.items ++ module_name p.now «module») }
{
    match p.modules.get(module as usize) {
        Some(info) => text.extend_from_slice(info.name.as_bytes()),
        None => Ok(()),
    }
}

/// The name of a node, and nothing where there is none.
pub fn put_node(text: &mut Vec<u8>, p: &Typed, node: u32) -> Result<(), AllocError>
    ensures { OnOk result (text.new.items ≡ text.old.items ++ node_name p.now node) }
{
    match p.nodes.get(node as usize) {
        Some(info) => text.extend_from_slice(info.name.as_bytes()),
        None => Ok(()),
    }
}

/// The name of a topic, and nothing where there is none.
pub fn put_topic(text: &mut Vec<u8>, p: &Typed, topic: u32) -> Result<(), AllocError>
    ensures { OnOk result (text.new.items ≡ text.old.items ++ topic_name p.now topic) }
{
    match p.topics.get(topic as usize) {
        Some(info) => text.extend_from_slice(info.name.as_bytes()),
        None => Ok(()),
    }
}

/// The name of a plant, and nothing where there is none.
pub fn put_plant(text: &mut Vec<u8>, p: &Typed, plant: u32) -> Result<(), AllocError>
    ensures { OnOk result (text.new.items ≡ text.old.items ++ plant_name p.now plant) }
{
    match p.plants.get(plant as usize) {
        Some(info) => text.extend_from_slice(info.name.as_bytes()),
        None => Ok(()),
    }
}

fn put_side(alloc: Global, text: &mut Vec<u8>, side: Interval) -> Result<(), AllocError>
    ensures { OnOk result (text.new.items ≡ text.old.items ++ side_text side) }
{
    let lo = side.lo;
    let hi = side.hi;
    let piece = format!(in alloc; "{lo}..{hi}")?;
    text.extend_from_slice(piece.as_bytes())
}

fn put_coordinate(alloc: Global, text: &mut Vec<u8>, coordinate: i64) -> Result<(), AllocError>
    ensures { OnOk result (text.new.items ≡ text.old.items ++ signed_decimal coordinate) }
{
    let piece = format!(in alloc; "{coordinate}")?;
    text.extend_from_slice(piece.as_bytes())
}

// The coordinates after the first, each behind a comma.
fn put_further_coordinates(
    alloc: Global,
    text: &mut Vec<u8>,
    point: &Point,
) -> Result<(), AllocError>
    ensures { OnOk result (text.new.items
        ≡ text.old.items ++ further signed_decimal (drop 1 point.now)) }
{
    for i in 1..point.len() {
        put(text, ", ")?;
        put_coordinate(alloc, text, point.at(i))?;
    }
    Ok(())
}

/// A point: its coordinates in parentheses.
pub fn put_point(alloc: Global, text: &mut Vec<u8>, point: &Point) -> Result<(), AllocError>
    ensures { OnOk result (text.new.items ≡ text.old.items ++ point_text point.now) }
{
    let _axes = point.len();
    put(text, "(")?;
    put_coordinate(alloc, text, point.at(0))?;
    put_further_coordinates(alloc, text, point)?;
    put(text, ")")
}

// The sides after the first, each behind a comma.
fn put_further_sides(alloc: Global, text: &mut Vec<u8>, area: &BoxN) -> Result<(), AllocError>
    ensures { OnOk result (text.new.items ≡ text.old.items ++ further side_text (drop 1 area.now)) }
{
    for i in 1..area.len() {
        put(text, ", ")?;
        put_side(alloc, text, area.side(i))?;
    }
    Ok(())
}

/// A box: its sides in brackets.
pub fn put_box(alloc: Global, text: &mut Vec<u8>, area: &BoxN) -> Result<(), AllocError>
    ensures { OnOk result (text.new.items ≡ text.old.items ++ box_text area.now) }
{
    let _axes = area.len();
    put(text, "[")?;
    put_side(alloc, text, area.side(0))?;
    put_further_sides(alloc, text, area)?;
    put(text, "]")
}

/// A place in the program's text.
pub fn put_place(alloc: Global, text: &mut Vec<u8>, at: Span) -> Result<(), AllocError>
    ensures { OnOk result (text.new.items ≡ text.old.items ++ place_text at) }
{
    let line = at.line;
    let column = at.column;
    let piece = format!(in alloc; "line {line} column {column}")?;
    text.extend_from_slice(piece.as_bytes())
}

/// An interval of any whole numbers in brackets, with a blank before it.
pub fn put_ends(alloc: Global, text: &mut Vec<u8>, lo: i128, hi: i128) -> Result<(), AllocError>
    ensures { OnOk result (text.new.items ≡ text.old.items ++ ends_text lo hi) }
{
    put(text, " [")?;
    put_number(alloc, text, lo)?;
    put(text, "..")?;
    put_number(alloc, text, hi)?;
    put(text, "]")
}

/// The name of a trap.
pub fn trap_word(kind: TrapKind) -> &'static str
    ensures { result.now ≡ trap_word kind }
{
    match kind {
        TrapKind::ZeroDivisor => "ZeroDivisor",
        TrapKind::Wide => "Wide",
        TrapKind::OutsideRange => "OutsideRange",
    }
}
