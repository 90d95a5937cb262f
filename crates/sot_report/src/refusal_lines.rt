//! The line of a refusal.

ghost use Rattle.std.specs.Prelude.{◌≡◌, ◌++◌, codes, OnOk, IfOk};
ghost use Rattle.sot_lang.specs.Names.{node_name, topic_name, plant_name};
ghost use Rattle.sot_rta.specs.Refused.{refusal_view};
ghost use Rattle.sot_report.specs.Pieces.{box_text, place_text, ends_text, trap_word};
ghost use Rattle.sot_report.specs.RefusalTexts.{condition_of, in_module, module_text, in_cell};
ghost use Rattle.sot_report.specs.RefusalTexts.{cell_text, region_word, at_point, by_modules};
ghost use Rattle.sot_report.specs.RefusalTexts.{evidence_text, refusal_text, start_text};

use crate::piece::{
    put, put_box, put_count, put_ends, put_module, put_node, put_place, put_plant, put_point,
    put_topic, trap_word,
};
use sot_box::{BoxN, Point};
use sot_lang::{TrapKind, Typed};
use sot_rta::Refusal;
use sot_text::Span;
use std::alloc::{AllocError, Global};

fn condition_of(refusal: &Refusal) -> &'static str
    ensures { result.now ≡ condition_of (refusal_view refusal.now) }
{
    match *refusal {
        Refusal::Periods { .. } => "1 Periods",
        Refusal::Outputs { .. } => "2 Outputs",
        Refusal::EmptyRegion { .. } => "3 EmptyRegion",
        Refusal::ClosedGap { .. } => "4 ClosedGap",
        Refusal::ClosedTrap { .. } => "5 ClosedTrap",
        Refusal::ClosedLeaves { .. } => "6 ClosedLeaves",
        Refusal::ReachGap { .. } => "7 ReachGap",
        Refusal::ReachLeaves { .. } => "8 ReachLeaves",
        Refusal::ReachTrap { .. } => "9 ReachTrap",
        Refusal::SharedNode { .. } => "10 SharedNode",
        Refusal::SharedOutput { .. } => "11 SharedOutput",
        Refusal::SharedPlant { .. } => "12 SharedPlant",
        Refusal::ForeignInput { .. } => "13 ForeignInput",
        Refusal::CodeMayTrap { .. } => "14 CodeMayTrap",
        Refusal::NoCells { .. } => "15 NoCells",
    }
}

fn put_condition(text: &mut Vec<u8>, refusal: &Refusal) -> Result<(), AllocError>
    ensures { OnOk result (text.new.items
        ≡ text.old.items ++ codes "refused " ++ condition_of (refusal_view refusal.now)) }
{
    put(text, "refused ")?;
    put(text, condition_of(refusal))
}

fn put_in_module(text: &mut Vec<u8>, p: &Typed, module: u32) -> Result<(), AllocError>
    ensures { OnOk result (text.new.items ≡ text.old.items ++ in_module p.now «module») }
{
    put(text, " module ")?;
    put_module(text, p, module)
}

// The module that the refusal is about, where it is about one.
fn put_module_of(text: &mut Vec<u8>, p: &Typed, refusal: &Refusal) -> Result<(), AllocError>
    ensures { OnOk result (text.new.items
        ≡ text.old.items ++ module_text p.now (refusal_view refusal.now)) }
{
    match *refusal {
        Refusal::Periods { module, .. }
        | Refusal::Outputs { module, .. }
        | Refusal::EmptyRegion { module, .. }
        | Refusal::ClosedGap { module, .. }
        | Refusal::ClosedTrap { module, .. }
        | Refusal::ClosedLeaves { module, .. }
        | Refusal::ReachGap { module, .. }
        | Refusal::ReachLeaves { module, .. }
        | Refusal::ReachTrap { module, .. }
        | Refusal::ForeignInput { module, .. }
        | Refusal::NoCells { module } => put_in_module(text, p, module),
        Refusal::SharedNode { .. }
        | Refusal::SharedOutput { .. }
        | Refusal::SharedPlant { .. }
        | Refusal::CodeMayTrap { .. } => Ok(()),
    }
}

fn put_in_cell(alloc: Global, text: &mut Vec<u8>, cell: u32, tick: u32) -> Result<(), AllocError>
    ensures { OnOk result (text.new.items ≡ text.old.items ++ in_cell cell tick) }
{
    put(text, " cell ")?;
    put_count(alloc, text, cell as u64)?;
    put(text, " tick ")?;
    put_count(alloc, text, tick as u64)?;
    put(text, " ")
}

// The cell whose tube is to blame, and the tick, where there is one.
fn put_cell_of(alloc: Global, text: &mut Vec<u8>, refusal: &Refusal) -> Result<(), AllocError>
    ensures { OnOk result (text.new.items
        ≡ text.old.items ++ cell_text (refusal_view refusal.now)) }
{
    match *refusal {
        Refusal::ClosedTrap { cell, tick, .. }
        | Refusal::ClosedLeaves { cell, tick, .. }
        | Refusal::ReachLeaves { cell, tick, .. }
        | Refusal::ReachTrap { cell, tick, .. } => put_in_cell(alloc, text, cell, tick),
        _ => Ok(()),
    }
}

fn put_the_node(text: &mut Vec<u8>, p: &Typed, node: u32) -> Result<(), AllocError>
    ensures { OnOk result (text.new.items
        ≡ text.old.items ++ codes " node " ++ node_name p.now node) }
{
    put(text, " node ")?;
    put_node(text, p, node)
}

fn put_the_topic(text: &mut Vec<u8>, p: &Typed, topic: u32) -> Result<(), AllocError>
    ensures { OnOk result (text.new.items
        ≡ text.old.items ++ codes " topic " ++ topic_name p.now topic) }
{
    put(text, " topic ")?;
    put_topic(text, p, topic)
}

fn put_region(text: &mut Vec<u8>, safer: bool) -> Result<(), AllocError>
    ensures { OnOk result (text.new.items ≡ text.old.items ++ codes " " ++ region_word safer) }
{
    if safer {
        put(text, " safer")
    } else {
        put(text, " safe")
    }
}

fn put_at_point(alloc: Global, text: &mut Vec<u8>, point: &Point) -> Result<(), AllocError>
    ensures { OnOk result (text.new.items ≡ text.old.items ++ at_point point.now) }
{
    put(text, " point ")?;
    put_point(alloc, text, point)
}

// The box of a tube, and a point of it that is outside.
fn put_leaving(
    alloc: Global,
    text: &mut Vec<u8>,
    area: &BoxN,
    point: &Point,
) -> Result<(), AllocError>
    ensures { OnOk result (text.new.items
        ≡ text.old.items ++ codes "box " ++ box_text area.now ++ at_point point.now) }
{
    put(text, "box ")?;
    put_box(alloc, text, area)?;
    put_at_point(alloc, text, point)
}

fn put_by_modules(text: &mut Vec<u8>, p: &Typed, a: u32, b: u32) -> Result<(), AllocError>
    ensures { OnOk result (text.new.items ≡ text.old.items ++ by_modules p.now a b) }
{
    put(text, " modules ")?;
    put_module(text, p, a)?;
    put(text, " ")?;
    put_module(text, p, b)
}

fn put_shared_node(
    text: &mut Vec<u8>,
    p: &Typed,
    node: u32,
    a: u32,
    b: u32,
) -> Result<(), AllocError>
    ensures { OnOk result (text.new.items ≡ text.old.items
        ++ evidence_text p.now (refusal_view (Refusal.SharedNode node a b))) }
{
    put_the_node(text, p, node)?;
    put_by_modules(text, p, a, b)
}

fn put_shared_output(
    text: &mut Vec<u8>,
    p: &Typed,
    topic: u32,
    a: u32,
    b: u32,
) -> Result<(), AllocError>
    ensures { OnOk result (text.new.items ≡ text.old.items
        ++ evidence_text p.now (refusal_view (Refusal.SharedOutput topic a b))) }
{
    put_the_topic(text, p, topic)?;
    put(text, " nodes ")?;
    put_node(text, p, a)?;
    put(text, " ")?;
    put_node(text, p, b)
}

fn put_shared_plant(
    text: &mut Vec<u8>,
    p: &Typed,
    plant: u32,
    a: u32,
    b: u32,
) -> Result<(), AllocError>
    ensures { OnOk result (text.new.items ≡ text.old.items
        ++ evidence_text p.now (refusal_view (Refusal.SharedPlant plant a b))) }
{
    put(text, " plant ")?;
    put_plant(text, p, plant)?;
    put_by_modules(text, p, a, b)
}

fn put_code_place(
    alloc: Global,
    text: &mut Vec<u8>,
    p: &Typed,
    node: u32,
    at: Span,
) -> Result<(), AllocError>
    ensures { OnOk result (text.new.items
        ≡ text.old.items ++ codes " node " ++ node_name p.now node ++ codes " " ++ place_text at) }
{
    put_the_node(text, p, node)?;
    put(text, " ")?;
    put_place(alloc, text, at)
}

// The trap, and the values that may come there.
fn put_trap(
    alloc: Global,
    text: &mut Vec<u8>,
    kind: TrapKind,
    lo: i128,
    hi: i128,
) -> Result<(), AllocError>
    ensures { OnOk result (text.new.items
        ≡ text.old.items ++ codes " " ++ trap_word kind ++ ends_text lo hi) }
{
    put(text, " ")?;
    put(text, trap_word(kind))?;
    put_ends(alloc, text, lo, hi)
}

fn put_code(
    alloc: Global,
    text: &mut Vec<u8>,
    p: &Typed,
    node: u32,
    at: Span,
    kind: TrapKind,
    lo: i128,
    hi: i128,
) -> Result<(), AllocError>
    ensures { OnOk result (text.new.items ≡ text.old.items
        ++ evidence_text p.now (refusal_view (Refusal.CodeMayTrap node at kind lo hi))) }
{
    put_code_place(alloc, text, p, node, at)?;
    put_trap(alloc, text, kind, lo, hi)
}

// What else shows that the condition fails.
fn put_evidence(
    alloc: Global,
    text: &mut Vec<u8>,
    p: &Typed,
    refusal: &Refusal,
) -> Result<(), AllocError>
    ensures { OnOk result (text.new.items
        ≡ text.old.items ++ evidence_text p.now (refusal_view refusal.now)) }
{
    match *refusal {
        Refusal::Periods { node, .. } => put_the_node(text, p, node),
        Refusal::Outputs { topic, .. } | Refusal::ForeignInput { topic, .. } => {
            put_the_topic(text, p, topic)
        }
        Refusal::EmptyRegion { safer, .. } => put_region(text, safer),
        Refusal::ClosedGap { point, .. } | Refusal::ReachGap { point, .. } => {
            put_at_point(alloc, text, &point)
        }
        Refusal::ClosedTrap { at, .. } => put_place(alloc, text, at),
        Refusal::ReachTrap { at, .. } => put_place(alloc, text, at),
        Refusal::ClosedLeaves { area, point, .. } | Refusal::ReachLeaves { area, point, .. } => {
            put_leaving(alloc, text, &area, &point)
        }
        Refusal::SharedNode { node, a, b } => put_shared_node(text, p, node, a, b),
        Refusal::SharedOutput { topic, a, b } => put_shared_output(text, p, topic, a, b),
        Refusal::SharedPlant { plant, a, b } => put_shared_plant(text, p, plant, a, b),
        Refusal::CodeMayTrap {
            node,
            at,
            kind,
            lo,
            hi,
        } => put_code(alloc, text, p, node, at, kind, lo, hi),
        Refusal::NoCells { .. } => Ok(()),
    }
}

/// The line of a refusal: `refused`, the number and the name of the condition that fails, and its
/// evidence, with things of the program by their names. Numbers are mantissas at the scales of the
/// plant's state variables.
pub fn refusal_text(alloc: Global, p: &Typed, refusal: &Refusal) -> Result<Vec<u8>, AllocError>
    ensures { IfOk result (λ text. text.items ≡ refusal_text p.now (refusal_view refusal.now)) }
{
    let mut text = Vec::new(alloc);
    put_condition(&mut text, refusal)?;
    put_module_of(&mut text, p, refusal)?;
    put_cell_of(alloc, &mut text, refusal)?;
    put_evidence(alloc, &mut text, p, refusal)?;
    text.push(b'\n')?;
    Ok(text)
}

/// The line of a start that is refused: this module's plant starts at a point outside the region
/// that the caller asks it to start in.
pub fn start_text(alloc: Global, p: &Typed, module: u32, at: &Point) -> Result<Vec<u8>, AllocError>
    ensures { IfOk result (λ text. text.items ≡ start_text p.now «module» at.now) }
{
    let mut text = Vec::new(alloc);
    put(&mut text, "refused start")?;
    put_in_module(&mut text, p, module)?;
    put_at_point(alloc, &mut text, at)?;
    text.push(b'\n')?;
    Ok(text)
}
