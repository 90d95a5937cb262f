//! Boxes, blocks and grids as rows of a table spell them, and their texts.
use super::cut;
use sot_atoms::{Block, Grid, Stretch};
use sot_box::{BoxN, Interval};
use std::alloc::Global;
use std::process::Abort;

/// The whole number that a text spells.
pub fn whole(rt: &impl Abort, text: &str) -> i64 {
    text.parse().ok().expect(rt, "a number")
}

/// The place, or the count, that a text spells.
pub fn place(rt: &impl Abort, text: &str) -> usize {
    text.parse().ok().expect(rt, "a place")
}

// The stretch that stands at a place of a text.
fn stretch(rt: &impl Abort, text: &str, at: usize) -> Stretch {
    let side = text.split(' ').nth(at).expect(rt, "a stretch");
    let (from, to) = cut(rt, side, "..");
    Stretch {
        from: place(rt, from),
        to: place(rt, to),
    }
}

/// The block of four stretches.
pub fn block_of(rt: &impl Abort, text: &str) -> Block {
    Block::of([
        stretch(rt, text, 0),
        stretch(rt, text, 1),
        stretch(rt, text, 2),
        stretch(rt, text, 3),
    ])
}

/// The stretches of a block.
pub fn block_text(rt: &impl Abort, alloc: Global, block: &Block) -> String {
    let mut text = String::new(alloc);
    let mut blank = "";
    for k in 0..4 {
        let side = block.side(k);
        let ends = format!(in alloc; "{blank}{}..{}", side.from, side.to).expect(rt, "memory");
        text.push_str(ends.as_str()).expect(rt, "memory");
        blank = " ";
    }
    text
}

/// The interval of two ends.
pub fn interval_of(rt: &impl Abort, text: &str) -> Interval {
    let (lo, hi) = cut(rt, text, "..");
    Interval::new(whole(rt, lo), whole(rt, hi)).expect(rt, "a side")
}

/// The box of sides.
pub fn box_of(rt: &impl Abort, alloc: Global, text: &str) -> BoxN {
    let mut sides = Vec::new(alloc);
    for side in text.split(' ') {
        sides.push(interval_of(rt, side)).expect(rt, "memory");
    }
    BoxN::of(&sides).expect(rt, "a box")
}

/// The sides of a box.
pub fn box_text(rt: &impl Abort, alloc: Global, area: &BoxN) -> String {
    let mut text = String::new(alloc);
    let mut blank = "";
    for i in 0..area.len() {
        let side = area.side(i);
        let ends = format!(in alloc; "{blank}{}..{}", side.lo, side.hi).expect(rt, "memory");
        text.push_str(ends.as_str()).expect(rt, "memory");
        blank = " ";
    }
    text
}

/// The grid of a hull, of the most atoms that it may have, and of how often its grains are doubled
/// again.
pub fn grid_of(rt: &impl Abort, alloc: Global, text: &str) -> Option<Grid> {
    let (hull, numbers) = cut(rt, text, ", ");
    let (many, coarser) = cut(rt, numbers, ", ");
    let many = many.parse().ok().expect(rt, "a count");
    let coarser = coarser.parse().ok().expect(rt, "a power");
    Grid::of(&box_of(rt, alloc, hull), many, coarser)
}
