//! Hulls that are cut into atoms.
use super::parts::{block_of, block_text, box_of, box_text, grid_of, place};
use super::{cut, same};
use sot_atoms::{Block, Grid, MOST_ATOMS};
use sot_box::BoxN;
use std::alloc::Global;
use std::process::Abort;

// A grid, what is asked of it, and the answer. `axes` says how many atoms there are and how many
// sides, and of each axis its side, the power of its grain, and its places; so does `coarser`, of
// the grid with grains doubled so often. `meets` and `clips` say which places a box meets.
const ROWS: &str = "0..10, 33554432, 0: axes => 11 of 1 | 0 0 1 | 0 0 1 | 0 0 1 | 0 0 11
0..10, 11, 0: axes => 11 of 1 | 0 0 1 | 0 0 1 | 0 0 1 | 0 0 11
0..10, 10, 0: axes => 6 of 1 | 0 0 1 | 0 0 1 | 0 0 1 | 0 1 6
0..10, 3, 0: axes => 3 of 1 | 0 0 1 | 0 0 1 | 0 0 1 | 0 2 3
0..10, 11, 2: axes => 3 of 1 | 0 0 1 | 0 0 1 | 0 0 1 | 0 2 3
0..10, 11, 3: axes => 2 of 1 | 0 0 1 | 0 0 1 | 0 0 1 | 0 3 2
0..10, 11, 4: axes => 1 of 1 | 0 0 1 | 0 0 1 | 0 0 1 | 0 4 1
0..10, 11, 9: axes => 1 of 1 | 0 0 1 | 0 0 1 | 0 0 1 | 0 4 1
-7..-7, 1, 3: axes => 1 of 1 | 0 0 1 | 0 0 1 | 0 0 1 | 0 0 1
0..33554431, 33554432, 0: axes => 33554432 of 1 | 0 0 1 | 0 0 1 | 0 0 1 | 0 0 33554432
0..33554432, 33554432, 0: axes => 16777217 of 1 | 0 0 1 | 0 0 1 | 0 0 1 | 0 1 16777217
-9223372036854775808..9223372036854775807, 33554432, 0: axes => 33554432 of 1 | 0 0 1 | 0 0 1 | 0 0 1 | 0 39 33554432
0..2 0..3, 12, 0: axes => 12 of 2 | 0 0 1 | 0 0 1 | 0 0 3 | 1 0 4
0..3 0..2, 12, 0: axes => 12 of 2 | 0 0 1 | 0 0 1 | 1 0 3 | 0 0 4
0..2 5..7, 12, 0: axes => 9 of 2 | 0 0 1 | 0 0 1 | 1 0 3 | 0 0 3
0..2 0..3, 6, 0: axes => 6 of 2 | 0 0 1 | 0 0 1 | 1 1 2 | 0 0 3
0..4 0..1 0..3, 40, 2: axes => 2 of 3 | 0 0 1 | 1 1 1 | 2 2 1 | 0 2 2
0..1 0..4 0..2 0..3, 120, 0: axes => 120 of 4 | 0 0 2 | 2 0 3 | 3 0 4 | 1 0 5
0..33554431, 40000000, 0: axes => 33554432 of 1 | 0 0 1 | 0 0 1 | 0 0 1 | 0 0 33554432
0..33554432, 40000000, 0: axes => no grid
0..33554432, 40000000, 1: axes => 16777217 of 1 | 0 0 1 | 0 0 1 | 0 0 1 | 0 1 16777217
5..5 0..10, 11, 0: coarser 0 => 11 of 2 | 0 0 1 | 0 0 1 | 0 0 1 | 1 0 11
5..5 0..10, 11, 0: coarser 1 => 6 of 2 | 0 0 1 | 0 0 1 | 0 0 1 | 1 1 6
5..5 0..10, 11, 0: coarser 2 => 3 of 2 | 0 0 1 | 0 0 1 | 0 0 1 | 1 2 3
5..5 0..10, 11, 0: coarser 4 => 1 of 2 | 0 0 1 | 0 0 1 | 0 0 1 | 1 4 1
5..5 0..10, 11, 0: coarser 99 => 1 of 2 | 0 0 1 | 0 0 1 | 0 0 1 | 1 63 1
0..10, 3, 0: meets 0..10 => 0..0 0..0 0..0 0..2
0..10, 3, 0: meets 0..0 => 0..0 0..0 0..0 0..0
0..10, 3, 0: meets 3..4 => 0..0 0..0 0..0 0..1
0..10, 3, 0: meets 4..7 => 0..0 0..0 0..0 1..1
0..10, 3, 0: meets 7..8 => 0..0 0..0 0..0 1..2
0..10, 3, 0: meets 10..10 => 0..0 0..0 0..0 2..2
0..10, 3, 0: meets 9..11 => none
0..10, 3, 0: meets -1..3 => none
0..10, 3, 0: meets -9..99 => none
0..10, 3, 0: meets 11..12 => none
0..10, 3, 0: meets -3..-1 => none
0..10, 3, 0: clips 0..10 => 0..0 0..0 0..0 0..2
0..10, 3, 0: clips 0..0 => 0..0 0..0 0..0 0..0
0..10, 3, 0: clips 3..4 => 0..0 0..0 0..0 0..1
0..10, 3, 0: clips 4..7 => 0..0 0..0 0..0 1..1
0..10, 3, 0: clips 7..8 => 0..0 0..0 0..0 1..2
0..10, 3, 0: clips 10..10 => 0..0 0..0 0..0 2..2
0..10, 3, 0: clips 9..11 => 0..0 0..0 0..0 2..2
0..10, 3, 0: clips -1..3 => 0..0 0..0 0..0 0..0
0..10, 3, 0: clips -9..99 => 0..0 0..0 0..0 0..2
0..10, 3, 0: clips 11..12 => none
0..10, 3, 0: clips -3..-1 => none
0..2 0..3, 6, 0: meets 0..1 3..3 => 0..0 0..0 1..1 0..1
0..2 0..3, 6, 0: meets 2..2 1..2 => 0..0 0..0 0..1 2..2
0..2 0..3, 6, 0: meets 0..3 0..0 => none
0..2 0..3, 6, 0: meets 0..2 -1..0 => none
0..2 0..3, 6, 0: meets 1..2 4..5 => none
0..2 0..3, 6, 0: clips 0..1 3..3 => 0..0 0..0 1..1 0..1
0..2 0..3, 6, 0: clips 2..2 1..2 => 0..0 0..0 0..1 2..2
0..2 0..3, 6, 0: clips 0..3 0..0 => 0..0 0..0 0..0 0..2
0..2 0..3, 6, 0: clips 0..2 -1..0 => 0..0 0..0 0..0 0..2
0..2 0..3, 6, 0: clips 1..2 4..5 => none
0..10, 3, 0: area 0..0 0..0 0..0 0..0 => 0..3
0..10, 3, 0: area 0..0 0..0 0..0 1..2 => 4..10
0..10, 3, 0: area 0..0 0..0 0..0 2..2 => 8..10
0..10, 3, 0: area 0..0 0..0 0..0 1..9 => 4..10
-3..-1 10..13, 6, 0: area 0..0 0..0 1..1 0..1 => -3..-2 12..13
0..10, 3, 0: grains => 4
-3..-1 10..13, 6, 0: grains => 1 2
0..1 0..4 0..2 0..3, 120, 0: whole => 0..1 0..2 0..3 0..4
0..1 0..4 0..2 0..3, 120, 0: atom 0 => 0..0 0..0 0..0 0..0
0..1 0..4 0..2 0..3, 120, 0: atom 4 => 0..0 0..0 0..0 4..4
0..1 0..4 0..2 0..3, 120, 0: atom 5 => 0..0 0..0 1..1 0..0
0..1 0..4 0..2 0..3, 120, 0: atom 27 => 0..0 1..1 1..1 2..2
0..1 0..4 0..2 0..3, 120, 0: atom 60 => 1..1 0..0 0..0 0..0
0..1 0..4 0..2 0..3, 120, 0: atom 119 => 1..1 2..2 3..3 4..4";

fn axes_text(rt: &impl Abort, alloc: Global, grid: &Grid) -> String {
    let mut text = format!(in alloc; "{} of {}", grid.total(), grid.width()).expect(rt, "memory");
    let axes = grid.axes();
    for k in 0..4 {
        let axis = axes[k];
        let (side, shift, size) = (axis.side, axis.shift, axis.size);
        let piece = format!(in alloc; " | {side} {shift} {size}").expect(rt, "memory");
        text.push_str(piece.as_str()).expect(rt, "memory");
    }
    text
}

// The power of two of each side.
fn grains_text(rt: &impl Abort, alloc: Global, grid: &Grid) -> String {
    let mut text = String::new(alloc);
    let mut blank = "";
    for side in 0..grid.width() {
        let piece = format!(in alloc; "{blank}{}", grid.grain(side)).expect(rt, "memory");
        text.push_str(piece.as_str()).expect(rt, "memory");
        blank = " ";
    }
    text
}

// The block of the places that a box meets, or, where it is clipped, that its part in the hull
// meets. The box has as many sides as the hull.
fn met(rt: &impl Abort, grid: &Grid, area: &BoxN, clipped: bool) -> Option<Block> {
    if area.len() != grid.width() {
        panic!(rt; "another width");
    }
    if clipped {
        grid.clip(area)
    } else {
        grid.block(area)
    }
}

fn met_text(rt: &impl Abort, alloc: Global, met: Option<Block>) -> String {
    match met {
        Some(block) => block_text(rt, alloc, &block),
        None => String::from_str(alloc, "none").expect(rt, "memory"),
    }
}

fn told(rt: &impl Abort, alloc: Global, grid: &Grid, asked: &str) -> String {
    let (word, text) = asked.split_once(' ').unwrap_or((asked, ""));
    match word {
        "axes" => axes_text(rt, alloc, grid),
        "grains" => grains_text(rt, alloc, grid),
        "whole" => block_text(rt, alloc, &grid.whole()),
        "atom" => block_text(rt, alloc, &grid.atom(place(rt, text))),
        "area" => box_text(rt, alloc, &grid.area(&block_of(rt, text))),
        "coarser" => {
            let by = text.parse().ok().expect(rt, "a power");
            let coarse = grid.coarser(by).expect(rt, "a grid");
            axes_text(rt, alloc, &coarse)
        }
        _ => {
            let found = met(rt, grid, &box_of(rt, alloc, text), word == "clips");
            met_text(rt, alloc, found)
        }
    }
}

#[test]
fn hulls_are_cut_into_atoms(rt: HostRuntime) {
    same(&rt, "limit", MOST_ATOMS, 33_554_432);
    for row in ROWS.lines() {
        let (question, want) = cut(&rt, row, " => ");
        let (cuts, asked) = cut(&rt, question, ": ");
        match grid_of(&rt, rt.alloc(), cuts) {
            Some(grid) => {
                let got = told(&rt, rt.alloc(), &grid, asked);
                same(&rt, question, got.as_str(), want);
            }
            None => same(&rt, question, "no grid", want),
        }
    }
}
