//! Sets of atoms, mostly of three rows of four: atom `4 * row + column`.
use super::parts::{block_of, grid_of, place};
use super::{cut, same};
use sot_atoms::{AtomSet, Grid, Sums};
use std::alloc::Global;
use std::process::Abort;

// The grid of a set, and steps from no atom on: `put` and `take` change the set; `list` says its
// members and `size` the atoms that there may be; `has` whether all atoms of a block are in it, and
// whether none is; `count` how many are, by the set and by its sums, and whether the sums say all;
// `next` the first member from a number on, and `each` members at equal distances. A step may be
// taken `in` another grid: blocks of it, and blocks that the grid does not have, change nothing.
const ROWS: &str = "0..2 0..3, 12, 0: list; size => ; 12;
0..2 0..3, 12, 0: put 0..0 0..0 1..2 1..2; list; put 0..0 0..0 1..2 1..2; list; take 0..0 0..0 2..2 0..3; list => 5 6 9 10; 5 6 9 10; 5 6;
0..2 0..3, 12, 0: put 0..0 0..0 0..2 0..3; list; put 0..0 0..0 0..2 0..3; list; take 0..0 0..0 1..1 1..2; list => 0 1 2 3 4 5 6 7 8 9 10 11; 0 1 2 3 4 5 6 7 8 9 10 11; 0 1 2 3 4 7 8 9 10 11;
0..2 0..3, 12, 0: put 0..0 0..0 2..2 3..3; list; put 0..0 0..0 2..2 3..3; list; take 0..0 0..0 0..2 0..3; list => 11; 11; ;
0..2 0..3, 12, 0: put 0..0 0..0 0..1 0..0; list; put 0..0 0..0 0..1 0..0; list; take 0..0 0..0 2..2 0..3; list => 0 4; 0 4; 0 4;
0..2 0..3, 12, 0: put 0..0 0..0 1..2 1..2; has 0..0 0..0 1..2 1..2; has 0..0 0..0 2..2 1..1; has 0..0 0..0 1..2 1..3; has 0..0 0..0 0..1 2..2; has 0..0 0..0 0..0 0..3; has 0..0 0..0 0..2 3..3; has 0..0 0..0 0..2 0..3 => true false; true false; false false; false false; false true; false true; false false;
0..2 0..3, 12, 0: put 0..0 0..0 1..2 1..2; has 0..0 0..0 1..3 1..2; has 0..0 0..0 1..2 1..4; has 0..0 0..0 2..1 1..2 => false false; false false; false false;
0..2 0..3, 12, 0: next 0; put 0..0 0..0 1..2 1..2; next 0; next 5; next 6; next 7; next 10; next 11; next 12; next 18446744073709551615 => None; Some(5); Some(5); Some(6); Some(9); Some(10); None; None; None;
0..2 0..3, 12, 0: put 0..0 0..0 0..0 0..1; has 0..0 0..0 0..0 0..0 in 0..2 0..2, 9, 0; has 0..0 0..0 2..2 2..2 in 0..2 0..2, 9, 0 => false false; false false;
0..2 0..3, 12, 0: put 0..0 0..0 0..0 0..1; take 0..0 0..0 0..0 0..0 in 0..2 0..2, 9, 0; put 0..0 0..0 2..2 2..2 in 0..2 0..2, 9, 0; put 0..0 0..0 1..3 0..3; take 0..0 0..0 0..0 0..4; list => 0 1;
0..2 0..3, 12, 0: put 0..0 0..0 1..2 1..2; put 0..0 0..0 0..0 0..0; count 0..0 0..0 0..2 0..3; count 0..0 0..0 1..2 1..2; count 0..0 0..0 1..1 0..3; count 0..0 0..0 0..1 0..2; count 0..0 0..0 0..0 0..0; count 0..0 0..0 0..2 3..3 => 5: 5 5 false; 5: 4 4 true; 5: 2 2 false; 5: 3 3 false; 5: 1 1 true; 5: 0 0 false;
0..2 0..3, 12, 0: put 0..0 0..0 1..2 1..2; put 0..0 0..0 0..0 0..0; count 0..0 0..0 1..3 1..2; count 0..0 0..0 2..1 1..2 => 5: 0 0 false; 5: 0 0 false;
0..999, 1000, 0: put 0..0 0..0 0..0 3..302; put 0..0 0..0 0..0 700..799; each 100; each 299; each 300; each 301; each 400 => 3 103 203 700; 3 302; 3 700; 3 701; 3;";

// The numbers, with blanks between them.
fn listed(rt: &impl Abort, alloc: Global, numbers: &[usize]) -> String {
    let mut text = String::new(alloc);
    let mut blank = "";
    for number in numbers {
        let piece = format!(in alloc; "{blank}{number}").expect(rt, "memory");
        text.push_str(piece.as_str()).expect(rt, "memory");
        blank = " ";
    }
    text
}

fn members_text(rt: &impl Abort, alloc: Global, set: &AtomSet) -> String {
    let mut numbers = Vec::new(alloc);
    for k in 0..set.len() {
        if set.next(k) == Some(k) {
            numbers.push(k).expect(rt, "memory");
        }
    }
    listed(rt, alloc, &numbers)
}

fn counts_text(rt: &impl Abort, alloc: Global, set: &AtomSet, grid: &Grid, text: &str) -> String {
    let block = block_of(rt, text);
    let sums = Sums::of(alloc, grid, set).expect(rt, "memory");
    let (by_set, by_sums) = (set.count(grid, &block), sums.count(grid, &block));
    let (members, all) = (set.members(), sums.has_all(grid, &block));
    format!(in alloc; "{members}: {by_set} {by_sums} {all}").expect(rt, "memory")
}

// What a step says, which changes nothing.
fn told(rt: &impl Abort, alloc: Global, set: &AtomSet, grid: &Grid, step: &str) -> String {
    let (word, text) = step.split_once(' ').unwrap_or((step, ""));
    match word {
        "list" => members_text(rt, alloc, set),
        "size" => format!(in alloc; "{}", set.len()).expect(rt, "memory"),
        "next" => format!(in alloc; "{:?}", set.next(place(rt, text))).expect(rt, "memory"),
        "count" => counts_text(rt, alloc, set, grid, text),
        "each" => {
            let numbers = set.spread(alloc, place(rt, text)).expect(rt, "memory");
            listed(rt, alloc, &numbers)
        }
        _ => {
            let block = block_of(rt, text);
            let (all, none) = (set.has_all(grid, &block), set.has_none(grid, &block));
            format!(in alloc; "{all} {none}").expect(rt, "memory")
        }
    }
}

// Takes a step, and says whether it is one that changes the set.
fn changes(rt: &impl Abort, set: &mut AtomSet, grid: &Grid, step: &str) -> bool {
    let (word, text) = step.split_once(' ').unwrap_or((step, ""));
    match word {
        "put" => {
            set.put(grid, &block_of(rt, text));
            true
        }
        "take" => {
            set.take(grid, &block_of(rt, text));
            true
        }
        _ => false,
    }
}

// What is said by the steps from no atom on.
fn said(rt: &impl Abort, alloc: Global, of: &str, steps: &str) -> String {
    let whole = grid_of(rt, alloc, of).expect(rt, "a grid");
    let mut set = AtomSet::none(alloc, &whole).expect(rt, "memory");
    let mut text = String::new(alloc);
    for asked in steps.split(';') {
        let (step, on) = asked
            .trim()
            .split_once(" in ")
            .unwrap_or((asked.trim(), of));
        let grid = grid_of(rt, alloc, on).expect(rt, "a grid");
        if !changes(rt, &mut set, &grid, step) {
            let got = told(rt, alloc, &set, &grid, step);
            let piece = format!(in alloc; "{}; ", got.as_str()).expect(rt, "memory");
            text.push_str(piece.as_str()).expect(rt, "memory");
        }
    }
    text
}

#[test]
fn sets_have_the_atoms_that_were_put(rt: HostRuntime) {
    for row in ROWS.lines() {
        let (asked, want) = cut(&rt, row, " => ");
        let (of, steps) = cut(&rt, asked, ": ");
        let got = said(&rt, rt.alloc(), of, steps);
        same(&rt, asked, got.as_str().trim(), want);
    }
}
