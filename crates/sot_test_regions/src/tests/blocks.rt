//! Blocks, their stretches, their halves, and how many atoms they have.
use super::parts::{block_of, block_text};
use super::{cut, same};
use sot_atoms::{Block, Stretch, atoms_in, halves_of};
use std::alloc::Global;
use std::process::Abort;

// What is asked of a block: its text, its text with another third stretch, its halves, or how many
// atoms it has. The longest stretch is cut, of equal ones the first, and the middle place is in the
// low half; an atom has no halves, and a block without a place neither. Counts are at most the
// greatest that can be said.
const ROWS: &str = "text 0..0 1..2 3..5 7..9 => 0..0 1..2 3..5 7..9
with 0..0 1..2 3..5 7..9 => 0..0 1..2 4..4 7..9
halves 0..0 0..0 0..0 0..4 => 0..0 0..0 0..0 0..2 | 0..0 0..0 0..0 3..4
halves 0..0 0..0 0..3 0..3 => 0..0 0..0 0..1 0..3 | 0..0 0..0 2..3 0..3
halves 5..6 8..8 0..1 7..7 => 5..5 8..8 0..1 7..7 | 6..6 8..8 0..1 7..7
halves 0..1 0..1 0..1 3..5 => 0..1 0..1 0..1 3..4 | 0..1 0..1 0..1 5..5
halves 0..0 0..18446744073709551615 0..0 1..18446744073709551615 => 0..0 0..9223372036854775807 0..0 1..18446744073709551615 | 0..0 9223372036854775808..18446744073709551615 0..0 1..18446744073709551615
halves 0..0 0..0 0..0 0..0 => none
halves 1..1 2..2 0..0 18446744073709551615..18446744073709551615 => none
halves 0..0 0..0 0..0 3..2 => none
atoms 0..0 0..0 0..0 5..5 => 1
atoms 0..0 0..0 1..3 4..7 => 12
atoms 0..1 0..2 0..3 0..4 => 120
atoms 0..0 0..0 0..0 0..18446744073709551615 => 18446744073709551615
atoms 0..0 0..4294967295 0..4294967295 0..1 => 18446744073709551615
atoms 0..0 0..0 0..4294967295 0..2147483647 => 9223372036854775808";

fn halves_text(rt: &impl Abort, alloc: Global, block: &Block) -> String {
    match halves_of(block) {
        None => String::from_str(alloc, "none").expect(rt, "memory"),
        Some(found) => {
            let low = block_text(rt, alloc, &found.low);
            let high = block_text(rt, alloc, &found.high);
            format!(in alloc; "{low} | {high}").expect(rt, "memory")
        }
    }
}

fn told(rt: &impl Abort, alloc: Global, word: &str, block: &Block) -> String {
    match word {
        "text" => block_text(rt, alloc, block),
        "with" => block_text(rt, alloc, &block.with(2, Stretch { from: 4, to: 4 })),
        "halves" => halves_text(rt, alloc, block),
        "atoms" => format!(in alloc; "{}", atoms_in(block)).expect(rt, "memory"),
        _ => panic!(rt; "no question: {word}"),
    }
}

#[test]
fn blocks_have_stretches_halves_and_atoms(rt: HostRuntime) {
    for row in ROWS.lines() {
        let (asked, want) = cut(&rt, row, " => ");
        let (word, block) = cut(&rt, asked, " ");
        let got = told(&rt, rt.alloc(), word, &block_of(&rt, block));
        same(&rt, asked, got.as_str(), want);
    }
}
