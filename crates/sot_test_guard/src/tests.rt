//! Rows of a text, and missions. What is wanted was worked out by hand, or by a second program that
//! was written from the documents alone.

ghost use Rattle.sot_lang.specs.CertRules.{FitsTables};
ghost use Rattle.sot_trace.specs.Words.{AreWords};

mod bodies;
mod lines;
mod said;
mod spools;

use sot_law_trace_unique::names_are_words;
use sot_ports::Process;
use sot_report::{Loaded, load};
use sot_sections::Need;
use std::alloc::{AllocError, Global};
use std::fmt::Debug;
use std::process::Abort;

const LONGEST: usize = 16_777_216;

// Ends the test, with what was asked, where the answer is not the one that is wanted.
fn same<A: Debug + Drop, T: PartialEq + Debug + Drop>(
    rt: &impl Abort,
    asked: A,
    got: T,
    wanted: T,
) {
    assert_eq!(rt; got, wanted, "{asked:?}");
}

// What stands in front of a row's arrow, and behind it.
fn halves(row: &str) -> (&str, &str) {
    row.split_once(" => ").unwrap_or(("", row))
}

// A column of a row, in which `|` stands for a line end.
fn unescaped(alloc: Global, column: &str) -> Result<String, AllocError> {
    column.replace(alloc, "|", "\n")
}

// So many `x`, and a text behind them.
fn behind_many(alloc: Global, count: usize, text: &str) -> Result<String, AllocError> {
    let mut said = String::new(alloc);
    for _ in 0..count {
        said.push('x')?;
    }
    said.push_str(text)?;
    Ok(said)
}

// The number in a column of a row, from 0.
fn number(row: &str, place: usize) -> u32 {
    row.split(' ').nth(place).unwrap_or("").parse().unwrap_or(0)
}

// A mission, whose names are words.
fn loaded<'t>(rt: &impl Abort, alloc: Global, text: &'t str) -> Loaded<'t>
    ensures words { AreWords result.program }
    ensures cert { FitsTables result.program result.cert }
{
    names_are_words();
    if text.len() > LONGEST {
        panic!(rt; "a text that is too long");
    }
    match load(alloc, text.as_bytes(), Need::Check, 0, Process::GoesOn) {
        Ok(loaded) => loaded,
        Err(_) => panic!(rt; "no mission: {text}"),
    }
}
