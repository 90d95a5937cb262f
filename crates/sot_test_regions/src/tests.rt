//! The tests, by what they test, and what they share. What is wanted was worked by hand. A row of a
//! table is a line: what is asked, ` => `, and what is wanted.

mod blocks;
mod grids;
mod parts;
mod sets;
mod shrinking;
mod trees;

use std::fmt::Debug;
use std::process::Abort;

/// Ends the test, with what was asked, where the answer is not the one that is wanted.
fn same<A: Debug + Drop, T: PartialEq + Debug + Drop>(
    rt: &impl Abort,
    asked: A,
    got: T,
    wanted: T,
) {
    assert_eq!(rt; got, wanted, "{asked:?}");
}

/// The two parts of a text, before and behind a sign.
fn cut<'t>(rt: &impl Abort, text: &'t str, sign: &str) -> (&'t str, &'t str) {
    text.split_once(sign).expect(rt, sign)
}
