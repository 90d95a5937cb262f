//! Tests of the layers together.

mod doubles;
mod drive;
mod histories;
mod pairs;
mod worked_nodes;
mod worked_tubes;
mod worlds;

use std::fmt::Debug;
use std::process::Abort;

// Ends the test, with what was asked, where the answer is not the one that is wanted.
fn same<A: Debug + Drop, T: PartialEq + Debug + Drop>(
    rt: &impl Abort,
    asked: A,
    got: T,
    wanted: T,
) {
    assert_eq!(rt; got, wanted, "{asked:?}");
}

// The two parts of a row, before and behind a sign.
fn cut<'t>(rt: &impl Abort, row: &'t str, sign: &str) -> (&'t str, &'t str) {
    row.split_once(sign).expect(rt, sign)
}
