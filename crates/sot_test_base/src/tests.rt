//! The tests, by what they test, and what they share.

mod calendar;
mod json;
mod parts;
mod ports;
mod tally;
mod tokens;
mod turn;

use std::fmt::Debug;
use std::process::Abort;

/// Ends the test, with what was asked, where the answer is not the one that is wanted.
fn same<A: Debug + Drop, T: PartialEq + Debug + Drop>(
    rt: &impl Abort,
    asked: A,
    got: T,
    wanted: T,
) {
    assert_eq!(rt; got, wanted, "{asked:?}");
}
