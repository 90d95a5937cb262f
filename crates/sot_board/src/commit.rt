//! What committing a view answers.

use crate::receipt::Receipt;
use crate::view::View;

/// What committing a view answers.
#[derive(Clone, Copy)]
pub enum Commit {
    /// The node has fired.
    Done(Receipt),
    /// Nothing happened, since what the node reads has changed or time went on: the view of now.
    Again(View),
}
