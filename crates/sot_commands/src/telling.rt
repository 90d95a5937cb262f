//! What is told of a flight.

/// `fly` tells the trace of what its guests flew, and `soak` the summary of a flight without
/// guests. `watch` tells the trace, and behind it the verdict on the formula of this text.
#[derive(Clone, Copy, Debug)]
pub enum Telling<'w> {
    Trace,
    Summary,
    Verdict { formula: &'w str },
}
