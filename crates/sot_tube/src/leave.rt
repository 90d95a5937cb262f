//! How a tube leaves a region.

use sot_box::{BoxN, Point};
use sot_text::Span;

/// How a tube of boxes leaves a region. Ticks count from 0.
#[derive(Clone, Copy, Debug, PartialEq, Eq)]
pub enum Leave {
    /// The box at this tick is not covered; `point` is its lexicographically least point outside
    /// the region.
    Out { tick: u32, area: BoxN, point: Point },
    /// The box at this tick is covered, and in the step to the next one some operands trap, first
    /// at this place.
    Trap { tick: u32, at: Span },
}
