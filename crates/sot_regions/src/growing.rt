//! Blocks of which one end after another moves out.

ghost use Rattle.std.specs.Prelude.{◌<◌};

use sot_atoms::{Block, Stretch};
use std::alloc::{AllocError, Global};

/// Which end of a stretch moves.
#[derive(Clone, Copy)]
pub(crate) enum End {
    Upper,
    Lower,
}

/// A block whose stretch on axis `k` goes on for so many places more.
pub(crate) fn grown(block: &Block, k: usize, end: End, by: usize) -> Block
    requires { k < 4 }
{
    let side = block.side(k);
    let wider = match end {
        End::Upper => Stretch {
            from: side.from,
            to: side.to.saturating_add(by),
        },
        End::Lower => Stretch {
            from: side.from.saturating_sub(by),
            to: side.to,
        },
    };
    block.with(k, wider)
}

/// How many places there are behind an end of a block, inside another.
pub(crate) fn room(block: &Block, within: &Block, k: usize, end: End) -> usize
    requires { k < 4 }
{
    let side = block.side(k);
    let limit = within.side(k);
    match end {
        End::Upper => limit.to.saturating_sub(side.to),
        End::Lower => side.from.saturating_sub(limit.from),
    }
}

/// An order of the four axes.
#[derive(Clone, Copy)]
pub(crate) struct Order {
    axes: [usize; 4],
}

impl Order {
    /// The axis at place `i`.
    pub(crate) fn axis(&self, i: usize) -> usize
        requires { i < 4 }
        ensures { result < 4 }
    {
        let axes = &self.axes;
        axes[i] % 4
    }
}

// Whether each axis stands once, and the axes of one place first.
fn is_order(axes: &[usize; 4], single: usize) -> bool {
    for i in 0..4 {
        if i < single && axes[i] != i {
            return false;
        }
        for j in 0..i {
            if axes[i] == axes[j] {
                return false;
            }
        }
    }
    true
}

/// All orders of the axes of a grid of a hull of so many sides, in lexicographic order. The axes of
/// one place, on which nothing grows, come first.
pub(crate) fn orders(alloc: Global, width: usize) -> Result<Vec<Order>, AllocError> {
    let single = 4usize.saturating_sub(width);
    let mut orders = Vec::new(alloc);
    for number in 0..256usize {
        let axes = [number / 64, number / 16 % 4, number / 4 % 4, number % 4];
        if is_order(&axes, single) {
            orders.push(Order { axes })?;
        }
    }
    Ok(orders)
}
