//! Blocks of atoms: a stretch of places on each axis.

ghost use Rattle.std.specs.Prelude.{◌≡◌, ◌+◌, ◌-◌, ◌/◌, ◌<◌, length, slice_set, MatchOption};
ghost use Rattle.sot_lists.specs.Places.{At};
ghost use Rattle.sot_atoms.specs.Blocks.{AreHalves, IsOneAtom, IsLongest};

use std::marker::Model;

/// Places of an axis, from the first to the last.
#[derive(Clone, Copy, PartialEq, Eq, Debug)]
pub struct Stretch {
    pub from: usize,
    pub to: usize,
}

/// A stretch of places on each of four axes. Axes that a plant does not have come first, and have
/// one place.
#[derive(Clone, Copy, PartialEq, Eq, Debug)]
pub struct Block {
    sides: [Stretch; 4],
}

impl Model for Block {
    ghost use Rattle.std.specs.Prelude.{◌≡◌, List, length};
    ghost use Rattle.sot_atoms.specs.declared.block.Stretch.{Stretch};
    ghost use Rattle.sot_atoms.specs.BlockSides.{sides_of, block_of, block_of-sides};

    ghost Value = { List Stretch };

    ghost view = { sides_of };

    ghost invariant = { λ b. length b.sides ≡ 4 };

    ghost inverse = { block_of };

    ghost inverse_ok = { block_of-sides };
}

/// The two halves of a block.
#[derive(Clone, Copy, PartialEq, Eq, Debug)]
pub struct BlockHalves {
    pub low: Block,
    pub high: Block,
}

impl Block {
    /// The block of these stretches.
    pub fn of(sides: [Stretch; 4]) -> Block
        ensures { result ≡ sides }
    {
        Block { sides }
    }

    /// The stretch on axis `k`.
    pub fn side(&self, k: usize) -> Stretch
        requires { k < 4 }
        ensures there { At self.now k result }
        ensures count { length self.now ≡ 4 }
    {
        let sides = &self.sides;
        sides[k]
    }

    /// The stretches, in order.
    pub(crate) fn sides(&self) -> &[Stretch]
        ensures value { result.now ≡ self.now }
        ensures count { length result.now ≡ 4 }
    {
        &self.sides
    }

    /// The same block with another stretch on axis `k`.
    pub fn with(&self, k: usize, side: Stretch) -> Block
        requires { k < 4 }
        ensures { result ≡ slice_set self.now k side }
    {
        let mut sides = self.sides;
        sides[k] = side;
        Block { sides }
    }
}

// How many places a stretch has, but one.
fn steps(side: Stretch) -> usize
    ensures { result ≡ side.to - side.from }
{
    side.to.saturating_sub(side.from)
}

// A stretch of a block, and its axis.
#[derive(Clone, Copy)]
struct CutSide {
    axis: usize,
    side: Stretch,
}

// The longest stretch, of equal ones the first.
fn longest(block: &Block) -> CutSide
    ensures axis { result.axis < 4 }
    ensures longest { IsLongest block.now result.axis result.side }
{
    let mut axis = 0;
    for k in 1..4 {
        if steps(block.side(axis)) < steps(block.side(k)) {
            axis = k;
        }
    }
    let side = block.side(axis);
    CutSide { axis, side }
}

// The place in the middle of a stretch.
fn middle(side: Stretch) -> usize
    requires { side.from < side.to }
    ensures { result ≡ side.from + (side.to - side.from) / 2 }
{
    side.from + (side.to - side.from) / 2
}

/// The halves of a block: its longest stretch, of equal ones the first, is cut behind its middle.
/// `None` exactly where it is one atom.
pub fn halves_of(block: &Block) -> Option<BlockHalves>
    ensures { MatchOption result (IsOneAtom block.now) (λ h. AreHalves block.now h.low h.high) }
{
    let found = longest(block);
    let side = found.side;
    if side.to <= side.from {
        return None;
    }
    let end = middle(side);
    Some(BlockHalves {
        low: block.with(
            found.axis,
            Stretch {
                from: side.from,
                to: end,
            },
        ),
        high: block.with(
            found.axis,
            Stretch {
                from: end + 1,
                to: side.to,
            },
        ),
    })
}

/// How many atoms a block has; as many as can be said where there are more than that.
pub fn atoms_in(block: &Block) -> u64 {
    let mut count = 1u64;
    for k in 0..4 {
        let side = block.side(k);
        let places = (steps(side) as u64).saturating_add(1);
        count = count.saturating_mul(places);
    }
    count
}
