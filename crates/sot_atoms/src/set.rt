//! Sets of atoms.

ghost use Rattle.std.specs.Prelude.{◌≡◌, ◌<◌, ℕ, length, slice_index, IfOk, IfSome, IsTrue, ◌↔◌};
ghost use Rattle.sot_atoms.specs.Blocks.{atom_count};
ghost use Rattle.sot_atoms.specs.Rows.{Fills};
ghost use Rattle.sot_atoms.specs.Sets.{SetFits, AllMembers, NoMembers, IsPut, IsTaken};
ghost use Rattle.sot_atoms.specs.Sets.{IsNextMember};

use crate::block::Block;
use crate::grid::Grid;
use crate::rows::{FEW, clear, count, fill, fits, lacks, ones};
use memchr::memchr;
use std::alloc::{AllocError, Global};
use std::marker::Model;

/// A set of atoms of a grid: a byte for each, in the order in which they are counted, 1 for those
/// in the set and 0 for the others.
#[derive(Drop)]
pub struct AtomSet {
    bytes: Vec<u8>,
}

impl Model for AtomSet {
    ghost use Rattle.std.specs.Prelude.{ℕ, List, ◌<◌, slice_index};

    ghost Value = { List ℕ };

    ghost view = { λ s. s.bytes.items };

    ghost invariant = { λ s. (k : ℕ) → slice_index s.bytes.items k < 2 };
}

impl AtomSet {
    /// No atom of a grid.
    pub fn none(alloc: Global, grid: &Grid) -> Result<AtomSet, AllocError>
        ensures size { IfOk result (λ s. length s ≡ atom_count grid.now.axes) }
        ensures empty { IfOk result (λ s. (k : ℕ) → slice_index s k ≡ 0) }
    {
        let bytes = vec![in alloc; 0u8; grid.total()]?;
        Ok(AtomSet { bytes })
    }

    /// The bytes of the atoms.
    pub(crate) fn bytes(&self) -> &[u8]
        ensures { result.now ≡ self.now }
    {
        &self.bytes
    }

    /// How many atoms the grid has.
    pub fn len(&self) -> usize
        ensures { result ≡ length self.now }
    {
        self.bytes.len()
    }

    // Whether this is a set of atoms of the grid, and the block is one of it.
    fn is_for(&self, grid: &Grid, block: &Block) -> bool
        ensures { IsTrue result ↔ SetFits grid.now.axes self.now block.now }
    {
        self.bytes.len() == grid.total() && fits(grid.axes(), block.sides())
    }

    /// Whether each atom of a block is in the set; false of a block or a set of another grid.
    pub fn has_all(&self, grid: &Grid, block: &Block) -> bool
        ensures { SetFits grid.now.axes self.now block.now
            → IsTrue result ↔ AllMembers grid.now.axes self.now block.now }
    {
        if !self.is_for(grid, block) {
            return false;
        }
        lacks(0, &self.bytes, grid.axes(), block.sides(), 0)
    }

    /// Whether no atom of a block is in the set; false of a block or a set of another grid.
    pub fn has_none(&self, grid: &Grid, block: &Block) -> bool
        ensures { SetFits grid.now.axes self.now block.now
            → IsTrue result ↔ NoMembers grid.now.axes self.now block.now }
    {
        if !self.is_for(grid, block) {
            return false;
        }
        lacks(1, &self.bytes, grid.axes(), block.sides(), 0)
    }

    // Writes a byte for each atom of a block.
    fn write(&mut self, byte: u8, grid: &Grid, block: &Block)
        requires { byte < 2 }
        ensures size { length self.new ≡ length self.old }
        ensures written { SetFits grid.now.axes self.old block.now
            → Fills byte self.old self.new grid.now.axes block.now 0 }
    {
        if self.is_for(grid, block) {
            fill(byte, &mut self.bytes, grid.axes(), block.sides(), 0);
        }
    }

    /// Puts the atoms of a block into the set; nothing of a block of another grid.
    pub fn put(&mut self, grid: &Grid, block: &Block)
        ensures size { length self.new ≡ length self.old }
        ensures put { SetFits grid.now.axes self.old block.now
            → IsPut grid.now.axes self.old self.new block.now }
    {
        self.write(1, grid, block);
    }

    /// Takes the atoms of a block out of the set; nothing of a block of another grid.
    pub fn take(&mut self, grid: &Grid, block: &Block)
        ensures size { length self.new ≡ length self.old }
        ensures taken { SetFits grid.now.axes self.old block.now
            → IsTaken grid.now.axes self.old self.new block.now }
    {
        self.write(0, grid, block);
    }

    /// Takes the atoms of another set of the same grid out of the set.
    pub fn take_those(&mut self, other: &AtomSet)
        ensures size { length self.new ≡ length self.old }
        ensures fewer { (k : ℕ) → slice_index self.new k ≡ 1 → slice_index self.old k ≡ 1 }
    {
        clear(&mut self.bytes, &other.bytes);
    }

    /// The number of the first atom in the set, of those from this number on.
    pub fn next(&self, from: usize) -> Option<usize>
        ensures { IsNextMember self.now from result }
    {
        let bytes = &self.bytes;
        if from >= bytes.len() {
            return None;
        }
        match memchr(1, &bytes[from..]) {
            None => None,
            Some(behind) => Some(from + behind),
        }
    }

    /// The same atoms, in a set of their own.
    pub fn copied(&self) -> Result<AtomSet, AllocError>
        ensures { IfOk result (λ s. s ≡ self.now) }
    {
        let bytes = self.bytes.clone()?;
        Ok(AtomSet { bytes })
    }

    /// How many atoms are in the set.
    pub fn members(&self) -> usize {
        ones(&self.bytes)
    }

    /// How many atoms of a block are in the set; none of a block or a set of another grid.
    pub fn count(&self, grid: &Grid, block: &Block) -> usize {
        if !self.is_for(grid, block) {
            return 0;
        }
        count(&self.bytes, grid.axes(), block.sides(), 0)
    }

    /// The numbers of some atoms in the set, in order: the first one, and after each the one that
    /// is so many behind it.
    pub fn spread(&self, alloc: Global, each: usize) -> Result<Vec<usize>, AllocError> {
        let mut numbers = Vec::new(alloc);
        let mut skipped = 0;
        let mut number = 0usize;
        for few in self.bytes.chunks(FEW) {
            let here = ones(few);
            if here <= skipped {
                skipped -= here;
                number = number.wrapping_add(few.len());
                continue;
            }
            for byte in few {
                if *byte == 1 {
                    if skipped == 0 {
                        numbers.push(number)?;
                        skipped = each;
                    }
                    skipped = skipped.saturating_sub(1);
                }
                number = number.wrapping_add(1);
            }
        }
        Ok(numbers)
    }
}
