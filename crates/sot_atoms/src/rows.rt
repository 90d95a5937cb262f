//! The bytes of the atoms of a block, row by row: the last axis runs fastest.

ghost use Rattle.std.specs.Prelude.{◌≡◌, ◌≢◌, ℕ, List, ◌+◌, ◌*◌, ◌<◌, ◌≤◌, length, slice_index};
ghost use Rattle.std.specs.Prelude.{IsTrue, ◌↔◌, ◌⊎◌};
ghost use Rattle.sot_atoms.specs.Blocks.{FitsAxes, atom_count};
ghost use Rattle.sot_atoms.specs.Rows.{Lacks, EachLacks, Fills, EachFills};

use crate::axis::Axis;
use crate::block::Stretch;
use memchr::memchr;

/// Whether a block has atoms, all of which the axes have.
pub(crate) fn fits(axes: &[Axis], sides: &[Stretch]) -> bool
    ensures { IsTrue result ↔ FitsAxes axes.now sides.now }
{
    let Some((axis, inner)) = axes.split_first() else {
        return sides.is_empty();
    };
    let Some((side, within)) = sides.split_first() else {
        return false;
    };
    side.from <= side.to && side.to < axis.size && fits(inner, within)
}

// Whether no byte of a row is this one.
fn row_lacks(byte: u8, bytes: &[u8], from: usize, to: usize) -> bool
    requires order { from ≤ to }
    requires there { to < length bytes.now }
    ensures { IsTrue result ↔ ((k : ℕ) → from ≤ k → k ≤ to → slice_index bytes.now k ≢ byte) }
{
    match memchr(byte, &bytes[from..to + 1]) {
        None => true,
        Some(_found) => false,
    }
}

/// Whether no atom of a block has this byte. So many atoms come before on the axes before these.
#[cycle(lacks)]
pub(crate) fn lacks(byte: u8, bytes: &[u8], axes: &[Axis], sides: &[Stretch], before: usize) -> bool
    requires fits { FitsAxes axes.now sides.now }
    requires room { (before + 1) * atom_count axes.now ≤ length bytes.now }
    ensures { IsTrue result ↔ Lacks byte bytes.now axes.now sides.now before }
{
    let Some((axis, inner)) = axes.split_first() else {
        return bytes[before] != byte;
    };
    let Some((side, within)) = sides.split_first() else {
        return true;
    };
    if inner.is_empty() {
        let from = before * axis.size + side.from;
        return row_lacks(byte, bytes, from, from + (side.to - side.from));
    }
    each_lacks(byte, bytes, axis.size, *side, inner, within, before)
}

// Whether no atom of a block has this byte, where its first stretch lies on an axis of so many
// places.
#[cycle(lacks)]
fn each_lacks(
    byte: u8,
    bytes: &[u8],
    size: usize,
    side: Stretch,
    inner: &[Axis],
    within: &[Stretch],
    before: usize,
) -> bool
    requires order { side.from ≤ side.to }
    requires inside { side.to < size }
    requires fits { FitsAxes inner.now within.now }
    requires room { (before + 1) * (size * atom_count inner.now) ≤ length bytes.now }
    ensures { IsTrue result ↔ EachLacks byte bytes.now size side inner.now within.now before }
{
    for a in side.from..side.to + 1 {
        if !lacks(byte, bytes, inner, within, before * size + a) {
            return false;
        }
    }
    true
}

// Writes a byte into a row.
fn fill_row(byte: u8, bytes: &mut [u8], from: usize, to: usize)
    requires order { from ≤ to }
    requires there { to < length bytes.old }
    ensures inside { (k : ℕ) → from ≤ k → k ≤ to → slice_index bytes.new k ≡ byte }
    ensures outside { (k : ℕ) → (k < from) ⊎ (to < k)
        → slice_index bytes.new k ≡ slice_index bytes.old k }
{
    for k in from..to + 1 {
        bytes[k] = byte;
    }
}

/// Writes a byte for each atom of a block. So many atoms come before on the axes before these.
#[cycle(fill)]
pub(crate) fn fill(byte: u8, bytes: &mut [u8], axes: &[Axis], sides: &[Stretch], before: usize)
    requires fits { FitsAxes axes.now sides.now }
    requires room { (before + 1) * atom_count axes.now ≤ length bytes.old }
    ensures { Fills byte bytes.old bytes.new axes.now sides.now before }
{
    let Some((axis, inner)) = axes.split_first() else {
        fill_row(byte, bytes, before, before);
        return;
    };
    let Some((side, within)) = sides.split_first() else {
        return;
    };
    if inner.is_empty() {
        let from = before * axis.size + side.from;
        fill_row(byte, bytes, from, from + (side.to - side.from));
        return;
    }
    each_fill(byte, bytes, axis.size, *side, inner, within, before);
}

// Writes this byte for each atom of a block whose first stretch lies on an axis of so many places.
#[cycle(fill)]
fn each_fill(
    byte: u8,
    bytes: &mut [u8],
    size: usize,
    side: Stretch,
    inner: &[Axis],
    within: &[Stretch],
    before: usize,
)
    requires order { side.from ≤ side.to }
    requires inside { side.to < size }
    requires fits { FitsAxes inner.now within.now }
    requires room { (before + 1) * (size * atom_count inner.now) ≤ length bytes.old }
    ensures { EachFills byte bytes.old bytes.new size side.from (side.to + 1) inner.now within.now
        before }
{
    for a in side.from..side.to + 1 {
        fill(byte, bytes, inner, within, before * size + a);
    }
}

/// Writes 0 into each byte in whose place another list has a byte that is not 0.
pub(crate) fn clear(bytes: &mut [u8], others: &[u8])
    ensures { (k : ℕ) → (slice_index bytes.new k ≡ slice_index bytes.old k)
        ⊎ (slice_index bytes.new k ≡ 0) }
{
    let both = bytes.len().min(others.len());
    for k in 0..both {
        bytes[k] = if others[k] == 0 { bytes[k] } else { 0 };
    }
}

/// So many bytes of 0 or 1 are added up in a byte, many at a time.
pub(crate) const FEW: usize = 240;

// How many of a few bytes are 1, where all are 0 or 1.
fn few_ones(bytes: &[u8]) -> u8 {
    let mut count = 0u8;
    for byte in bytes {
        count = count.wrapping_add(*byte);
    }
    count
}

/// How many of these bytes are 1, where all are 0 or 1.
pub(crate) fn ones(bytes: &[u8]) -> usize {
    let mut count = 0usize;
    for few in bytes.chunks(FEW) {
        count = count.wrapping_add(few_ones(few) as usize);
    }
    count
}

// How many bytes of a row are 1.
fn row_ones(bytes: &[u8], from: usize, to: usize) -> usize
    requires order { from ≤ to }
    requires there { to < length bytes.now }
{
    ones(&bytes[from..to + 1])
}

/// How many atoms of a block have the byte 1. So many atoms come before on the axes before these.
#[cycle(count)]
pub(crate) fn count(bytes: &[u8], axes: &[Axis], sides: &[Stretch], before: usize) -> usize
    requires fits { FitsAxes axes.now sides.now }
    requires room { (before + 1) * atom_count axes.now ≤ length bytes.now }
{
    let Some((axis, inner)) = axes.split_first() else {
        return bytes[before] as usize;
    };
    let Some((side, within)) = sides.split_first() else {
        return 0;
    };
    if inner.is_empty() {
        let from = before * axis.size + side.from;
        return row_ones(bytes, from, from + (side.to - side.from));
    }
    each_count(bytes, axis.size, *side, inner, within, before)
}

// How many atoms of a block have the byte 1, where its first stretch lies on an axis of so many
// places.
#[cycle(count)]
fn each_count(
    bytes: &[u8],
    size: usize,
    side: Stretch,
    inner: &[Axis],
    within: &[Stretch],
    before: usize,
) -> usize
    requires order { side.from ≤ side.to }
    requires inside { side.to < size }
    requires fits { FitsAxes inner.now within.now }
    requires room { (before + 1) * (size * atom_count inner.now) ≤ length bytes.now }
{
    let mut found = 0usize;
    for a in side.from..side.to + 1 {
        found = found.wrapping_add(count(bytes, inner, within, before * size + a));
    }
    found
}
