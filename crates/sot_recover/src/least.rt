//! The least rank whose cells cover a region.

ghost use Rattle.std.specs.Prelude.{ℕ, List, [], ◌∷◌, ◌++◌, ◌≡◌, ◌<◌, ◌≤◌, length, nat_le};
ghost use Rattle.std.specs.Prelude.{if◌then◌else◌, slice_index_or, IfOk, IfErr, OnOk, MatchOption};
ghost use Rattle.sot_box.specs.Regions.{CoversAll, IsFirstGap};
ghost use Rattle.sot_recover.specs.Answers.{IfNever};
ghost use Rattle.sot_recover.specs.Near.{AreOfWidth};
ghost use Rattle.sot_recover.specs.Chosen.{chosen, IsHalf, IsLeastCover};

use crate::fail::RecoverFail;
use crate::index::BoxIndex;
use sot_box::{BoxN, Point, Region, uncovered};
use std::alloc::{AllocError, Global};

// Pushes a box, if it is to be there.
fn push_where(region: &mut Region, wanted: bool, b: BoxN) -> Result<(), AllocError>
    requires { length b ≡ region.old.width }
    ensures boxes { OnOk result (region.new.boxes
        ≡ (if wanted then region.old.boxes ++ b ∷ [] else region.old.boxes)) }
    ensures width { region.new.width ≡ region.old.width }
{
    if !wanted {
        return Ok(());
    }
    match region.push(b) {
        Ok(()) => Ok(()),
        Err(_) => Err(AllocError),
    }
}

// The cells of rank `k` at most.
fn chosen_cells(
    alloc: Global,
    width: usize,
    cells: &BoxIndex,
    ranks: &[u32],
    k: u32,
) -> Result<Region, AllocError>
    requires widths { AreOfWidth width cells.now }
    requires count { length ranks.now ≡ length cells.now }
    ensures boxes { IfOk result (λ r. r.boxes ≡ chosen cells.now ranks.now k) }
    ensures width { IfOk result (λ r. r.width ≡ width) }
{
    let mut by = Region::none(alloc, width);
    for i in 0..ranks.len() {
        push_where(&mut by, ranks[i] <= k, cells.at(i))?;
    }
    by.settle()?;
    Ok(by)
}

// The first point of the region that the cells of rank `k` at most leave out.
fn gap_of(
    alloc: Global,
    safe: &Region,
    width: usize,
    cells: &BoxIndex,
    ranks: &[u32],
    k: u32,
) -> Result<Option<Point>, AllocError>
    requires safe_width { safe.now.width ≡ width }
    requires widths { AreOfWidth width cells.now }
    requires count { length ranks.now ≡ length cells.now }
    ensures { IfOk result (λ o. MatchOption o
        (CoversAll safe.now.boxes (chosen cells.now ranks.now k))
        (λ s. IsFirstGap safe.now.boxes (chosen cells.now ranks.now k) s)) }
{
    let by = chosen_cells(alloc, width, cells, ranks, k)?;
    Ok(uncovered(safe, &by))
}

// Between which numbers the least one lies.
#[derive(Clone, Copy)]
struct Bounds {
    low: u32,
    high: u32,
}

// The half of the numbers in which the least one lies: up to the middle, if its cells cover the
// region, or above it.
fn half_of(
    alloc: Global,
    safe: &Region,
    width: usize,
    cells: &BoxIndex,
    ranks: &[u32],
    middle: u32,
    bounds: Bounds,
) -> Result<Bounds, AllocError>
    requires safe_width { safe.now.width ≡ width }
    requires widths { AreOfWidth width cells.now }
    requires count { length ranks.now ≡ length cells.now }
    requires order { middle < bounds.high }
    ensures { IfOk result (λ b. IsHalf safe.now.boxes cells.now ranks.now middle bounds.low
        bounds.high b.low b.high) }
{
    let gap = gap_of(alloc, safe, width, cells, ranks, middle)?;
    match gap {
        None => Ok(Bounds {
            low: bounds.low,
            high: middle,
        }),
        Some(_) => Ok(Bounds {
            low: middle + 1,
            high: bounds.high,
        }),
    }
}

// By halving: the least number whose cells cover the region, if that is so of `top`.
fn halve(
    alloc: Global,
    safe: &Region,
    width: usize,
    cells: &BoxIndex,
    ranks: &[u32],
    top: u32,
) -> Result<u32, AllocError>
    requires safe_width { safe.now.width ≡ width }
    requires widths { AreOfWidth width cells.now }
    requires count { length ranks.now ≡ length cells.now }
    requires top { CoversAll safe.now.boxes (chosen cells.now ranks.now top) }
    ensures { IfOk result (λ k. IsLeastCover safe.now.boxes cells.now ranks.now top k) }
{
    let mut bounds = Bounds { low: 0, high: top };
    while bounds.low < bounds.high {
        let middle = bounds.low + (bounds.high - bounds.low) / 2;
        bounds = half_of(alloc, safe, width, cells, ranks, middle, bounds)?;
    }
    Ok(bounds.high)
}

/// The least rank whose cells cover the region, or the first point that those of all ranks leave
/// out.
pub(crate) fn least_rank(
    alloc: Global,
    safe: &Region,
    width: usize,
    cells: &BoxIndex,
    ranks: &[u32],
    top: u32,
) -> Result<u32, RecoverFail>
    requires safe_width { safe.now.width ≡ width }
    requires widths { AreOfWidth width cells.now }
    requires count { length ranks.now ≡ length cells.now }
    ensures ok { IfOk result (λ k. IsLeastCover safe.now.boxes cells.now ranks.now top k) }
    ensures never { IfErr result (λ f.
        IfNever f (λ s. IsFirstGap safe.now.boxes (chosen cells.now ranks.now top) s)) }
{
    let gap = gap_of(alloc, safe, width, cells, ranks, top)?;
    if let Some(point) = gap {
        return Err(RecoverFail::Never { point });
    }
    let rank = halve(alloc, safe, width, cells, ranks, top)?;
    Ok(rank)
}
