//! What was found for a module, as lists that a program and a certificate can have.

ghost use Rattle.std.specs.Prelude.{◌≡◌, length, IfOk, IfSome, IsTrue};
ghost use Rattle.sot_certified_text.specs.ReadBack.{IsShort, AreShort};
ghost use Rattle.sot_regions_program.specs.Findings.{IsInside, AreBoxesFor, IsList, IsFinding};

use sot_box::{BoxN, Interval, Region, uncovered};
use sot_lang::{Cells, ModuleInfo};
use sot_regions::FoundRegions;
use sot_regions_rewrite::ModuleRegions;
use std::alloc::{AllocError, Global};

/// What was found for a module: its regions, and the cells that cover them.
#[derive(Drop)]
pub struct Finding {
    pub regions: ModuleRegions,
    pub cells: Cells,
}

// The most that an end may be in a text, and the least by its sign.
const MOST_END: i64 = 1_000_000_000_000;

fn is_short(side: Interval) -> bool
    ensures { IsTrue result → IsShort side }
{
    -MOST_END <= side.lo && side.hi <= MOST_END
}

// Whether all ends of a box are ends that a text may have.
fn are_short(b: &BoxN) -> bool
    ensures { IsTrue result → AreShort b.now }
{
    for i in 0..b.len() {
        if !is_short(b.side(i)) {
            return false;
        }
    }
    true
}

// The boxes as a region; none where one of them is not of so many axes, or has too long an end.
#[tactic(auto, using(crate::proofs::Boxes::more_boxes, crate::proofs::Boxes::no_boxes))]
fn region_of(alloc: Global, width: usize, boxes: &[BoxN]) -> Result<Option<Region>, AllocError>
    ensures { IfOk result (λ found. IfSome found (λ r. (r.width ≡ width)
        × (length r.boxes ≡ length boxes.now) × AreBoxesFor width r.boxes)) }
{
    let mut region = Region::none(alloc, width);
    for i in 0..boxes.len() {
        let b = boxes[i];
        if b.len() != width || !are_short(&b) {
            return Ok(None);
        }
        match region.push(b) {
            Ok(()) => {}
            Err(_) => return Err(AllocError),
        }
    }
    Ok(Some(region))
}

// The boxes as a region with its index, where there is one at least and at most `most`; none where
// one of them is not of so many axes, or has too long an end.
fn list_of(
    alloc: Global,
    width: usize,
    most: usize,
    boxes: &[BoxN],
) -> Result<Option<Region>, AllocError>
    ensures { IfOk result (λ found. IfSome found (λ r. IsList width most r)) }
{
    if boxes.len() == 0 || most < boxes.len() {
        return Ok(None);
    }
    match region_of(alloc, width, boxes)? {
        None => Ok(None),
        Some(mut region) => {
            region.settle()?;
            Ok(Some(region))
        }
    }
}

// Whether every point of one region is in another.
#[tactic(auto, using(crate::proofs::Boxes::all_inside))]
fn is_inside(found: &Region, given: &Region) -> bool
    requires { found.now.width ≡ given.now.width }
    ensures { IsTrue result → IsInside found.now given.now }
{
    uncovered(found, given).is_none()
}

/// What was found for a module, as lists; none where `safe` does not lie inside the given one, or
/// a list is not one that a program and a certificate can have.
pub fn finding_of(
    alloc: Global,
    given: &ModuleInfo,
    found: &FoundRegions,
) -> Result<Option<Finding>, AllocError>
    ensures { IfOk result (λ finding. IfSome finding (λ f.
        IsFinding given.now f.regions f.cells)) }
{
    if given.safe.len() == 0 {
        return Ok(None);
    }
    let width = given.safe.at(0).len();
    let Some(safe) = list_of(alloc, width, 256, &found.safe)? else {
        return Ok(None);
    };
    if !is_inside(&safe, &given.safe) {
        return Ok(None);
    }
    let Some(safer) = list_of(alloc, width, 256, &found.safer)? else {
        return Ok(None);
    };
    let Some(closed) = list_of(alloc, width, 4096, &found.cells)? else {
        return Ok(None);
    };
    let Some(reach) = list_of(alloc, width, 4096, &found.safer)? else {
        return Ok(None);
    };
    Ok(Some(Finding {
        regions: ModuleRegions { safe, safer },
        cells: Cells { closed, reach },
    }))
}
