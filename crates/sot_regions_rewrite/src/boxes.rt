//! Boxes as they are written.

ghost use Rattle.std.specs.Prelude.{◌≡◌, map, IfOk};
ghost use Rattle.sot_syntax_tree.specs.TreeViews.{area_view};
ghost use Rattle.sot_regions_rewrite.specs.OtherRegions.{end_like, bounds_like, area_like};
ghost use Rattle.sot_regions_rewrite.specs.OtherRegions.{areas_like};

use sot_box::{BoxN, Interval, Region};
use sot_syntax_tree::{Bounds, BoxDecl, Lit};
use std::alloc::{AllocError, Global};

fn end_like(given: Lit, mantissa: i64) -> Lit
    ensures { result ≡ end_like given mantissa }
{
    Lit {
        mantissa,
        scale: given.scale,
        at: given.at,
    }
}

fn bounds_like(given: Bounds, side: Interval) -> Bounds
    ensures { result ≡ bounds_like given side }
{
    Bounds {
        lo: end_like(given.lo, side.lo),
        hi: end_like(given.hi, side.hi),
    }
}

// A box that is written as a given one is.
fn box_like(alloc: Global, given: &BoxDecl, found: &BoxN) -> Result<BoxDecl, AllocError>
    ensures { IfOk result (λ b. area_view b ≡ area_like (area_view given.now) found.now) }
{
    let mut sides = Vec::new(alloc);
    let count = given.sides.len().min(found.len());
    for i in 0..count {
        sides.push(bounds_like(given.sides[i], found.side(i)))?;
    }
    Ok(BoxDecl {
        sides,
        at: given.at,
    })
}

/// The boxes of a region, written as the first of the given boxes is; none, where there is none.
pub(crate) fn boxes_like(
    alloc: Global,
    given: &[BoxDecl],
    found: &Region,
) -> Result<Vec<BoxDecl>, AllocError>
    ensures { IfOk result (λ v. map area_view v.items
        ≡ areas_like (map area_view given.now) found.now.boxes) }
{
    let mut boxes = Vec::new(alloc);
    if given.len() == 0 {
        return Ok(boxes);
    }
    for i in 0..found.len() {
        let like = box_like(alloc, &given[0], &found.at(i))?;
        boxes.push(like)?;
    }
    Ok(boxes)
}
