//! The region of a list of boxes.
ghost use Rattle.std.specs.Prelude.{◌≡◌, ◌<◌, ◌≤◌, length, map, true, IfOk};
ghost use Rattle.std.specs.List.{All};
ghost use Rattle.sot_syntax_tree.specs.TreeViews.{area_view};
ghost use Rattle.sot_typing.specs.Resolved.{side_of};
ghost use Rattle.sot_typing.specs.Parts.{AreaFits, SideFits};

use sot_box::{BoxN, Interval, Region};
use sot_syntax_tree::{Bounds, BoxDecl};
use std::alloc::{AllocError, Global};

fn side(b: Bounds) -> Interval
    requires { SideFits b }
    ensures { result ≡ side_of b }
{
    Interval {
        lo: b.lo.mantissa,
        hi: b.hi.mantissa,
    }
}

fn box_of(alloc: Global, sides: &[Bounds]) -> Result<BoxN, AllocError>
    requires some { 0 < length sides.now }
    requires few { length sides.now ≤ 4 }
    requires sides { All SideFits sides.now }
    ensures { IfOk result (λ b. b ≡ map side_of sides.now) }
{
    let mut intervals = Vec::new(alloc);
    for b in sides {
        intervals.push(side(*b))?;
    }
    match BoxN::of(&intervals) {
        Some(b) => Ok(b),
        None => unreachable!(),
    }
}

/// A region of boxes with so many sides, in their order, with its index.
pub fn region(alloc: Global, width: usize, boxes: &[BoxDecl]) -> Result<Region, AllocError>
    requires some { 0 < width }
    requires few { width ≤ 4 }
    requires boxes { All (λ b. AreaFits width (area_view b)) boxes.now }
    ensures { IfOk result (λ r. r
        ≡ record {
          width = width;
          boxes = map
              (λ a. map side_of a.sides) (map area_view boxes.now);
          settled = true;
        }) }
{
    let mut region = Region::none(alloc, width);
    for b in boxes {
        let sides = box_of(alloc, &b.sides)?;
        region.push(sides).map_err(|_| AllocError)?;
    }
    region.settle()?;
    Ok(region)
}
