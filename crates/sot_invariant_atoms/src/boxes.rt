//! The boxes of a held tube.

ghost use Rattle.std.specs.Prelude.{◌≡◌, length, All, IfOk, IfSome};
ghost use Rattle.sot_invariant_atoms.specs.Asking.{asked_width};

use crate::ask::ModuleAsk;
use crate::walk::Walk;
use sot_box::BoxN;
use std::alloc::{AllocError, Global};

// The boxes of a walk, up to one that is settled.
fn boxes_along(alloc: Global, walk: &mut Walk<'_>) -> Result<Option<Vec<BoxN>>, AllocError>
    ensures { IfOk result (λ found. IfSome found
        (λ v. All (λ b. length b ≡ length walk.old.area) v.items)) }
{
    let mut boxes = Vec::new(alloc);
    let ticks = walk.ticks();
    for _tick in 0..ticks {
        let Some(step) = walk.step() else {
            return Ok(None);
        };
        boxes.push(step.area)?;
        if step.settled {
            return Ok(Some(boxes));
        }
    }
    Ok(Some(boxes))
}

/// The boxes of the held tube of a box after the first, tick by tick, up to one that lies in the
/// box before it, as all later ones do. `None` where the safe node or a step may trap.
pub fn held_boxes(
    alloc: Global,
    ask: &ModuleAsk<'_>,
    area: &BoxN,
) -> Result<Option<Vec<BoxN>>, AllocError>
    requires { length area.now ≡ asked_width ask.now }
    ensures { IfOk result (λ found. IfSome found
        (λ v. All (λ b. length b ≡ asked_width ask.now) v.items)) }
{
    match Walk::held(ask, area) {
        None => Ok(None),
        Some(mut walk) => boxes_along(alloc, &mut walk),
    }
}
