//! Plants that do not all start inside their modules' safer regions.

ghost use Rattle.std.specs.Prelude.{◌≡◌, length, IfOk};
ghost use Rattle.sot_world.specs.Opens.{IsFirstOutside};
ghost use Rattle.sot_cli.specs.Starts.{IsOutsideLine};

use crate::answer::Answer;
use sot_box::Point;
use sot_lang::Typed;
use sot_report::start_text;
use std::alloc::{AllocError, Global};

/// The line of starts, one point for each plant, that are refused: the plant of this module starts
/// outside the module's safer region, and those of the modules before it inside.
pub fn outside_line(
    alloc: Global,
    p: &Typed,
    starts: &[Point],
    module: u32,
) -> Result<Vec<u8>, AllocError>
    requires all { length starts.now ≡ length p.now.plants }
    requires first { IsFirstOutside p.now starts.now «module» }
    ensures { IfOk result (λ line. IsOutsideLine p.now starts.now line.items) }
{
    let plant = p.modules[module as usize].plant;
    let line = start_text(alloc, p, module, &starts[plant as usize])?;
    Ok(line)
}

/// Status 1: that line.
pub fn outside(
    alloc: Global,
    p: &Typed,
    starts: &[Point],
    module: u32,
) -> Result<Answer, AllocError>
    requires all { length starts.now ≡ length p.now.plants }
    requires first { IsFirstOutside p.now starts.now «module» }
    ensures status { IfOk result (λ answer. answer.status ≡ 1) }
    ensures text { IfOk result (λ answer. IsOutsideLine p.now starts.now answer.text.items) }
{
    let text = outside_line(alloc, p, starts, module)?;
    Ok(Answer { status: 1, text })
}
