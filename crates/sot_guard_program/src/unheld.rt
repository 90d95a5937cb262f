//! Plants that the first commands do not hold safe.

ghost use Rattle.std.specs.Prelude.{◌≡◌, ◌<◌, length, IfOk};
ghost use Rattle.sot_guard_program.specs.Tellings.{IsStartLine};

use sot_box::Point;
use sot_cli::Answer;
use sot_lang::Typed;
use sot_report::start_text;
use std::alloc::{AllocError, Global};

// The line that names a module, and where its plant was observed.
fn unheld_line(
    alloc: Global,
    p: &Typed,
    starts: &[Point],
    module: u32,
) -> Result<Vec<u8>, AllocError>
    requires all { length starts.now ≡ length p.now.plants }
    requires there { «module» < length p.now.modules }
    ensures { IfOk result (λ line. IsStartLine p.now starts.now «module» line.items) }
{
    let plant = p.modules[module as usize].plant;
    let line = start_text(alloc, p, module, &starts[plant as usize])?;
    Ok(line)
}

/// Status 1: that line.
pub(crate) fn unheld(
    alloc: Global,
    p: &Typed,
    starts: &[Point],
    module: u32,
) -> Result<Answer, AllocError>
    requires all { length starts.now ≡ length p.now.plants }
    requires there { «module» < length p.now.modules }
    ensures status { IfOk result (λ answer. answer.status ≡ 1) }
    ensures text { IfOk result (λ answer.
        IsStartLine p.now starts.now «module» answer.text.items) }
{
    let text = unheld_line(alloc, p, starts, module)?;
    Ok(Answer { status: 1, text })
}
