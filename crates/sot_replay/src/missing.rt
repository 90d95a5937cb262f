//! Lines that stop before the end line.

ghost use Rattle.std.specs.Prelude.{◌≡◌};
ghost use Rattle.sot_replay.specs.declared.fail.LineKind.TheVariants.{Missing as Lacks};
ghost use Rattle.sot_replay.specs.declared.fail.ReplayFail.TheVariants.{Line as At};

use crate::fail::{LineKind, ReplayFail};
use sot_trace_lines::Lines;

/// The next line is missing.
pub fn missing(lines: &Lines<'_>) -> ReplayFail
    ensures { result ≡ At lines.now.number Lacks }
{
    ReplayFail::Line {
        line: lines.number(),
        kind: LineKind::Missing,
    }
}
