//! What a decision gives.

ghost use Rattle.std.specs.Prelude.{◌<◌, ℕ};
ghost use Rattle.sot_lists.specs.Places.{At};
ghost use Rattle.sot_lang.specs.declared.tables.ModuleInfo.{ModuleInfo};
ghost use Rattle.sot_box.specs.Boxes.{point_box};
ghost use Rattle.sot_tube.specs.Calls.{MayFollow};
ghost use Rattle.sot_world.specs.Changes.{IsNextMode};
ghost use Rattle.sot_guard.specs.Running.{IsModeWhere};

use sot_box::Point;
use sot_lang::Typed;
use sot_tube::keeps;
use sot_world::{Mode, mode_by};

// The mode after a module's decision, from this mode and with its plant at this point.
fn next_mode(p: &Typed, jitter: u32, module: u32, mode: Mode, s: &Point) -> Mode
    requires follow { MayFollow p.now «module» (point_box s.now) }
    requires jitter { jitter < 1000 }
    ensures { (a : ModuleInfo) → At p.now.modules «module» a
        → IsNextMode p.now jitter a mode s.now result }
{
    match mode {
        Mode::Ac => mode_by(keeps(p, module, s, jitter)),
        Mode::Sc => mode_by(p.modules[module as usize].safer.has(s)),
    }
}

/// The mode after a module's decision, where its model is trusted; and else the mode before it.
pub(crate) fn mode_where(
    trusted: bool,
    p: &Typed,
    jitter: u32,
    module: u32,
    mode: Mode,
    s: &Point,
) -> Mode
    requires follow { MayFollow p.now «module» (point_box s.now) }
    requires jitter { jitter < 1000 }
    ensures { (a : ModuleInfo) → At p.now.modules «module» a
        → IsModeWhere trusted p.now jitter a mode s.now result }
{
    if trusted {
        next_mode(p, jitter, module, mode, s)
    } else {
        mode
    }
}
