//! What a decision gives.

ghost use Rattle.std.specs.Prelude.{◌≡◌, ◌<◌, ℕ, IsTrue, ◌↔◌};
ghost use Rattle.sot_lang.specs.declared.tables.ModuleInfo.{ModuleInfo};
ghost use Rattle.sot_lists.specs.Places.{At};
ghost use Rattle.sot_box.specs.Boxes.{point_box};
ghost use Rattle.sot_tube.specs.Calls.{MayFollow};
ghost use Rattle.sot_world.specs.Configurations.{Ac};
ghost use Rattle.sot_world.specs.Changes.{IsNextMode};

use crate::answers::Answers;
use crate::mode::Mode;
use sot_box::Point;

/// The mode of a module whose advanced node is trusted or not.
pub fn mode_by(trusted: bool) -> Mode
    ensures { (result ≡ Ac) ↔ IsTrue trusted }
{
    if trusted { Mode::Ac } else { Mode::Sc }
}

/// The mode after a module's decision, from this mode and with its plant at this point. The
/// advanced node is trusted from the safer region on, for as long as the tube of two periods, each
/// longer by the jitter, is inside the safe region.
pub fn next_mode(answers: &mut Answers<'_>, module: u32, mode: Mode, s: &Point) -> Mode
    requires follow { MayFollow answers.old.program «module» (point_box s.now) }
    requires jitter { answers.old.cert.jitter < 1000 }
    ensures mode { (a : ModuleInfo) → At answers.old.program.modules «module» a
        → IsNextMode answers.old.program answers.old.cert.jitter a mode s.now result }
    ensures same { answers.new ≡ answers.old }
{
    match mode {
        Mode::Ac => mode_by(answers.keeps(module, s)),
        Mode::Sc => {
            let p = answers.typed();
            mode_by(p.modules[module as usize].safer.has(s))
        }
    }
}
