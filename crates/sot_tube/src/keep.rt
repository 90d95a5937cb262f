//! Whether a module keeps its plant safe from a point on.

ghost use Rattle.std.specs.Prelude.{◌≡◌, ◌<◌, IsTrue, ◌↔◌};
ghost use Rattle.sot_lang.specs.declared.tables.ModuleInfo.{ModuleInfo};
ghost use Rattle.sot_lists.specs.Places.{At};
ghost use Rattle.sot_box.specs.Boxes.{point_box};
ghost use Rattle.sot_tube.specs.Tubes.{Keeps};
ghost use Rattle.sot_tube.specs.Calls.{MayFollow};

use crate::tube::any_inside;
use sot_box::{BoxN, Interval, Point};
use sot_iv::Ranges;
use sot_lang::Typed;

/// The box that holds one point alone.
pub fn box_at(s: &Point) -> BoxN
    ensures { result ≡ point_box s.now }
{
    let mut sides = Ranges::none();
    for i in 0..s.len() {
        let x = s.at(i);
        sides.push(Interval { lo: x, hi: x });
    }
    BoxN::of(sides.as_slice()).unwrap()
}

/// Whether a module keeps its plant inside its safe region from a point on for two of its periods,
/// each longer by the jitter, whatever the commands: the tube of so many ticks from the box of that
/// point is inside. Takes no memory.
pub fn keeps(p: &Typed, module: u32, s: &Point, jitter: u32) -> bool
    requires follow { MayFollow p.now «module» (point_box s.now) }
    requires jitter { jitter < 1000 }
    ensures { (a : ModuleInfo) → At p.now.modules «module» a
        → IsTrue result ↔ Keeps p.now jitter a s.now }
{
    let period = p.modules[module as usize].period;
    any_inside(p, module, &box_at(s), 2 * (period + jitter)).is_ok()
}
