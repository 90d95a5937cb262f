//! Whether a tube of a module's plant is inside its safe region.

ghost use Rattle.sot_tube.specs.Calls.{MayFollow, AreCommands, AnswersTube, AnswersAnyTube};

use crate::leave::Leave;
use crate::walk::walk;
use sot_box::{BoxN, Interval};
use sot_iv::{Ranges, put_types, seen_hulls};
use sot_lang::Typed;

/// Whether the tube of a module's plant from a box, with commands in these intervals, one for each
/// input of the plant, is inside the module's safe region for so many ticks; else how it first
/// leaves. Takes no memory.
pub fn held_inside(
    p: &Typed,
    module: u32,
    b: &BoxN,
    held: &[Interval],
    ticks: u32,
) -> Result<(), Leave>
    requires follow { MayFollow p.now «module» b.now }
    requires commands { AreCommands p.now «module» held.now }
    ensures { AnswersTube p.now «module» held.now b.now ticks result }
{
    let info = &p.modules[module as usize];
    let plant = &p.plants[info.plant as usize];
    if plant.sees.is_empty() {
        // No room is cleared for hulls where there are none.
        return walk(p, info.plant, &info.safe, b, held, &[], ticks);
    }
    let seen = seen_hulls(p, &plant.sees);
    walk(p, info.plant, &info.safe, b, held, seen.as_slice(), ticks)
}

/// Whether the tube of a module's plant from a box, with commands anywhere in their types, is
/// inside the module's safe region for so many ticks; else how it first leaves. Takes no memory.
pub fn any_inside(p: &Typed, module: u32, b: &BoxN, ticks: u32) -> Result<(), Leave>
    requires { MayFollow p.now «module» b.now }
    ensures { AnswersAnyTube p.now «module» b.now ticks result }
{
    let info = &p.modules[module as usize];
    let plant = &p.plants[info.plant as usize];
    let mut types = Ranges::none();
    put_types(&p.scalars, &plant.inputs, &mut types);
    held_inside(p, module, b, types.as_slice(), ticks)
}
