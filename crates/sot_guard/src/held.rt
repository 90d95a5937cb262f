//! Which plants the commands in force hold safe until their modules' safe nodes fire.

ghost use Rattle.std.specs.Prelude.{◌≡◌, ℕ, ◌+◌, ◌<◌, ◌≤◌, ◌++◌, length, map, pos};
ghost use Rattle.std.specs.Prelude.{slice_index_or, true, MatchOption};
ghost use Rattle.sot_lists.specs.Places.{At};
ghost use Rattle.sot_box.specs.Boxes.{point_box};
ghost use Rattle.sot_tube.specs.Calls.{MayFollow, AreCommands};
ghost use Rattle.sot_world.specs.Changes.{ArePoints};
ghost use Rattle.sot_guard.specs.HeldParts.{AnswersHeld, AnswersAt, IsFirstAnswer, MayBeHeld};

use crate::due::ticks_until;
use crate::outside::put_commands;
use sot_box::{Interval, Point};
use sot_iv::Ranges;
use sot_lang::{ScalarInfo, Typed};
use sot_tube::{box_at, held_inside};

// The numbers of a plant's inputs as they are declared, behind the others.
fn put_first_commands(inputs: &[u32], scalars: &[ScalarInfo], sides: &mut Ranges)
    requires there { (i k : ℕ) → At inputs.now i k → k < length scalars.now }
    requires room { length sides.old + length inputs.now ≤ 80 }
    ensures { sides.new ≡ sides.old
        ++ point_box (map (λ k. slice_index_or (map (λ i. i.init) scalars.now) k (pos 0))
        inputs.now) }
{
    for i in 0..inputs.len() {
        let x = scalars[inputs[i] as usize].init;
        sides.push(Interval { lo: x, hi: x });
    }
}

// Whether these commands hold a module's plant safe from a point, until the module's safe node
// surely fires.
fn is_held(p: &Typed, module: u32, jitter: u32, time: u64, held: &[Interval], s: &Point) -> bool
    requires follow { MayFollow p.now «module» (point_box s.now) }
    requires commands { AreCommands p.now «module» held.now }
    requires jitter { jitter < 1000 }
    ensures { AnswersHeld p.now jitter time held.now s.now «module» result }
{
    let info = &p.modules[module as usize];
    let node = &p.nodes[info.sc as usize];
    let ticks = ticks_until(node.period, node.offset, jitter, time);
    held_inside(p, module, &box_at(s), held, ticks).is_ok()
}

// Whether the present commands hold a module's plant safe.
fn is_held_now(
    p: &Typed,
    module: u32,
    jitter: u32,
    time: u64,
    scalars: &[i64],
    points: &[Point],
) -> bool
    requires there { «module» < length p.now.modules }
    requires may { MayBeHeld p.now jitter points.now }
    requires scalars { length scalars.now ≡ length p.now.scalars }
    ensures { AnswersAt p.now jitter time scalars.now points.now «module» result }
{
    let plant = p.modules[module as usize].plant as usize;
    let mut held = Ranges::none();
    put_commands(&p.plants[plant].inputs, scalars, &mut held);
    is_held(p, module, jitter, time, held.as_slice(), &points[plant])
}

// Whether the first commands hold a module's plant safe, where all begins at a time.
fn is_held_first(p: &Typed, module: u32, jitter: u32, time: u64, points: &[Point]) -> bool
    requires there { «module» < length p.now.modules }
    requires may { MayBeHeld p.now jitter points.now }
    ensures { AnswersAt p.now jitter time (map (λ i. i.init) p.now.scalars) points.now «module»
        result }
{
    let plant = p.modules[module as usize].plant as usize;
    let mut held = Ranges::none();
    put_first_commands(&p.plants[plant].inputs, &p.scalars, &mut held);
    is_held(p, module, jitter, time, held.as_slice(), &points[plant])
}

/// The first module whose plant the present commands do not hold safe until its safe node fires,
/// where exactly what is due is left. Takes no memory.
pub(crate) fn first_unheld(
    p: &Typed,
    jitter: u32,
    time: u64,
    scalars: &[i64],
    points: &[Point],
) -> Option<u32>
    requires may { MayBeHeld p.now jitter points.now }
    requires scalars { length scalars.now ≡ length p.now.scalars }
    ensures { MatchOption result
        ((m : ℕ) → AnswersAt p.now jitter time scalars.now points.now m true)
        (λ m. IsFirstAnswer p.now jitter time scalars.now points.now m) }
{
    let count = p.modules.len() as u32;
    for module in 0..count {
        if !is_held_now(p, module, jitter, time, scalars, points) {
            return Some(module);
        }
    }
    None
}

/// The first module whose plant the first commands do not hold safe until its safe node fires, where
/// all begins at a time. Takes no memory.
pub(crate) fn first_unheld_start(p: &Typed, jitter: u32, time: u64, points: &[Point]) -> Option<u32>
    requires { MayBeHeld p.now jitter points.now }
    ensures { MatchOption result
        ((m : ℕ) → AnswersAt p.now jitter time (map (λ i. i.init) p.now.scalars) points.now m true)
        (λ m. IsFirstAnswer p.now jitter time (map (λ i. i.init) p.now.scalars) points.now m) }
{
    let count = p.modules.len() as u32;
    for module in 0..count {
        if !is_held_first(p, module, jitter, time, points) {
            return Some(module);
        }
    }
    None
}
