//! The double integrator: a run into a corner of its safe region. All numbers were worked out by hand, and again by a program that was written from the rules alone.

ghost use Rattle.std.specs.Prelude.{◌≡◌, ◌∷◌, [], pos, negsuc, IfOk};
ghost use Rattle.sot_worked_missions.specs.Double.{IsDouble};

use super::drive::step;
use super::same;
use super::worlds::{accepted, draft};
use crate::double_cert;
use sot_box::Point;
use sot_lang::Typed;
use sot_tube::Accepted;
use sot_worked_missions::double;
use sot_world::{Event, OpenFail, World};
use std::alloc::Global;
use std::process::Abort;

// A place and a speed.
fn moving(place: i64, speed: i64) -> Point
    ensures { result ≡ place ∷ speed ∷ [] }
{
    Point::of(&[place, speed]).unwrap()
}

// Opens the arm at a corner of the safer region.
fn opened<'a>(alloc: Global, p: &Typed, acc: &'a Accepted<'a>) -> Result<World<'a>, OpenFail>
    requires program { acc.now.program ≡ p.now }
    requires arm { IsDouble (negsuc 168) (pos 169) p.now }
    ensures { IfOk result (λ w. w.accepted.program ≡ p.now) }
{
    let world = World::open(alloc, acc, &[moving(169, 2)])?;
    Ok(world)
}

// The greatest command and disturbance, each time before the decision, so that the command still
// holds for a period after it.
fn event(i: usize) -> Event<'static> {
    match i {
        0 | 7 => Event::Decide { module: 0 },
        1 | 6 => Event::Guest {
            node: 0,
            draft: draft(2),
        },
        2 | 5 => Event::Code { node: 1 },
        _ => Event::Tick { noise: &[1] },
    }
}

// The time and the arm after these events, none of which is refused.
fn ran(rt: &impl Abort, alloc: Global, p: &Typed, acc: &Accepted<'_>) -> (u32, Point)
    requires program { acc.now.program ≡ p.now }
    requires arm { IsDouble (negsuc 168) (pos 169) p.now }
{
    let Ok(mut w) = opened(alloc, p, acc) else {
        panic!(rt; "the arm opens");
    };
    for i in 0..10 {
        step(rt, p, &mut w, &event(i));
    }
    (w.time(), w.state(0))
}

#[test]
fn the_corner_is_reached_and_safe(rt: HostRuntime) {
    let alloc = rt.alloc();
    let p = double(alloc, -169, 169).expect(&rt, "memory");
    let c = double_cert(alloc, -169, 169).expect(&rt, "memory");
    let acc = accepted(&rt, &p, &c);
    let after = ran(&rt, alloc, &p, &acc);
    same(&rt, "after", after, (4, moving(195, 14)));
}
