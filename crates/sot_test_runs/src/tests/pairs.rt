//! The vehicle beside a battery: one instant in all its orders.

// The vehicle beside a battery that sees it. All numbers were worked out by hand.
ghost use Rattle.std.specs.Prelude.{◌≡◌, ◌∷◌, [], pos, IfOk};
ghost use Rattle.sot_worked_missions.specs.Pair.{IsPair};

use super::drive::step;
use super::same;
use super::worlds::{accepted, at, draft};
use crate::pair_cert;
use sot_box::Point;
use sot_lang::Typed;
use sot_tube::Accepted;
use sot_worked_missions::pair;
use sot_world::{Event, OpenFail, World};
use std::alloc::Global;
use std::process::Abort;

// A height and a battery.
fn charge(height: i64, battery: i64) -> Point
    ensures { result ≡ height ∷ battery ∷ [] }
{
    Point::of(&[height, battery]).unwrap()
}

// Opens the pair with the vehicle at 0, the height 10 and the battery at 42.
fn opened<'a>(alloc: Global, p: &Typed, acc: &'a Accepted<'a>) -> Result<World<'a>, OpenFail>
    requires program { acc.now.program ≡ p.now }
    requires pair { IsPair (pos 42) p.now }
    ensures { IfOk result (λ w. w.accepted.program ≡ p.now) }
{
    let world = World::open(alloc, acc, &[at(0), charge(10, 42)])?;
    Ok(world)
}

// What is due at first: both decisions, then the nodes. The advanced ones draft the most that is in
// their ranges.
fn event(i: usize) -> Event<'static> {
    match i {
        0 => Event::Decide { module: 0 },
        1 => Event::Decide { module: 1 },
        2 => Event::Guest {
            node: 0,
            draft: draft(2),
        },
        3 => Event::Code { node: 1 },
        4 => Event::Guest {
            node: 2,
            draft: draft(1),
        },
        _ => Event::Code { node: 3 },
    }
}

// The order of this number, of 720.
fn order(number: usize) -> [usize; 6] {
    let mut order = [0, 1, 2, 3, 4, 5];
    let mut rest = number;
    for i in 0..6 {
        let left = 6 - i;
        order.swap(i, i + rest % left);
        rest /= left;
    }
    order
}

// Whether `a` comes before `b` in an order.
fn is_before(order: &[usize; 6], a: usize, b: usize) -> bool {
    for i in 0..6 {
        if order[i] == a {
            return true;
        }
        if order[i] == b {
            return false;
        }
    }
    false
}

// Where the plants are after the first tick, with the greatest disturbances. No event is refused.
fn ticked(
    rt: &impl Abort,
    alloc: Global,
    p: &Typed,
    acc: &Accepted<'_>,
    order: &[usize; 6],
) -> (Point, Point)
    requires program { acc.now.program ≡ p.now }
    requires pair { IsPair (pos 42) p.now }
{
    let Ok(mut w) = opened(alloc, p, acc) else {
        panic!(rt; "the pair opens");
    };
    for i in 0..6 {
        step(rt, p, &mut w, &event(order[i]));
    }
    step(rt, p, &mut w, &Event::Tick { noise: &[1, 1] });
    (w.state(0), w.state(1))
}

// Where they should be. The command 2 stands where `fast` fires in mode Ac, and the height falls
// where `down` and `up` both fire in mode Sc.
fn wanted(order: &[usize; 6]) -> (Point, Point) {
    let x = if is_before(order, 0, 2) { 3 } else { 1 };
    let falls = is_before(order, 4, 1) && is_before(order, 5, 1);
    let h = if falls { 9 } else { 10 };
    (at(x), charge(h, 40))
}

// The plants are where they should be after the order of this number.
fn order_is_safe(rt: &impl Abort, alloc: Global, p: &Typed, acc: &Accepted<'_>, number: usize)
    requires program { acc.now.program ≡ p.now }
    requires pair { IsPair (pos 42) p.now }
{
    let order = order(number);
    let after = ticked(rt, alloc, p, acc, &order);
    same(rt, &order, after, wanted(&order));
}

#[test]
fn a_pair_is_safe_in_all_orders_of_an_instant(rt: HostRuntime) {
    let alloc = rt.alloc();
    let p = pair(alloc, 42).expect(&rt, "memory");
    let c = pair_cert(alloc, 42).expect(&rt, "memory");
    let acc = accepted(&rt, &p, &c);
    for number in 0..720 {
        order_is_safe(&rt, alloc, &p, &acc, number);
    }
}
