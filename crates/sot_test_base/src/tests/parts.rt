//! Ends and widths of boxes and points, the parts of a region that is settled or not, and locals.

use super::same;
use sot_box::{BoxN, Interval, Point, Region};
use sot_code::Locals;

#[test]
fn ends_and_widths_are_tested(rt: HostRuntime) {
    let one = Interval::new(-3, -3).expect(&rt, "one");
    same(&rt, "ends", Interval::new(1, 0), None);
    same(&rt, "low end", one.lo, -3);
    same(&rt, "no number", Point::of(&[]), None);
    same(&rt, "five numbers", Point::of(&[1, 2, 3, 4, 5]), None);
    same(&rt, "no side", BoxN::of(&[]), None);
    same(&rt, "five sides", BoxN::of(&[one; 5]), None);
    let locals = Locals::of(&[4, -5]).expect(&rt, "locals");
    same(&rt, "two", (locals.len(), locals.at(1)), (2, -5));
    same(&rt, "seventeen", Locals::of(&[0; 17]), None);
}

#[test]
fn points_and_boxes_have_their_parts(rt: HostRuntime) {
    let one = Interval::new(-3, -3).expect(&rt, "one");
    let p = Point::of(&[1, 2, 3, -4]).expect(&rt, "p");
    same(&rt, "numbers", p.len(), 4);
    same(&rt, "last number", p.at(3), -4);
    let b = BoxN::of(&[one]).expect(&rt, "b");
    let q = Point::of(&[-3]).expect(&rt, "q");
    same(&rt, "side", b.side(0), one);
    same(&rt, "in the box", b.has(&q), true);
    let mut r = Region::none(rt.alloc(), 1);
    same(&rt, "no hull", r.hull(), None);
    r.settle().expect(&rt, "memory");
    r.push(b).expect(&rt, "memory");
    same(&rt, "first box", r.at(0), b);
    same(&rt, "in the region", r.has(&q), true);
    same(&rt, "hull", r.hull(), Some(b));
}
