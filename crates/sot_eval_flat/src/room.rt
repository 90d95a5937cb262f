//! The places of a body, filled for a firing.

ghost use Rattle.std.specs.Prelude.{◌≡◌, ◌+◌, ◌++◌, ◌≤◌, length, take};
ghost use Rattle.sot_eval_flat.specs.Shapes.{IsRoom};

use crate::shape::Shape;
use sot_code::{Locals, Seen, put, put_locals, put_seen};

/// The numbers of the names and the numbers that the body states, in their places.
pub fn fill<V: Seen>(seen: &V, reads: usize, locals: &Locals, shape: &Shape, room: &mut [i64])
    requires reads { length (V.numbers seen.now) ≡ reads }
    requires names { reads + length locals.now ≡ shape.now.names }
    requires few { shape.now.names + length shape.now.constants.items ≤ 250 }
    requires size { length room.old ≡ 256 }
    ensures names { take shape.now.names room.new ≡ V.numbers seen.now ++ locals.now }
    ensures room { IsRoom shape.now.names shape.now.constants.items room.new }
{
    put_seen(seen, reads, room);
    put_locals(locals, reads, room);
    put(&shape.constants, shape.names, room);
}

/// The locals become these numbers.
pub fn keep(locals: &mut Locals, kept: &[i64])
    requires { length kept.now ≤ 16 }
    ensures { locals.new ≡ kept.now }
{
    match Locals::of(kept) {
        Some(new) => *locals = new,
        None => unreachable!(),
    }
}
