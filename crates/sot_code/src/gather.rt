//! The numbers of an owner's names, gathered in one list.

ghost use Rattle.std.specs.Prelude.{◌≡◌, ◌+◌, ◌<◌, ◌≤◌, [], ◌∷◌, ◌++◌, length, take};

use crate::locals::Locals;
use crate::seen::Seen;
use sot_box::Point;

/// The numbers of an owner's names are at most so many.
pub const MOST_NAMES: usize = 80;

/// What a node reads, at the front.
pub fn put_seen<V: Seen>(seen: &V, count: usize, numbers: &mut [i64])
    requires count { length (V.numbers seen.now) ≡ count }
    requires room { count ≤ length numbers.old }
    ensures front { take count numbers.new ≡ V.numbers seen.now }
    ensures size { length numbers.new ≡ length numbers.old }
{
    for i in 0..count {
        numbers[i] = seen.read(i);
    }
}

/// The locals, behind the first `from` numbers.
pub fn put_locals(locals: &Locals, from: usize, numbers: &mut [i64])
    requires room { from + length locals.now ≤ length numbers.old }
    ensures front { take (from + length locals.now) numbers.new
        ≡ take from numbers.old ++ locals.now }
    ensures size { length numbers.new ≡ length numbers.old }
{
    for i in 0..locals.len() {
        numbers[from + i] = locals.at(i);
    }
}

// A number, behind the first `from` ones.
fn put_number(number: i64, from: usize, numbers: &mut [i64])
    requires { from < length numbers.old }
    ensures front { take (from + 1) numbers.new ≡ take from numbers.old ++ number ∷ [] }
    ensures size { length numbers.new ≡ length numbers.old }
{
    numbers[from] = number;
}

/// A point's coordinates, behind the first `from` numbers.
pub fn put_point(point: &Point, from: usize, numbers: &mut [i64])
    requires room { from + length point.now ≤ length numbers.old }
    ensures front { take (from + length point.now) numbers.new
        ≡ take from numbers.old ++ point.now }
    ensures size { length numbers.new ≡ length numbers.old }
{
    if point.len() == 1 {
        // Most points have one, for which a copy of many would cost more than it moves.
        return put_number(point.at(0), from, numbers);
    }
    for i in 0..point.len() {
        numbers[from + i] = point.at(i);
    }
}

/// Numbers, behind the first `from` ones.
pub fn put(part: &[i64], from: usize, numbers: &mut [i64])
    requires room { from + length part.now ≤ length numbers.old }
    ensures front { take (from + length part.now) numbers.new ≡ take from numbers.old ++ part.now }
    ensures size { length numbers.new ≡ length numbers.old }
{
    if part.len() == 1 {
        return put_number(part[0], from, numbers);
    }
    for i in 0..part.len() {
        numbers[from + i] = part[i];
    }
}
