//! A plant's tick on numbers.

ghost use Rattle.std.specs.Prelude.{◌≡◌, ◌≤◌, ◌∷◌, [], length};
ghost use Rattle.sot_lang.specs.Ticks.{values};
ghost use Rattle.sot_lang.specs.TermPlaces.{HasPlaces, HavePlaces};
ghost use Rattle.sot_code.specs.Points.{Gives};
ghost use Rattle.sot_code.specs.Recorded.{MayTickPlant, IsNextPoint, MayTickOver, IsPointOver};

use crate::gather::{MOST_NAMES, put, put_point};
use crate::term::value;
use sot_box::Point;
use sot_lang::{Term, Trap, Typed};

// The values of some expressions.
fn put_values(terms: &[Term], numbers: &[i64], point: &mut [i64]) -> Result<(), Trap>
    requires places { HavePlaces (length numbers.now) terms.now }
    requires size { length terms.now ≡ length point.old }
    ensures ends { Gives result point.new (values terms.now numbers.now) }
    ensures size { length point.new ≡ length point.old }
{
    for i in 0..terms.len() {
        point[i] = value(&terms[i], numbers)?;
    }
    Ok(())
}

// The point whose one coordinate is the value of an expression.
fn single(term: &Term, numbers: &[i64]) -> Result<Point, Trap>
    requires places { HasPlaces (length numbers.now) term.now }
    ensures { result ≡ values (term.now ∷ []) numbers.now }
{
    let z = value(term, numbers)?;
    Ok(Point::of(&[z]).unwrap())
}

// The point whose coordinates are the values of one to four expressions.
fn point_of(terms: &[Term], numbers: &[i64]) -> Result<Point, Trap>
    requires places { HavePlaces (length numbers.now) terms.now }
    requires some { 1 ≤ length terms.now }
    requires few { length terms.now ≤ 4 }
    ensures { result ≡ values terms.now numbers.now }
{
    if terms.len() == 1 {
        // Most plants have one state variable, whose value needs no list.
        return single(&terms[0], numbers);
    }
    let mut inline = [0; 4];
    let (point, _) = inline.split_at_mut(terms.len());
    put_values(terms, numbers, point)?;
    Ok(Point::of(point).unwrap())
}

/// The plant's point after a tick from `state`, with the numbers of its inputs, of the states of
/// the plants that it sees, one plant after another, and of its disturbances; or the first trap.
pub fn plant_next(
    p: &Typed,
    plant: u32,
    state: &Point,
    held: &[i64],
    seen: &[i64],
    noise: &[i64],
) -> Result<Point, Trap>
    requires { MayTickPlant p.now plant state.now held.now seen.now noise.now }
    ensures { IsNextPoint p.now plant state.now held.now seen.now noise.now result }
{
    let info = &p.plants[plant as usize];
    let mut inline = [0; MOST_NAMES];
    let states = state.len();
    put_point(state, 0, &mut inline);
    put(held, states, &mut inline);
    put(seen, states + held.len(), &mut inline);
    put(noise, states + held.len() + seen.len(), &mut inline);
    let (numbers, _) = inline.split_at(states + held.len() + seen.len() + noise.len());
    point_of(&info.next, numbers)
}

/// The plant's point after a tick, with the numbers of its names in one list: those of its state
/// variables, of its inputs, of the states of the plants that it sees, one plant after another, and
/// of its disturbances; or the first trap.
pub fn plant_next_over(p: &Typed, plant: u32, numbers: &[i64]) -> Result<Point, Trap>
    requires { MayTickOver p.now plant numbers.now }
    ensures { IsPointOver p.now plant numbers.now result }
{
    let info = &p.plants[plant as usize];
    point_of(&info.next, numbers)
}
