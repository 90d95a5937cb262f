//! A plant's tick over intervals.

ghost use Rattle.std.specs.Prelude.{◌≡◌, ◌≤◌, [], length};
ghost use Rattle.sot_lang.specs.TermPlaces.{HavePlaces};
ghost use Rattle.sot_iv.specs.Evaluation.{term_intervals, GivesSides};
ghost use Rattle.sot_iv.specs.PlantTicks.{MayTickBox, IsBoxAfterTick, ArePlantRanges, MayTickOver};
ghost use Rattle.sot_iv.specs.PlantTicks.{IsBoxOver};

use crate::bounds::{put_bounds, put_box};
use crate::term::interval_of;
use crate::{MayTrap, Ranges};
use sot_box::{BoxN, Interval};
use sot_lang::{Term, Typed};

// The intervals of some expressions, in these places.
fn put_intervals(terms: &[Term], names: &[Interval], sides: &mut [Interval]) -> Result<(), MayTrap>
    requires places { HavePlaces (length names.now) terms.now }
    requires size { length terms.now ≡ length sides.old }
    ensures ends { GivesSides result sides.new (term_intervals terms.now names.now) }
    ensures size { length sides.new ≡ length sides.old }
{
    for i in 0..terms.len() {
        sides[i] = interval_of(&terms[i], names, &[])?;
    }
    Ok(())
}

// The intervals of one to four expressions, as a box.
fn box_of(terms: &[Term], names: &[Interval]) -> Result<BoxN, MayTrap>
    requires places { HavePlaces (length names.now) terms.now }
    requires some { 1 ≤ length terms.now }
    requires few { length terms.now ≤ 4 }
    ensures { result ≡ term_intervals terms.now names.now }
{
    let mut inline = [Interval { lo: 0, hi: 0 }; 4];
    let (sides, _) = inline.split_at_mut(terms.len());
    put_intervals(terms, names, sides)?;
    Ok(BoxN::of(sides).unwrap())
}

/// Where each name of a plant's expressions may be: its state variables in the box, its inputs in
/// `held`, the states of the plants that it sees, one plant after another, in `seen`, and its
/// disturbances in their bounds. Takes no memory.
pub fn put_plant_ranges(
    p: &Typed,
    plant: u32,
    b: &BoxN,
    held: &[Interval],
    seen: &[Interval],
    names: &mut Ranges,
)
    requires may { MayTickBox p.now plant b.now held.now seen.now }
    requires empty { names.old ≡ [] }
    ensures { ArePlantRanges p.now plant b.now held.now seen.now names.new }
{
    let info = &p.plants[plant as usize];
    put_box(b, names);
    names.extend(held);
    names.extend(seen);
    put_bounds(&info.noise, names);
}

/// The least box of a plant after one tick, with its names in these ranges, or the first operands
/// of which some trap. Takes no memory.
pub fn iv_plant_over(p: &Typed, plant: u32, names: &Ranges) -> Result<BoxN, MayTrap>
    requires { MayTickOver p.now plant names.now }
    ensures { IsBoxOver p.now plant names.now result }
{
    let info = &p.plants[plant as usize];
    box_of(&info.next, names.as_slice())
}

/// The least box of a plant after one tick from a box, or the first operands of which some trap:
/// with commands in `held`, the states of the plants that it sees, one plant after another, in
/// `seen`, and disturbances anywhere in their bounds. There is an interval for each state variable,
/// each input and each seen state. Takes no memory.
pub fn iv_plant(
    p: &Typed,
    plant: u32,
    b: &BoxN,
    held: &[Interval],
    seen: &[Interval],
) -> Result<BoxN, MayTrap>
    requires { MayTickBox p.now plant b.now held.now seen.now }
    ensures { IsBoxAfterTick p.now plant b.now held.now seen.now result }
{
    let mut names = Ranges::none();
    put_plant_ranges(p, plant, b, held, seen, &mut names);
    iv_plant_over(p, plant, &names)
}
