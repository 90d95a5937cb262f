//! A tube, followed box by box, beside a set of atoms.

ghost use Rattle.std.specs.Prelude.{◌≡◌, ◌⊎◌, ℤ, List, IsTrue, length};
ghost use Rattle.sot_box.specs.Boxes.{IsWithin};
ghost use Rattle.sot_law_invariant_regions.specs.Following.{LiesAmong};
ghost use Rattle.sot_invariant_atoms.specs.Greatest.{IsAmong};
ghost use Rattle.sot_invariant_atoms.specs.Walking.{LeavesSet, IsApartFrom};
ghost use Rattle.sot_invariant_atoms.specs.declared.tube.TubeInAtoms.TheVariants.{Inside, Leaves};
ghost use Rattle.sot_invariant_atoms.specs.declared.tube.TubeInAtoms.TheVariants.{Apart};

use crate::walk::Walk;
use sot_atoms::{AtomSet, Grid};
use sot_box::BoxN;

/// How the tube of a box lies to a set of atoms.
#[derive(Clone, Copy, PartialEq, Eq, Debug)]
pub enum TubeInAtoms {
    /// Each box of it after the first lies in the set, and no step may trap.
    Inside,
    /// Some box does not lie in the set, or some step may trap.
    Leaves,
    /// Some box does not even meet the set.
    Apart,
}

/// Whether this is what is known of a tube that is apart from a set.
pub(crate) fn says_apart(found: TubeInAtoms) -> bool
    ensures yes { IsTrue result → found ≡ Apart }
    ensures no { found ≡ Apart → IsTrue result }
{
    match found {
        TubeInAtoms::Apart => true,
        _ => false,
    }
}

/// Whether this is what is known of a tube that lies in a set.
pub(crate) fn says_inside(found: TubeInAtoms) -> bool
    ensures yes { IsTrue result → found ≡ Inside }
    ensures no { found ≡ Inside → IsTrue result }
{
    match found {
        TubeInAtoms::Inside => true,
        _ => false,
    }
}

// Whether a box lies in a set: each point of it is in an atom of the set.
fn lies_among(grid: &Grid, set: &AtomSet, area: &BoxN) -> bool
    requires { length area.now ≡ grid.now.width }
    ensures { LiesAmong (IsAmong grid.now set.now) area.now → IsTrue result }
{
    // A look at the axes and the box brings how they are made.
    let _axes = grid.axes();
    let _width = area.len();
    match grid.block(area) {
        None => false,
        Some(block) => set.has_all(grid, &block),
    }
}

// Whether a box is apart from a set: no point of it is in an atom of the set.
fn is_apart(grid: &Grid, set: &AtomSet, area: &BoxN) -> bool
    requires { length area.now ≡ grid.now.width }
    ensures { IsTrue result → (s : List ℤ) → IsWithin area.now s → IsAmong grid.now set.now s → ⊥ }
{
    // A look at the axes brings how they are made.
    let _axes = grid.axes();
    match grid.clip(area) {
        None => true,
        Some(block) => set.has_none(grid, &block),
    }
}

// How one box lies to a set.
fn standing(grid: &Grid, set: &AtomSet, area: &BoxN) -> TubeInAtoms
    requires { length area.now ≡ grid.now.width }
    ensures leaves { result ≡ Leaves → LiesAmong (IsAmong grid.now set.now) area.now → ⊥ }
    ensures apart { result ≡ Apart → (s : List ℤ) → IsWithin area.now s
        → IsAmong grid.now set.now s → ⊥ }
{
    if lies_among(grid, set, area) {
        return TubeInAtoms::Inside;
    }
    if is_apart(grid, set, area) {
        return TubeInAtoms::Apart;
    }
    TubeInAtoms::Leaves
}

// What is known of a tube after one more box.
fn worse(found: TubeInAtoms, standing: TubeInAtoms) -> TubeInAtoms
    ensures { (result ≡ found) ⊎ (result ≡ standing) }
{
    match standing {
        TubeInAtoms::Inside => found,
        _ => standing,
    }
}

/// Follows a walk beside a set of atoms, up to a box from which all later ones lie in it.
pub(crate) fn follow(walk: &mut Walk<'_>, grid: &Grid, set: &AtomSet) -> TubeInAtoms
    requires { length walk.old.area ≡ grid.now.width }
    ensures leaves { result ≡ Leaves → LeavesSet walk.old grid.now set.now }
    ensures apart { result ≡ Apart → IsApartFrom walk.old grid.now set.now }
{
    let mut found = TubeInAtoms::Inside;
    let ticks = walk.ticks();
    for _tick in 0..ticks {
        let Some(step) = walk.step() else {
            return TubeInAtoms::Leaves;
        };
        let standing = standing(grid, set, &step.area);
        if says_apart(standing) {
            return TubeInAtoms::Apart;
        }
        found = worse(found, standing);
        if step.settled {
            return found;
        }
    }
    found
}
