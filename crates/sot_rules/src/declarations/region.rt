//! The faults of a region's boxes.
ghost use Rattle.std.specs.Prelude.{◌≡◌, false, length, map, zip, flat_map};
ghost use Rattle.sot_syntax_tree.specs.TreeViews.{area_view};
ghost use Rattle.sot_syntax_tree.specs.declared.tree.Bounds.{Bounds};
ghost use Rattle.sot_rules.specs.declared.expressions.sort.Sort.{Sort};
ghost use Rattle.sot_rules.specs.declared.expressions.sort.Sort.TheVariants.{Anything};
ghost use Rattle.sot_rules.specs.Sorts.{state_sort};
ghost use Rattle.sot_rules.specs.Scopes.{sorts_in};
ghost use Rattle.sot_rules.specs.Faults.{least, bounds_faults, area_faults, region_faults};

use crate::declarations::limit::note_past_boxes;
use crate::declarations::range::note_bounds;
use crate::expressions::sort::Sort;
use crate::fault::{TypeFault, TypeKind, note};
use crate::names::index::state_sort;
use sot_syntax_tree::{Bounds, BoxDecl, StateDecl};

// The sides of a box whose plant is not known, or that has not one side a state variable.
fn note_free_sides(sides: &[Bounds], first: &mut Option<TypeFault>)
    ensures { first.new ≡ least first.old
        (flat_map {X = Sort × Bounds}
        (λ x. bounds_faults false x.0 x.1) (map (λ s. (Anything, s)) sides.now)) }
{
    for side in sides {
        note_bounds(false, Sort::Anything, *side, first);
    }
}

// The sides of a box, each at its state variable.
fn note_sides(states: &[StateDecl], sides: &[Bounds], first: &mut Option<TypeFault>)
    requires { length states.now ≡ length sides.now }
    ensures { first.new ≡ least first.old
        (flat_map {X = Sort × Bounds}
        (λ x. bounds_faults false x.0 x.1) (zip (map state_sort states.now) sides.now)) }
{
    for i in 0..sides.len() {
        note_bounds(false, state_sort(&states[i]), sides[i], first);
    }
}

fn note_area(states: Option<&[StateDecl]>, area: &BoxDecl, first: &mut Option<TypeFault>)
    ensures { first.new ≡ least first.old
        (area_faults (sorts_in states.entry) (area_view area.now)) }
{
    match states {
        None => note_free_sides(&area.sides, first),
        Some(states) => {
            if states.len() == area.sides.len() {
                note_sides(states, &area.sides, first);
            } else {
                note(first, true, area.at, TypeKind::KindDiffers);
                note_free_sides(&area.sides, first);
            }
        }
    }
}

fn note_areas(states: Option<&[StateDecl]>, boxes: &[BoxDecl], first: &mut Option<TypeFault>)
    ensures { first.new ≡ least first.old
        (flat_map (area_faults (sorts_in states.entry)) (map area_view boxes.now)) }
{
    for area in boxes {
        note_area(states, area, first);
    }
}

/// A region: each box at the state variables of its plant, where it has one, and the count of
/// boxes.
#[tactic(auto, using(crate::proofs::Least::least_append))]
pub fn note_region(states: Option<&[StateDecl]>, boxes: &[BoxDecl], first: &mut Option<TypeFault>)
    ensures { first.new ≡ least first.old
        (region_faults (sorts_in states.entry) (map area_view boxes.now)) }
{
    note_areas(states, boxes, first);
    note_past_boxes(boxes, first);
}
