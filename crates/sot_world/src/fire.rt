//! What a firing publishes.

ghost use Rattle.std.specs.Prelude.{◌≡◌, ℕ, ℤ, Option, ◌-◌, ◌<◌, ◌≤◌, ◌++◌, None, length, take};
ghost use Rattle.std.specs.Prelude.{replicate, slice_set};
ghost use Rattle.sot_lists.specs.Places.{At};
ghost use Rattle.sot_lang.specs.declared.tables.NodeInfo.{NodeInfo};
ghost use Rattle.sot_lang.specs.Ranges.{range_of};
ghost use Rattle.sot_lang.specs.Readings.{reading};
ghost use Rattle.sot_world.specs.Steps as steps;
ghost use Rattle.sot_world.specs.Changes.{is_ac, role_enables, IsOfModule, put_drafted, AreThere};

use crate::lent::Lent;
use crate::looks::is_in;
use crate::mode::Mode;
use crate::role::Role;
use sot_box::Point;
use sot_lang::{Draft, ScalarInfo, Typed};

fn is_ac(mode: Mode) -> bool
    ensures { result ≡ is_ac mode }
{
    match mode {
        Mode::Ac => true,
        Mode::Sc => false,
    }
}

/// Whether a node of this role is enabled, with the modules in these modes.
pub fn enables(role: Role, modes: &[Mode]) -> bool
    requires { IsOfModule role (length modes.now) }
    ensures { result ≡ role_enables role modes.now }
{
    match role {
        Role::Free => true,
        Role::Advanced(m) => is_ac(modes[m as usize]),
        Role::Safe(m) => !is_ac(modes[m as usize]),
    }
}

/// The numbers that a node reads now, read where they stand.
pub(crate) fn seen_by<'w>(
    p: &'w Typed,
    node: u32,
    scalars: &'w [i64],
    points: &'w [Point],
) -> Lent<'w>
    requires { (info : NodeInfo) × At p.now.nodes node info
        × AreThere scalars.now points.now info.reads.items }
    ensures { (info : NodeInfo) → At p.now.nodes node info
        → result ≡ reading info scalars.now points.now }
{
    Lent::of(&p.nodes[node as usize].reads, scalars, points)
}

// A number in its scalar's range replaces the scalar's, and any other is refused.
fn put(infos: &[ScalarInfo], k: usize, z: i64, scalars: &mut [i64])
    requires info { k < length infos.now }
    requires scalar { k < length scalars.old }
    ensures { scalars.new ≡ steps.put (range_of infos.now k) k z scalars.old }
{
    let info = &infos[k];
    if is_in(info.lo, info.hi, z) {
        scalars[k] = z;
    }
}

// What is drafted for a scalar is put there, if it is a number.
fn put_slot(infos: &[ScalarInfo], k: usize, slot: Option<i64>, scalars: &mut [i64])
    requires info { k < length infos.now }
    requires scalar { k < length scalars.old }
    ensures { scalars.new ≡ put_drafted (range_of infos.now k) k slot scalars.old }
{
    if let Some(z) = slot {
        put(infos, k, z, scalars);
    }
}

// A draft is published, scalar by scalar.
fn publish(p: &Typed, writes: &[u32], draft: &Draft, scalars: &mut [i64])
    requires few { length writes.now ≤ 8 }
    requires written { (i k : ℕ) → At writes.now i k → k < length p.now.scalars }
    requires size { length scalars.old ≡ length p.now.scalars }
    ensures { scalars.new ≡ steps.publish p.now writes.now draft.now scalars.old }
{
    for i in 0..writes.len() {
        put_slot(&p.scalars, writes[i] as usize, draft.get(i), scalars);
    }
}

/// The draft of a node that writes these scalars is published where the node is enabled.
pub fn publish_if(enabled: bool, p: &Typed, writes: &[u32], draft: &Draft, scalars: &mut [i64])
    requires few { length writes.now ≤ 8 }
    requires written { (i k : ℕ) → At writes.now i k → k < length p.now.scalars }
    requires size { length scalars.old ≡ length p.now.scalars }
    ensures { scalars.new ≡ steps.published enabled p.now writes.now draft.now scalars.old }
{
    if enabled {
        publish(p, writes, draft, scalars);
    }
}

// A slot of a draft that is blank there gets what was drafted.
fn copy_slot(kept: &mut Draft, i: usize, slot: Option<i64>)
    requires inside { i < 8 }
    requires blank { At kept.old i None }
    ensures { kept.new ≡ slice_set kept.old i slot }
{
    match slot {
        Some(z) => kept.set(i, z),
        None => {}
    }
}

/// A draft's first slots, with nothing in the others.
pub fn first_slots(draft: &Draft, count: usize) -> Draft
    requires { count ≤ 8 }
    ensures kept { result ≡ take count draft.now ++ replicate (8 - count) None }
    ensures there { count ≤ length draft.now }
{
    let mut kept = Draft::blank();
    for i in 0..count {
        copy_slot(&mut kept, i, draft.get(i));
    }
    kept
}
