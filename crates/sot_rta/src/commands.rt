//! The intervals of a plant's commands.

ghost use Rattle.std.specs.Prelude.{ℕ, ◌≡◌, ◌<◌, ◌≤◌, length, map};
ghost use Rattle.sot_lists.specs.Places.{Has};
ghost use Rattle.sot_tube.specs.Certified.{command_interval};

use sot_box::Interval;
use sot_iv::{Drafted, IvDraft};
use sot_lang::{Slot, Typed};
use sot_traps::slot_side;

// The interval of a scalar as a command: what is surely drafted for it, and else its type.
fn command(p: &Typed, scalar: u32, writes: &[u32], draft: &IvDraft) -> Interval
    requires there { scalar < length p.now.scalars }
    requires few { length writes.now ≤ 8 }
    ensures { result ≡ command_interval p.now writes.now draft.now scalar }
{
    let whole = slot_side(p, Slot::Scalar(scalar));
    for i in 0..writes.len() {
        if writes[i] == scalar {
            return match draft.get(i) {
                Drafted::Sure(side) => side,
                _ => whole,
            };
        }
    }
    whole
}

/// The intervals of the commands of a plant with these inputs, under a node that writes these
/// scalars and drafts so, in places for as many.
pub fn put_commands(
    p: &Typed,
    inputs: &[u32],
    writes: &[u32],
    draft: &IvDraft,
    sides: &mut [Interval],
)
    requires there { (k : ℕ) → Has inputs.now k → k < length p.now.scalars }
    requires few_inputs { length inputs.now ≤ 8 }
    requires few { length writes.now ≤ 8 }
    requires size { length sides.old ≡ length inputs.now }
    ensures { sides.new ≡ map (command_interval p.now writes.now draft.now) inputs.now }
{
    for i in 0..inputs.len() {
        sides[i] = command(p, inputs[i], writes, draft);
    }
}
