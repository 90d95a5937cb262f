//! The execution of a coded node.

ghost use Rattle.std.specs.Prelude.{◌≡◌, ◌+◌, ◌≤◌, None, length, take, drop, replicate};
ghost use Rattle.sot_lang.specs.Bodies.{execution};
ghost use Rattle.sot_lang.specs.Ranges.{local_ranges, write_ranges};
ghost use Rattle.sot_lang.specs.OwnerNames.{node_truths};
ghost use Rattle.sot_lang.specs.ActRules.{ActsFit};
ghost use Rattle.sot_code.specs.Firings.{IsRunnable};
ghost use Rattle.sot_code.specs.Recorded.{recorded, left_by, MayRun, IsExecution};

use crate::body::run;
use crate::fired::Fired;
use crate::gather::{MOST_NAMES, put_locals, put_seen};
use crate::locals::Locals;
use crate::seen::Seen;
use sot_lang::{Act, Draft, NodeInfo, Trap, Typed};

// What the statements leave, from nothing drafted.
fn fire(
    p: &Typed,
    node: &NodeInfo,
    acts: &[Act],
    numbers: &mut [i64],
    locals: &mut Locals,
    draft: &mut Draft,
) -> Result<(), Trap>
    requires node { IsRunnable p.now node.now }
    requires few { length node.now.locals.items ≤ 16 }
    requires fits { ActsFit (node_truths p.now node.now) (length node.now.locals.items)
        (length node.now.writes.items) acts.now }
    requires size { length node.now.reads.items + length node.now.locals.items
        ≡ length numbers.old }
    requires locals { length locals.old ≡ length node.now.locals.items }
    requires blank { draft.old ≡ replicate 8 None }
    ensures { left_by result locals.new draft.new
        ≡ recorded (execution acts.now (local_ranges node.now) (write_ranges p.now node.now)
        (take (length node.now.reads.items) numbers.old)
        (drop (length node.now.reads.items) numbers.old)) }
{
    run(p, node, acts, numbers, draft)?;
    let (_, kept) = numbers.split_at(node.reads.len());
    locals.put(kept);
    Ok(())
}

// The execution of a body on the numbers that its node reads and its locals, with room for these.
fn execute_in<V: Seen>(
    p: &Typed,
    node: &NodeInfo,
    acts: &[Act],
    seen: &V,
    locals: &mut Locals,
    draft: &mut Draft,
    room: &mut [i64],
) -> Result<(), Trap>
    requires node { IsRunnable p.now node.now }
    requires few { length node.now.locals.items ≤ 16 }
    requires fits { ActsFit (node_truths p.now node.now) (length node.now.locals.items)
        (length node.now.writes.items) acts.now }
    requires reads { length (V.numbers seen.now) ≡ length node.now.reads.items }
    requires locals { length locals.old ≡ length node.now.locals.items }
    requires blank { draft.old ≡ replicate 8 None }
    requires room { length node.now.reads.items + length node.now.locals.items ≤ length room.old }
    ensures { left_by result locals.new draft.new
        ≡ recorded (execution acts.now (local_ranges node.now) (write_ranges p.now node.now)
        (V.numbers seen.now) locals.old) }
{
    let reads = node.reads.len();
    put_seen(seen, reads, room);
    put_locals(locals, reads, room);
    let (numbers, _) = room.split_at_mut(reads + locals.len());
    fire(p, node, acts, numbers, locals, draft)
}

// Most nodes have few names, and the room for these is cleared at each firing.
const FEW_NAMES: usize = 16;

// Executes a body on the numbers that its node reads and its locals, in little room where they are
// few.
fn execute<V: Seen>(
    p: &Typed,
    node: &NodeInfo,
    acts: &[Act],
    seen: &V,
    locals: &mut Locals,
    draft: &mut Draft,
) -> Result<(), Trap>
    requires node { IsRunnable p.now node.now }
    requires few { length node.now.locals.items ≤ 16 }
    requires fits { ActsFit (node_truths p.now node.now) (length node.now.locals.items)
        (length node.now.writes.items) acts.now }
    requires reads { length (V.numbers seen.now) ≡ length node.now.reads.items }
    requires locals { length locals.old ≡ length node.now.locals.items }
    requires blank { draft.old ≡ replicate 8 None }
    requires names { length node.now.reads.items + length node.now.locals.items ≤ 80 }
    ensures { left_by result locals.new draft.new
        ≡ recorded (execution acts.now (local_ranges node.now) (write_ranges p.now node.now)
        (V.numbers seen.now) locals.old) }
{
    if node.reads.len() + node.locals.len() <= FEW_NAMES {
        let mut few = [0; FEW_NAMES];
        return execute_in(p, node, acts, seen, locals, draft, &mut few);
    }
    let mut inline = [0; MOST_NAMES];
    execute_in(p, node, acts, seen, locals, draft, &mut inline)
}

/// The execution of a coded node's body on the numbers that it reads and its locals: these are
/// changed to the new ones, and the draft, in which nothing is drafted, to what it drafts; or the
/// first trap, whose locals and draft mean nothing.
// What a firing leaves takes 208 bytes, and would be copied at each return.
pub fn run_node_over<V: Seen>(
    p: &Typed,
    node: u32,
    seen: &V,
    locals: &mut Locals,
    draft: &mut Draft,
) -> Result<(), Trap>
    requires run { MayRun p.now node (V.numbers seen.now) locals.old }
    requires blank { draft.old ≡ replicate 8 None }
    ensures { IsExecution p.now node (V.numbers seen.now) locals.old
        (left_by result locals.new draft.new) }
{
    let info = &p.nodes[node as usize];
    let acts = info.body.as_ref().unwrap();
    execute(p, info, acts, seen, locals, draft)
}

/// The execution of a coded node's body on the numbers that it reads and its locals: the new locals
/// and the draft, or the first trap.
pub fn run_node<V: Seen>(p: &Typed, node: u32, seen: &V, locals: &Locals) -> Result<Fired, Trap>
    requires { MayRun p.now node (V.numbers seen.now) locals.now }
    ensures { IsExecution p.now node (V.numbers seen.now) locals.now result }
{
    let mut locals = *locals;
    let mut draft = Draft::blank();
    match run_node_over(p, node, seen, &mut locals, &mut draft) {
        Ok(()) => Ok(Fired { locals, draft }),
        Err(trap) => Err(trap),
    }
}
