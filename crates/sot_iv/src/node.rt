//! What a coded node drafts over intervals.

ghost use Rattle.std.specs.Prelude.{◌≡◌, length, replicate};
ghost use Rattle.sot_lang.specs.OwnerNames.{node_truths};
ghost use Rattle.sot_lang.specs.ActRules.{ActsFit};
ghost use Rattle.sot_iv.specs.declared.drafted.Drafted.TheVariants.{Absent};
ghost use Rattle.sot_iv.specs.Firings.{state, run_of, IsRunnable};
ghost use Rattle.sot_iv.specs.NodeFirings.{MayEvaluate, IsNodeDraft, drafts_of};

use crate::body::{copy_locals, run};
use crate::{Drafted, IvDraft, MayTrap, Ranges};
use sot_box::Interval;
use sot_lang::{Act, NodeInfo, Typed};

// What the statements draft, from nothing drafted.
fn fire(
    p: &Typed,
    node: &NodeInfo,
    acts: &[Act],
    seen: &[Interval],
    start: &[Interval],
) -> Result<IvDraft, MayTrap>
    requires node { IsRunnable p.now node.now }
    requires fits { ActsFit (node_truths p.now node.now) (length node.now.locals.items)
        (length node.now.writes.items) acts.now }
    requires reads { length seen.now ≡ length node.now.reads.items }
    requires size { length start.now ≡ length node.now.locals.items }
    ensures { result ≡ drafts_of (run_of p.now node.now seen.now acts.now
        (state start.now (replicate (length node.now.writes.items) Absent))) }
{
    let mut inline = [Interval { lo: 0, hi: 0 }; 16];
    let (locals, _) = inline.split_at_mut(start.len());
    copy_locals(start, locals);
    let mut slots = [Drafted::Absent; 8];
    let (draft, _) = slots.split_at_mut(node.writes.len());
    run(p, node, acts, seen, locals, draft)?;
    Ok(IvDraft::from_slice(draft))
}

/// What a coded node drafts over intervals, one for each of its read slots and then one for each of
/// its locals: of each written scalar whether it is drafted and its interval; or the first operands
/// or target of which some trap. Takes no memory.
pub fn iv_node(p: &Typed, node: u32, ranges: &Ranges) -> Result<IvDraft, MayTrap>
    requires { MayEvaluate p.now node ranges.now }
    ensures { IsNodeDraft p.now node ranges.now result }
{
    let info = &p.nodes[node as usize];
    let acts = info.body.as_ref().unwrap();
    let (seen, start) = ranges.as_slice().split_at(info.reads.len());
    fire(p, info, acts, seen, start)
}
