//! A body in flat form.

ghost use Rattle.std.specs.Prelude.{◌≡◌, None, List, IfOk, replicate};
ghost use Rattle.sot_lists.specs.Places.{At};
ghost use Rattle.sot_lang.specs.declared.act.Act.{Act};
ghost use Rattle.sot_lang.specs.declared.tables.NodeInfo.{NodeInfo};
ghost use Rattle.sot_lang.specs.TableRules.{IsCoded};
ghost use Rattle.sot_code.specs.Recorded.{left_by, MayRun, IsExecution};
ghost use Rattle.sot_eval_flat.specs.FlatForm.{IsFlatOf};

use crate::block::block;
use crate::constants::{add_acts, add_ranges};
use crate::room::{fill, keep};
use crate::shape::Shape;
use crate::step::Step;
use crate::unfit::Unfit;
use crate::walk::walk;
use sot_code::{Locals, Seen, run_node_over};
use sot_lang::{Draft, Trap, Typed};
use std::alloc::Global;

/// A body in flat form.
pub struct Flat {
    reads: usize,
    shape: Shape,
    steps: Vec<Step>,
}

impl Drop for Flat {
    fn drop(self) {
        let Flat {
            reads: _,
            shape: _,
            steps: _,
        } = self;
    }
}

// Names and stated numbers together.
const MOST_STATED: usize = 250;

impl Flat {
    /// The flat form of a coded node's body. `Wide` says that it has none, and `Memory` that there
    /// was no memory for it.
    pub fn of(alloc: Global, p: &Typed, node: u32) -> Result<Flat, Unfit>
        requires coded { (info : NodeInfo) × (acts : List Act) × At p.now.nodes node info
            × IsCoded info acts }
        ensures { IfOk result (λ flat. IsFlatOf p.now node flat) }
    {
        let info = &p.nodes[node as usize];
        let acts = info.body.as_ref().unwrap();
        let mut constants = Vec::new(alloc);
        // By this number a trap counts.
        constants.push(1)?;
        add_acts(&mut constants, acts)?;
        add_ranges(&mut constants, p, info)?;
        let reads = info.reads.len();
        let names = reads + info.locals.len();
        if constants.len() > MOST_STATED - names {
            return Err(Unfit::Wide);
        }
        let shape = Shape { names, constants };
        let steps = block(alloc, p, info, &shape, acts)?;
        Ok(Flat {
            reads,
            shape,
            steps,
        })
    }

    /// The execution of the body on the numbers that its node reads and its locals: these are
    /// changed to the new ones, and the draft, in which nothing is drafted, to what it drafts; or
    /// the first trap, whose locals and draft mean nothing.
    pub fn run<V: Seen>(
        &self,
        p: &Typed,
        node: u32,
        seen: &V,
        locals: &mut Locals,
        draft: &mut Draft,
    ) -> Result<(), Trap>
        requires flat { IsFlatOf p.now node self.now }
        requires run { MayRun p.now node (V.numbers seen.now) locals.old }
        requires blank { draft.old ≡ replicate 8 None }
        ensures { IsExecution p.now node (V.numbers seen.now) locals.old
            (left_by result locals.new draft.new) }
    {
        let mut room = [0; 256];
        fill(seen, self.reads, locals, &self.shape, &mut room);
        let mut trapped = false;
        walk(&self.steps, &mut room, draft, &mut trapped);
        if trapped {
            // The exact way begins anew, and tells the first trap.
            *draft = Draft::blank();
            return run_node_over(p, node, seen, locals, draft);
        }
        let (numbers, _) = room.split_at(self.shape.names);
        let (_, kept) = numbers.split_at(self.reads);
        keep(locals, kept);
        Ok(())
    }
}
