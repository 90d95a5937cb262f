//! Statements as steps.

ghost use Rattle.std.specs.Prelude.{◌≡◌, ◌+◌, ◌≤◌, [], ◌∷◌, ◌++◌, List, IfOk, length};
ghost use Rattle.sot_lang.specs.OwnerNames.{node_truths};
ghost use Rattle.sot_lang.specs.ActRules.{ActFits, ActsFit};
ghost use Rattle.sot_lang.specs.TermPlaces.{HasPlaces};
ghost use Rattle.sot_code.specs.Firings.{IsRunnable};
ghost use Rattle.sot_eval_flat.specs.declared.instruction.Instruction.{Instruction};
ghost use Rattle.sot_eval_flat.specs.Shapes.{Bounds};
ghost use Rattle.sot_eval_flat.specs.Flows.{FlowAll};
ghost use Rattle.sot_eval_flat.specs.Carries.{Carries, FlowOpen, OneMore};

use crate::instruction::{Instruction, Make};
use crate::shape::Shape;
use crate::step::Step;
use crate::term::compile_all;
use crate::unfit::Unfit;
use sot_lang::{Act, NodeInfo, Term, Typed};
use std::alloc::Global;
use std::mem::swap;

// The instructions that put a value at a place, where it is in a range.
fn put_value(
    shape: &Shape,
    term: &Term,
    lo: i64,
    hi: i64,
    to: u8,
    line: &mut Vec<Instruction>,
) -> Result<(), Unfit>
    requires places { HasPlaces shape.now.names term.now }
    requires few { shape.now.names + length shape.now.constants.items ≤ 250 }
    ensures { IfOk result (λ _. (added : List Instruction)
        × (line.new.items ≡ line.old.items ++ added)
        × Bounds shape.now.names shape.now.constants.items term.now lo hi to added) }
{
    let base = shape.names + shape.constants.len();
    let a = compile_all(term, shape, base, line)?;
    let b = shape.place_of(lo)?;
    let c = shape.place_of(hi)?;
    let counts = shape.place_of(1)?;
    let make = Make::Within;
    line.push(Instruction {
        make,
        to,
        a,
        b,
        c,
        counts,
    })?;
    Ok(())
}

// The instructions become a step.
fn close(alloc: Global, steps: &mut Vec<Step>, line: &mut Vec<Instruction>) -> Result<(), Unfit>
    ensures { IfOk result (λ _. (line.new.items ≡ []) × ((s : _) (t : _)
        → FlowAll steps.new.items s t → FlowOpen steps.old.items line.old.items s t)) }
{
    let mut whole = Vec::new(alloc);
    swap(&mut whole, line);
    steps.push(Step::Line(whole))?;
    Ok(())
}

/// The steps of statements.
#[cycle(block)]
pub fn block(
    alloc: Global,
    p: &Typed,
    node: &NodeInfo,
    shape: &Shape,
    acts: &[Act],
) -> Result<Vec<Step>, Unfit>
    requires node { IsRunnable p.now node.now }
    requires fits { ActsFit (node_truths p.now node.now) (length node.now.locals.items)
        (length node.now.writes.items) acts.now }
    requires names { length node.now.reads.items + length node.now.locals.items
        ≡ shape.now.names }
    requires few { shape.now.names + length shape.now.constants.items ≤ 250 }
    ensures { IfOk result (λ steps. Carries p.now node.now shape.now.constants.items steps.items
        acts.now) }
{
    let mut steps = Vec::new(alloc);
    let mut line = Vec::new(alloc);
    for one in acts {
        append(alloc, p, node, shape, one, &mut steps, &mut line)?;
    }
    close(alloc, &mut steps, &mut line)?;
    Ok(steps)
}

// One more statement, behind steps and the instructions that are in none yet.
#[cycle(block)]
fn append(
    alloc: Global,
    p: &Typed,
    node: &NodeInfo,
    shape: &Shape,
    one: &Act,
    steps: &mut Vec<Step>,
    line: &mut Vec<Instruction>,
) -> Result<(), Unfit>
    requires node { IsRunnable p.now node.now }
    requires fits { ActFits (node_truths p.now node.now) (length node.now.locals.items)
        (length node.now.writes.items) one.now }
    requires names { length node.now.reads.items + length node.now.locals.items
        ≡ shape.now.names }
    requires few { shape.now.names + length shape.now.constants.items ≤ 250 }
    ensures { IfOk result (λ _. OneMore p.now node.now shape.now.constants.items one.now
        steps.old.items line.old.items steps.new.items line.new.items) }
{
    match one {
        Act::Assign { local, value, .. } => {
            let info = &node.locals[*local as usize];
            let to = node.reads.len() + *local as usize;
            put_value(shape, value, info.lo, info.hi, to as u8, line)
        }
        Act::Publish { slot, value, .. } => {
            let info = &p.scalars[node.writes[*slot as usize] as usize];
            let place = (shape.names + shape.constants.len()) as u8;
            put_value(shape, value, info.lo, info.hi, place, line)?;
            close(alloc, steps, line)?;
            steps.push(Step::Publish { slot: *slot, place })?;
            Ok(())
        }
        Act::If { cond, yes, no } => {
            let base = shape.names + shape.constants.len();
            let place = compile_all(cond, shape, base, line)?;
            close(alloc, steps, line)?;
            let yes = block(alloc, p, node, shape, yes)?;
            let no = block(alloc, p, node, shape, no)?;
            steps.push(Step::Choice { place, yes, no })?;
            Ok(())
        }
        Act::Repeat { times, body } => {
            close(alloc, steps, line)?;
            let body = block(alloc, p, node, shape, body)?;
            steps.push(Step::Turns {
                times: *times,
                body,
            })?;
            Ok(())
        }
    }
}
