//! The execution of statements on numbers.

ghost use Rattle.std.specs.Prelude.{◌≡◌, ◌+◌, ◌<◌, length, take, drop};
ghost use Rattle.sot_lang.specs.Bodies.{within, in_range};
ghost use Rattle.sot_lang.specs.Ranges.{local_ranges, write_ranges};
ghost use Rattle.sot_lang.specs.Values.{value_of, then_with};
ghost use Rattle.sot_lang.specs.OwnerNames.{node_truths};
ghost use Rattle.sot_lang.specs.TermPlaces.{HasPlaces};
ghost use Rattle.sot_lang.specs.ActRules.{ActFits, ActsFit};
ghost use Rattle.sot_code.specs.Firings.{fired_at, Ends, assign_of, publish_of, step_of, run_of};
ghost use Rattle.sot_code.specs.Firings.{turns_of, IsRunnable};

use crate::term;
use sot_lang::{Act, Draft, NodeInfo, Term, Trap, TrapKind, Typed};
use sot_text::Span;

// The value, if it is in the range.
fn inside(lo: i64, hi: i64, at: Span, z: i64) -> Result<i64, Trap>
    ensures { result ≡ within (record { lo = lo; hi = hi }) at z }
{
    if lo <= z && z <= hi {
        Ok(z)
    } else {
        Err(Trap {
            at,
            kind: TrapKind::OutsideRange,
        })
    }
}

// The value of a local's next assignment.
fn assigned(
    node: &NodeInfo,
    term: &Term,
    local: usize,
    at: Span,
    numbers: &[i64],
) -> Result<i64, Trap>
    requires places { HasPlaces (length numbers.now) term.now }
    requires local { local < length node.now.locals.items }
    ensures { result ≡ then_with (value_of term.now numbers.now)
        (in_range (local_ranges node.now) local at) }
{
    let z = term::value(term, numbers)?;
    let info = &node.locals[local];
    inside(info.lo, info.hi, at, z)
}

// The value of a scalar's next draft.
fn published(
    p: &Typed,
    node: &NodeInfo,
    term: &Term,
    slot: usize,
    at: Span,
    numbers: &[i64],
) -> Result<i64, Trap>
    requires node { IsRunnable p.now node.now }
    requires places { HasPlaces (length numbers.now) term.now }
    requires slot { slot < length node.now.writes.items }
    ensures { result ≡ then_with (value_of term.now numbers.now)
        (in_range (write_ranges p.now node.now) slot at) }
{
    let z = term::value(term, numbers)?;
    let info = &p.scalars[node.writes[slot] as usize];
    inside(info.lo, info.hi, at, z)
}

// A local gets the value of an expression.
fn assign(
    node: &NodeInfo,
    term: &Term,
    local: usize,
    at: Span,
    numbers: &mut [i64],
) -> Result<(), Trap>
    requires places { HasPlaces (length numbers.old) term.now }
    requires local { local < length node.now.locals.items }
    requires size { length node.now.reads.items + length node.now.locals.items
        ≡ length numbers.old }
    ensures ends { (draft : _) → Ends node.now result numbers.new draft
        (assign_of node.now local at (value_of term.now numbers.old)
        (fired_at node.now numbers.old draft)) }
    ensures read { take (length node.now.reads.items) numbers.new
        ≡ take (length node.now.reads.items) numbers.old }
{
    let z = assigned(node, term, local, at, numbers)?;
    numbers[node.reads.len() + local] = z;
    Ok(())
}

// A scalar is drafted.
fn publish(
    p: &Typed,
    node: &NodeInfo,
    term: &Term,
    slot: usize,
    at: Span,
    numbers: &[i64],
    draft: &mut Draft,
) -> Result<(), Trap>
    requires node { IsRunnable p.now node.now }
    requires places { HasPlaces (length numbers.now) term.now }
    requires slot { slot < length node.now.writes.items }
    ensures ends { Ends node.now result numbers.now draft.new
        (publish_of p.now node.now slot at (value_of term.now numbers.now)
        (fired_at node.now numbers.now draft.old)) }
    ensures unused { drop (length node.now.writes.items) draft.new
        ≡ drop (length node.now.writes.items) draft.old }
    ensures slots { length draft.new ≡ length draft.old }
{
    let z = published(p, node, term, slot, at, numbers)?;
    draft.set(slot, z);
    Ok(())
}

/// The statements, one after another. The numbers are those that the node reads, and then its
/// locals.
#[cycle(run)]
pub fn run(
    p: &Typed,
    node: &NodeInfo,
    acts: &[Act],
    numbers: &mut [i64],
    draft: &mut Draft,
) -> Result<(), Trap>
    requires node { IsRunnable p.now node.now }
    requires fits { ActsFit (node_truths p.now node.now) (length node.now.locals.items)
        (length node.now.writes.items) acts.now }
    requires size { length node.now.reads.items + length node.now.locals.items
        ≡ length numbers.old }
    ensures ends { Ends node.now result numbers.new draft.new
        (run_of p.now node.now numbers.old acts.now (fired_at node.now numbers.old draft.old)) }
    ensures read { take (length node.now.reads.items) numbers.new
        ≡ take (length node.now.reads.items) numbers.old }
    ensures size { length numbers.new ≡ length numbers.old }
    ensures unused { drop (length node.now.writes.items) draft.new
        ≡ drop (length node.now.writes.items) draft.old }
    ensures slots { length draft.new ≡ length draft.old }
{
    for one in acts {
        step(p, node, one, numbers, draft)?;
    }
    Ok(())
}

// The block, so many times.
#[cycle(run)]
fn turns(
    p: &Typed,
    node: &NodeInfo,
    count: u32,
    acts: &[Act],
    numbers: &mut [i64],
    draft: &mut Draft,
) -> Result<(), Trap>
    requires node { IsRunnable p.now node.now }
    requires fits { ActsFit (node_truths p.now node.now) (length node.now.locals.items)
        (length node.now.writes.items) acts.now }
    requires size { length node.now.reads.items + length node.now.locals.items
        ≡ length numbers.old }
    ensures ends { Ends node.now result numbers.new draft.new
        (turns_of p.now node.now numbers.old count acts.now
        (fired_at node.now numbers.old draft.old)) }
    ensures read { take (length node.now.reads.items) numbers.new
        ≡ take (length node.now.reads.items) numbers.old }
    ensures size { length numbers.new ≡ length numbers.old }
    ensures unused { drop (length node.now.writes.items) draft.new
        ≡ drop (length node.now.writes.items) draft.old }
    ensures slots { length draft.new ≡ length draft.old }
{
    for _turn in 0..count {
        run(p, node, acts, numbers, draft)?;
    }
    Ok(())
}

// One statement.
#[cycle(run)]
fn step(
    p: &Typed,
    node: &NodeInfo,
    one: &Act,
    numbers: &mut [i64],
    draft: &mut Draft,
) -> Result<(), Trap>
    requires node { IsRunnable p.now node.now }
    requires fits { ActFits (node_truths p.now node.now) (length node.now.locals.items)
        (length node.now.writes.items) one.now }
    requires size { length node.now.reads.items + length node.now.locals.items
        ≡ length numbers.old }
    ensures ends { Ends node.now result numbers.new draft.new
        (step_of p.now node.now numbers.old one.now (fired_at node.now numbers.old draft.old)) }
    ensures read { take (length node.now.reads.items) numbers.new
        ≡ take (length node.now.reads.items) numbers.old }
    ensures size { length numbers.new ≡ length numbers.old }
    ensures unused { drop (length node.now.writes.items) draft.new
        ≡ drop (length node.now.writes.items) draft.old }
    ensures slots { length draft.new ≡ length draft.old }
{
    match one {
        Act::Assign { local, value, at } => assign(node, value, *local as usize, *at, numbers),
        Act::Publish { slot, value, at } => {
            publish(p, node, value, *slot as usize, *at, numbers, draft)
        }
        Act::If { cond, yes, no } => {
            if term::value(cond, numbers)? != 0 {
                run(p, node, yes, numbers, draft)
            } else {
                run(p, node, no, numbers, draft)
            }
        }
        Act::Repeat { times, body } => turns(p, node, *times, body, numbers, draft),
    }
}
