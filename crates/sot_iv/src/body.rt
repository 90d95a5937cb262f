//! The execution of statements over intervals, with both branches of what is undecided.

ghost use Rattle.std.specs.Prelude.{◌≡◌, ◌+◌, ◌<◌, ◌≤◌, ◌++◌, length, slice_get, Some};
ghost use Rattle.sot_lang.specs.Ranges.{local_ranges, write_ranges};
ghost use Rattle.sot_lang.specs.OwnerNames.{node_truths};
ghost use Rattle.sot_lang.specs.TermPlaces.{HasPlaces};
ghost use Rattle.sot_lang.specs.ActRules.{ActFits, ActsFit};
ghost use Rattle.sot_iv.specs.Ends.{side};
ghost use Rattle.sot_iv.specs.declared.drafted.Drafted.TheVariants.{Absent, Maybe, Sure};
ghost use Rattle.sot_iv.specs.Evaluation.{term_interval, and_then, put, put_at, act_intervals};
ghost use Rattle.sot_iv.specs.Evaluation.{body_intervals, repeated, hulls, joined_draft};
ghost use Rattle.sot_iv.specs.Evaluation.{joined_drafts, join_of, joined, Leaves};
ghost use Rattle.sot_iv.specs.Firings.{state, step_of, run_of, turns_of, assign_of, publish_of};
ghost use Rattle.sot_iv.specs.Firings.{IsRunnable};

use crate::{Drafted, MayTrap, ends, operators, term};
use sot_box::Interval;
use sot_lang::{Act, NodeInfo, Term, TrapKind, Typed};
use sot_text::Span;

// The interval, if it is inside the range.
fn inside(lo: i64, hi: i64, at: Span, x: Interval) -> Result<Interval, MayTrap>
    ensures { result ≡ put (side lo hi) at x }
{
    if lo <= x.lo && x.hi <= hi {
        Ok(x)
    } else {
        Err(MayTrap {
            at,
            kind: TrapKind::OutsideRange,
            lo: x.lo as i128,
            hi: x.hi as i128,
        })
    }
}

// The interval of a local's next assignment.
fn assigned(
    node: &NodeInfo,
    value: &Term,
    local: usize,
    at: Span,
    seen: &[Interval],
    locals: &[Interval],
) -> Result<Interval, MayTrap>
    requires places { HasPlaces (length seen.now + length locals.now) value.now }
    requires local { local < length node.now.locals.items }
    ensures { result ≡ and_then (term_interval value.now (seen.now ++ locals.now))
        (put_at (local_ranges node.now) local at) }
{
    let x = term::interval_of(value, seen, locals)?;
    let info = &node.locals[local];
    inside(info.lo, info.hi, at, x)
}

// The interval of a scalar's next draft.
fn published(
    p: &Typed,
    node: &NodeInfo,
    value: &Term,
    slot: usize,
    at: Span,
    seen: &[Interval],
    locals: &[Interval],
) -> Result<Interval, MayTrap>
    requires node { IsRunnable p.now node.now }
    requires places { HasPlaces (length seen.now + length locals.now) value.now }
    requires slot { slot < length node.now.writes.items }
    ensures { result ≡ and_then (term_interval value.now (seen.now ++ locals.now))
        (put_at (write_ranges p.now node.now) slot at) }
{
    let x = term::interval_of(value, seen, locals)?;
    let info = &p.scalars[node.writes[slot] as usize];
    inside(info.lo, info.hi, at, x)
}

// A local gets the interval of an expression.
fn assign(
    node: &NodeInfo,
    value: &Term,
    local: usize,
    at: Span,
    seen: &[Interval],
    locals: &mut [Interval],
) -> Result<(), MayTrap>
    requires places { HasPlaces (length seen.now + length locals.old) value.now }
    requires local { local < length node.now.locals.items }
    requires size { length locals.old ≡ length node.now.locals.items }
    ensures { (draft : _) → Leaves result locals.new draft
        (assign_of node.now local at (term_interval value.now (seen.now ++ locals.old))
        (state locals.old draft)) }
{
    let x = assigned(node, value, local, at, seen, locals)?;
    locals[local] = Interval { lo: x.lo, hi: x.hi };
    Ok(())
}

// A scalar is surely drafted.
fn publish(
    p: &Typed,
    node: &NodeInfo,
    value: &Term,
    slot: usize,
    at: Span,
    seen: &[Interval],
    locals: &[Interval],
    draft: &mut [Drafted],
) -> Result<(), MayTrap>
    requires node { IsRunnable p.now node.now }
    requires places { HasPlaces (length seen.now + length locals.now) value.now }
    requires slot { slot < length node.now.writes.items }
    requires size { length draft.old ≡ length node.now.writes.items }
    ensures { Leaves result locals.now draft.new
        (publish_of p.now node.now slot at (term_interval value.now (seen.now ++ locals.now))
        (state locals.now draft.old)) }
{
    let x = published(p, node, value, slot, at, seen, locals)?;
    draft[slot] = Drafted::Sure(Interval { lo: x.lo, hi: x.hi });
    Ok(())
}

fn join_locals(first: &[Interval], second: &mut [Interval])
    requires { length first.now ≡ length second.old }
    ensures { second.new ≡ hulls first.now second.old }
{
    for i in 0..first.len() {
        second[i] = operators::hull_with(first[i], second[i]);
    }
}

// What both branches leave where the first drafts nothing, perhaps something, or surely something.
fn join_absent(second: Drafted) -> Drafted
    ensures { result ≡ joined_draft Absent second }
{
    match second {
        Drafted::Absent => Drafted::Absent,
        Drafted::Maybe(b) => Drafted::Maybe(b),
        Drafted::Sure(b) => Drafted::Maybe(b),
    }
}

fn join_maybe(a: Interval, second: Drafted) -> Drafted
    ensures { result ≡ joined_draft (Maybe a) second }
{
    match second {
        Drafted::Absent => Drafted::Maybe(a),
        Drafted::Maybe(b) => Drafted::Maybe(operators::hull_with(a, b)),
        Drafted::Sure(b) => Drafted::Maybe(operators::hull_with(a, b)),
    }
}

fn join_sure(a: Interval, second: Drafted) -> Drafted
    ensures { result ≡ joined_draft (Sure a) second }
{
    match second {
        Drafted::Absent => Drafted::Maybe(a),
        Drafted::Maybe(b) => Drafted::Maybe(operators::hull_with(a, b)),
        Drafted::Sure(b) => Drafted::Sure(operators::hull_with(a, b)),
    }
}

fn join_draft(first: Drafted, second: Drafted) -> Drafted
    ensures { result ≡ joined_draft first second }
{
    match first {
        Drafted::Absent => join_absent(second),
        Drafted::Maybe(a) => join_maybe(a, second),
        Drafted::Sure(a) => join_sure(a, second),
    }
}

fn join_drafts(first: &[Drafted], second: &mut [Drafted])
    requires { length first.now ≡ length second.old }
    ensures { second.new ≡ joined_drafts first.now second.old }
{
    for i in 0..first.len() {
        second[i] = join_draft(first[i], second[i]);
    }
}

pub(crate) fn copy_locals(from: &[Interval], to: &mut [Interval])
    requires { length from.now ≡ length to.old }
    ensures { to.new ≡ from.now }
{
    to.copy_from_slice(from);
}

fn copy_draft(from: &[Drafted], to: &mut [Drafted])
    requires { length from.now ≡ length to.old }
    ensures { to.new ≡ from.now }
{
    to.copy_from_slice(from);
}

// The statements, one after another.
#[cycle(run)]
pub(crate) fn run(
    p: &Typed,
    node: &NodeInfo,
    acts: &[Act],
    seen: &[Interval],
    locals: &mut [Interval],
    draft: &mut [Drafted],
) -> Result<(), MayTrap>
    requires node { IsRunnable p.now node.now }
    requires fits { ActsFit (node_truths p.now node.now) (length node.now.locals.items)
        (length node.now.writes.items) acts.now }
    requires reads { length seen.now ≡ length node.now.reads.items }
    requires size { length locals.old ≡ length node.now.locals.items }
    requires slots { length draft.old ≡ length node.now.writes.items }
    ensures { Leaves result locals.new draft.new
        (run_of p.now node.now seen.now acts.now (state locals.old draft.old)) }
{
    for one in acts {
        step(p, node, one, seen, locals, draft)?;
    }
    Ok(())
}

// The block, so many times.
#[cycle(run)]
fn turns(
    p: &Typed,
    node: &NodeInfo,
    count: u32,
    acts: &[Act],
    seen: &[Interval],
    locals: &mut [Interval],
    draft: &mut [Drafted],
) -> Result<(), MayTrap>
    requires node { IsRunnable p.now node.now }
    requires fits { ActsFit (node_truths p.now node.now) (length node.now.locals.items)
        (length node.now.writes.items) acts.now }
    requires reads { length seen.now ≡ length node.now.reads.items }
    requires size { length locals.old ≡ length node.now.locals.items }
    requires slots { length draft.old ≡ length node.now.writes.items }
    ensures { Leaves result locals.new draft.new
        (turns_of p.now node.now seen.now count acts.now (state locals.old draft.old)) }
{
    for _turn in 0..count {
        run(p, node, acts, seen, locals, draft)?;
    }
    Ok(())
}

// One statement.
#[cycle(run)]
fn step(
    p: &Typed,
    node: &NodeInfo,
    one: &Act,
    seen: &[Interval],
    locals: &mut [Interval],
    draft: &mut [Drafted],
) -> Result<(), MayTrap>
    requires node { IsRunnable p.now node.now }
    requires fits { ActFits (node_truths p.now node.now) (length node.now.locals.items)
        (length node.now.writes.items) one.now }
    requires reads { length seen.now ≡ length node.now.reads.items }
    requires size { length locals.old ≡ length node.now.locals.items }
    requires slots { length draft.old ≡ length node.now.writes.items }
    ensures { Leaves result locals.new draft.new
        (step_of p.now node.now seen.now one.now (state locals.old draft.old)) }
{
    match one {
        Act::Assign { local, value, at } => assign(node, value, *local as usize, *at, seen, locals),
        Act::Publish { slot, value, at } => {
            publish(p, node, value, *slot as usize, *at, seen, locals, draft)
        }
        Act::If { cond, yes, no } => {
            let c = term::interval_of(cond, seen, locals)?;
            if !ends::is_possible(c) {
                return run(p, node, no, seen, locals, draft);
            }
            if ends::is_sure(c) {
                return run(p, node, yes, seen, locals, draft);
            }
            let mut first_locals = [Interval { lo: 0, hi: 0 }; 16];
            let mut first_draft = [Drafted::Absent; 8];
            let (kept_locals, _) = first_locals.split_at_mut(locals.len());
            let (kept_draft, _) = first_draft.split_at_mut(draft.len());
            copy_locals(locals, kept_locals);
            copy_draft(draft, kept_draft);
            run(p, node, yes, seen, kept_locals, kept_draft)?;
            run(p, node, no, seen, locals, draft)?;
            join_locals(kept_locals, locals);
            join_drafts(kept_draft, draft);
            Ok(())
        }
        Act::Repeat { times, body } => turns(p, node, *times, body, seen, locals, draft),
    }
}
