//! The least interval of an expression.

ghost use Rattle.std.specs.Prelude.{◌≡◌, ◌+◌, ◌<◌, ◌≤◌, ◌≤ℤ◌, ◌++◌, pos, Ok, length};
ghost use Rattle.std.specs.Prelude.{slice_index_or};
ghost use Rattle.sot_syntax_tree.specs.Functions.{arity};
ghost use Rattle.sot_lang.specs.TermPlaces.{HasPlaces, HavePlaces};
ghost use Rattle.sot_box.specs.Sides.{nought};
ghost use Rattle.sot_iv.specs.TermIntervals.{IsTermInterval};
ghost use Rattle.sot_iv.specs.Evaluation.{term_interval, term_intervals, called_side, and_then};
ghost use Rattle.sot_iv.specs.Evaluation.{Finds};
ghost use Rattle.sot_iv.specs.Ends.{fitted, rest, negation, denied, rescaled};

use crate::{MayTrap, Ranges, ends, operators};
use sot_box::Interval;
use sot_lang::{Term, TrapKind};
use sot_syntax_tree::Func;
use sot_text::Span;

/// The least interval of an expression over these ranges of its names, operator by operator, or the
/// first operands of which some trap. Its places are below the count of the ranges, its calls have
/// the parts of their functions, each divisor of a rest is at least 1, and scales are at most 6.
/// Takes no memory.
pub fn iv_term(t: &Term, ranges: &Ranges) -> Result<Interval, MayTrap>
    requires { HasPlaces (length ranges.now) t.now }
    ensures { IsTermInterval t.now ranges.now result }
{
    interval_of(t, ranges.as_slice(), &[])
}

// The interval of a name: what is read stands before the locals.
fn place(n: usize, seen: &[Interval], locals: &[Interval]) -> Interval
    requires { n < length seen.now + length locals.now }
    ensures { result ≡ slice_index_or (seen.now ++ locals.now) n nought }
{
    if n < seen.len() {
        seen[n]
    } else {
        locals[n - seen.len()]
    }
}

// The least interval of an expression, where each name has its interval in these lists.
pub(crate) fn interval_of(
    term: &Term,
    seen: &[Interval],
    locals: &[Interval],
) -> Result<Interval, MayTrap>
    requires { HasPlaces (length seen.now + length locals.now) term.now }
    ensures { result ≡ term_interval term.now (seen.now ++ locals.now) }
{
    let mut trap = no_trap();
    match evaluate(term, seen, locals, &mut trap) {
        Some(x) => Ok(x),
        None => Err(trap),
    }
}

// What stands in a trap's place before there is one.
fn no_trap() -> MayTrap {
    MayTrap {
        at: Span { line: 0, column: 0 },
        kind: TrapKind::Wide,
        lo: 0,
        hi: 0,
    }
}

// The interval, or none and the trap in its place.
fn kept(answer: Result<Interval, MayTrap>, trap: &mut MayTrap) -> Option<Interval>
    ensures { Finds result trap.new answer }
{
    match answer {
        Ok(x) => Some(x),
        Err(t) => {
            *trap = t;
            None
        }
    }
}

// The interval of an expression, or none and the trap in its place: each part's result is written
// and read again, so it is kept small. Numbers and names are answered first, since a function pays
// at its entry for the room that it needs.
#[cycle(evaluate)]
fn evaluate(
    term: &Term,
    seen: &[Interval],
    locals: &[Interval],
    trap: &mut MayTrap,
) -> Option<Interval>
    requires { HasPlaces (length seen.now + length locals.now) term.now }
    ensures { Finds result trap.new (term_interval term.now (seen.now ++ locals.now)) }
{
    match term {
        Term::Number(z) => Some(ends::ordered(*z, *z)),
        Term::Place(n) => Some(place(*n as usize, seen, locals)),
        _ => compound(term, seen, locals, trap),
    }
}

// The interval of an expression, with room for its parts, or none and the trap in its place.
// Conditions come here at once, since a condition is hardly ever a number or a name.
#[cycle(evaluate)]
fn compound(
    term: &Term,
    seen: &[Interval],
    locals: &[Interval],
    trap: &mut MayTrap,
) -> Option<Interval>
    requires { HasPlaces (length seen.now + length locals.now) term.now }
    ensures { Finds result trap.new (term_interval term.now (seen.now ++ locals.now)) }
{
    match term {
        Term::Number(z) => Some(ends::ordered(*z, *z)),
        Term::Place(n) => Some(place(*n as usize, seen, locals)),
        Term::Binary {
            op,
            left,
            right,
            at,
        } => {
            let a = evaluate(left, seen, locals, trap)?;
            let b = evaluate(right, seen, locals, trap)?;
            kept(operators::operate(*op, *at, a, b), trap)
        }
        Term::Rest { left, by, at } => rest(left, *by, *at, seen, locals, trap),
        Term::Neg { part, at } => negation(part, *at, seen, locals, trap),
        Term::Not { part, .. } => denial(part, seen, locals, trap),
        Term::Call { func, parts, at } => call(*func, parts, *at, seen, locals, trap),
        Term::Rescale { part, from, to, at } => rescaled(part, *from, *to, *at, seen, locals, trap),
        Term::If { cond, yes, no, .. } => {
            let c = compound(cond, seen, locals, trap)?;
            if !ends::is_possible(c) {
                return evaluate(no, seen, locals, trap);
            }
            if ends::is_sure(c) {
                return evaluate(yes, seen, locals, trap);
            }
            let a = evaluate(yes, seen, locals, trap)?;
            let b = evaluate(no, seen, locals, trap)?;
            Some(operators::hull_with(a, b))
        }
    }
}

// The least intervals of what is made of one expression.
#[cycle(evaluate)]
fn rest(
    left: &Term,
    by: i64,
    at: Span,
    seen: &[Interval],
    locals: &[Interval],
    trap: &mut MayTrap,
) -> Option<Interval>
    requires places { HasPlaces (length seen.now + length locals.now) left.now }
    requires divisor { pos 1 ≤ℤ by }
    ensures { Finds result trap.new (and_then (term_interval left.now (seen.now ++ locals.now))
        (λ x. fitted at (rest by x))) }
{
    let a = evaluate(left, seen, locals, trap)?;
    kept(operators::divide_rest(at, a, by), trap)
}

#[cycle(evaluate)]
fn negation(
    part: &Term,
    at: Span,
    seen: &[Interval],
    locals: &[Interval],
    trap: &mut MayTrap,
) -> Option<Interval>
    requires { HasPlaces (length seen.now + length locals.now) part.now }
    ensures { Finds result trap.new (and_then (term_interval part.now (seen.now ++ locals.now))
        (λ x. fitted at (negation x))) }
{
    let a = evaluate(part, seen, locals, trap)?;
    kept(operators::negate(at, a), trap)
}

#[cycle(evaluate)]
fn denial(
    part: &Term,
    seen: &[Interval],
    locals: &[Interval],
    trap: &mut MayTrap,
) -> Option<Interval>
    requires { HasPlaces (length seen.now + length locals.now) part.now }
    ensures { Finds result trap.new (and_then (term_interval part.now (seen.now ++ locals.now))
        (λ x. Ok (denied x))) }
{
    let a = evaluate(part, seen, locals, trap)?;
    Some(operators::deny(a))
}

#[cycle(evaluate)]
fn rescaled(
    part: &Term,
    from: u8,
    to: u8,
    at: Span,
    seen: &[Interval],
    locals: &[Interval],
    trap: &mut MayTrap,
) -> Option<Interval>
    requires places { HasPlaces (length seen.now + length locals.now) part.now }
    requires first { from ≤ 6 }
    requires second { to ≤ 6 }
    ensures { Finds result trap.new (and_then (term_interval part.now (seen.now ++ locals.now))
        (λ x. fitted at (rescaled from to x))) }
{
    let a = evaluate(part, seen, locals, trap)?;
    kept(operators::rescale(at, a, from, to), trap)
}

// The least interval of a function at its parts.
#[cycle(evaluate)]
fn call(
    func: Func,
    parts: &Vec<Term>,
    at: Span,
    seen: &[Interval],
    locals: &[Interval],
    trap: &mut MayTrap,
) -> Option<Interval>
    requires parts { HavePlaces (length seen.now + length locals.now) parts.now.items }
    requires arity { length parts.now.items ≡ arity func }
    ensures { Finds result trap.new (and_then
        (term_intervals parts.now.items (seen.now ++ locals.now)) (called_side func at)) }
{
    match func {
        Func::Min => {
            let a = evaluate(&parts[0], seen, locals, trap)?;
            let b = evaluate(&parts[1], seen, locals, trap)?;
            kept(operators::minimum(at, a, b), trap)
        }
        Func::Max => {
            let a = evaluate(&parts[0], seen, locals, trap)?;
            let b = evaluate(&parts[1], seen, locals, trap)?;
            kept(operators::maximum(at, a, b), trap)
        }
        Func::Abs => {
            let a = evaluate(&parts[0], seen, locals, trap)?;
            kept(operators::absolute(at, a), trap)
        }
        Func::Clamp => {
            let a = evaluate(&parts[0], seen, locals, trap)?;
            let l = evaluate(&parts[1], seen, locals, trap)?;
            let h = evaluate(&parts[2], seen, locals, trap)?;
            kept(operators::clamp(at, a, l, h), trap)
        }
    }
}
