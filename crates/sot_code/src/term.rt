//! The value of an expression on numbers.

ghost use Rattle.std.specs.Prelude.{◌≡◌, ◌≤◌, ◌≤ℤ◌, ◌-ℤ◌, ◌*ℤ◌, neg_ℤ, pos, false, not, Ok, length};
ghost use Rattle.sot_lang.specs.Values.{value_of, then_with, word, truth, is_true, floor_div};
ghost use Rattle.sot_lang.specs.Values.{rescaled as at_scale, called};
ghost use Rattle.sot_lang.specs.Ticks.{values};
ghost use Rattle.sot_syntax_tree.specs.Functions.{arity};
ghost use Rattle.sot_lang.specs.TermPlaces.{HasPlaces, HavePlaces};

use crate::numbers::{clamped, holds, magnitude, negate, operate, rescale, rest, truth_value};
use sot_lang::{Term, Trap};
use sot_syntax_tree::Func;
use sot_text::Span;

// The value of an expression, or the first trap. Numbers and names are answered first: a function
// pays at its entry for the room that it needs.
#[cycle(exact)]
fn exact(term: &Term, numbers: &[i64]) -> Result<i64, Trap>
    requires { HasPlaces (length numbers.now) term.now }
    ensures { result ≡ value_of term.now numbers.now }
{
    match term {
        Term::Number(z) => Ok(*z),
        Term::Place(n) => Ok(numbers[*n as usize]),
        _ => compound(term, numbers),
    }
}

// The value of an expression that is likely to have parts, or the first trap. What has one part
// has a function of its own, with the room for the part's value. Conditions come here at once,
// since a condition is hardly ever a number or a name.
#[cycle(exact)]
fn compound(term: &Term, numbers: &[i64]) -> Result<i64, Trap>
    requires { HasPlaces (length numbers.now) term.now }
    ensures { result ≡ value_of term.now numbers.now }
{
    match term {
        Term::Number(z) => Ok(*z),
        Term::Place(n) => Ok(numbers[*n as usize]),
        Term::Binary {
            op,
            left,
            right,
            at,
        } => {
            let a = exact(left, numbers)?;
            let b = exact(right, numbers)?;
            operate(*op, *at, a, b)
        }
        Term::Rest { left, by, .. } => remainder(left, *by, numbers),
        Term::Neg { part, at } => negation(part, *at, numbers),
        Term::Not { part, .. } => denial(part, numbers),
        Term::Call { func, parts, at } => call(*func, parts, *at, numbers),
        Term::Rescale { part, from, to, at } => rescaled(part, *from, *to, *at, numbers),
        Term::If { cond, yes, no, .. } => {
            if holds(compound(cond, numbers)?) {
                exact(yes, numbers)
            } else {
                exact(no, numbers)
            }
        }
    }
}

#[cycle(exact)]
fn remainder(left: &Term, by: i64, numbers: &[i64]) -> Result<i64, Trap>
    requires places { HasPlaces (length numbers.now) left.now }
    requires divisor { pos 1 ≤ℤ by }
    ensures { result ≡ then_with (value_of left.now numbers.now)
        (λ x. Ok (x -ℤ (by *ℤ floor_div x by))) }
{
    Ok(rest(exact(left, numbers)?, by))
}

#[cycle(exact)]
fn negation(part: &Term, at: Span, numbers: &[i64]) -> Result<i64, Trap>
    requires { HasPlaces (length numbers.now) part.now }
    ensures { result ≡ then_with (value_of part.now numbers.now) (λ x. word at (neg_ℤ x)) }
{
    negate(at, exact(part, numbers)?)
}

#[cycle(exact)]
fn denial(part: &Term, numbers: &[i64]) -> Result<i64, Trap>
    requires { HasPlaces (length numbers.now) part.now }
    ensures { result
        ≡ then_with (value_of part.now numbers.now) (λ x. Ok (truth (not (is_true x)))) }
{
    Ok(truth_value(!holds(exact(part, numbers)?)))
}

#[cycle(exact)]
fn rescaled(part: &Term, from: u8, to: u8, at: Span, numbers: &[i64]) -> Result<i64, Trap>
    requires places { HasPlaces (length numbers.now) part.now }
    requires first { from ≤ 6 }
    requires second { to ≤ 6 }
    ensures { result ≡ then_with (value_of part.now numbers.now) (at_scale at from to) }
{
    rescale(at, from, to, exact(part, numbers)?)
}

// The result of a function at its parts.
#[cycle(exact)]
fn call(func: Func, parts: &Vec<Term>, at: Span, numbers: &[i64]) -> Result<i64, Trap>
    requires parts { HavePlaces (length numbers.now) parts.now.items }
    requires arity { length parts.now.items ≡ arity func }
    ensures { result ≡ then_with (values parts.now.items numbers.now) (called func at) }
{
    match func {
        Func::Min => {
            let a = exact(&parts[0], numbers)?;
            let b = exact(&parts[1], numbers)?;
            Ok(a.min(b))
        }
        Func::Max => {
            let a = exact(&parts[0], numbers)?;
            let b = exact(&parts[1], numbers)?;
            Ok(a.max(b))
        }
        Func::Abs => magnitude(at, exact(&parts[0], numbers)?),
        Func::Clamp => {
            let a = exact(&parts[0], numbers)?;
            let l = exact(&parts[1], numbers)?;
            let h = exact(&parts[2], numbers)?;
            Ok(clamped(a, l, h))
        }
    }
}

// The value of an outcome. At a trap the flag is set, and the value is any.
fn kept(outcome: Result<i64, Trap>, trapped: &mut bool) -> i64
    ensures first { trapped.new ≡ false → trapped.old ≡ false }
    ensures value { trapped.new ≡ false → outcome ≡ Ok result }
{
    match outcome {
        Ok(z) => z,
        Err(_) => {
            *trapped = true;
            0
        }
    }
}

// The value of an expression, unless it traps: then the flag is set. A number is handed back in a
// register, where an outcome takes room and a test at each operator.
#[cycle(quick)]
fn quick(term: &Term, numbers: &[i64], trapped: &mut bool) -> i64
    requires { HasPlaces (length numbers.now) term.now }
    ensures first { trapped.new ≡ false → trapped.old ≡ false }
    ensures value { trapped.new ≡ false → value_of term.now numbers.now ≡ Ok result }
{
    match term {
        Term::Number(z) => *z,
        Term::Place(n) => numbers[*n as usize],
        _ => quick_compound(term, numbers, trapped),
    }
}

// The value of an expression that has parts, unless it traps: then the flag is set. What is rare
// is left to the exact way.
#[cycle(quick)]
fn quick_compound(term: &Term, numbers: &[i64], trapped: &mut bool) -> i64
    requires { HasPlaces (length numbers.now) term.now }
    ensures first { trapped.new ≡ false → trapped.old ≡ false }
    ensures value { trapped.new ≡ false → value_of term.now numbers.now ≡ Ok result }
{
    match term {
        Term::Binary {
            op,
            left,
            right,
            at,
        } => {
            let a = quick(left, numbers, trapped);
            let b = quick(right, numbers, trapped);
            kept(operate(*op, *at, a, b), trapped)
        }
        Term::If { cond, yes, no, .. } => {
            let c = quick(cond, numbers, trapped);
            if holds(c) {
                quick(yes, numbers, trapped)
            } else {
                quick(no, numbers, trapped)
            }
        }
        Term::Call { func, parts, at } => quick_call(*func, parts, *at, numbers, trapped),
        _ => kept(compound(term, numbers), trapped),
    }
}

// The result of a function at its parts.
#[cycle(quick)]
fn quick_call(func: Func, parts: &Vec<Term>, at: Span, numbers: &[i64], trapped: &mut bool) -> i64
    requires parts { HavePlaces (length numbers.now) parts.now.items }
    requires arity { length parts.now.items ≡ arity func }
    ensures first { trapped.new ≡ false → trapped.old ≡ false }
    ensures value { trapped.new ≡ false
        → then_with (values parts.now.items numbers.now) (called func at) ≡ Ok result }
{
    match func {
        Func::Min => {
            let a = quick(&parts[0], numbers, trapped);
            let b = quick(&parts[1], numbers, trapped);
            a.min(b)
        }
        Func::Max => {
            let a = quick(&parts[0], numbers, trapped);
            let b = quick(&parts[1], numbers, trapped);
            a.max(b)
        }
        Func::Abs => {
            let a = quick(&parts[0], numbers, trapped);
            kept(magnitude(at, a), trapped)
        }
        Func::Clamp => kept(call(func, parts, at, numbers), trapped),
    }
}

// The value of an expression with parts.
fn with_parts(term: &Term, numbers: &[i64]) -> Result<i64, Trap>
    requires { HasPlaces (length numbers.now) term.now }
    ensures { result ≡ value_of term.now numbers.now }
{
    let mut trapped = false;
    let z = quick_compound(term, numbers, &mut trapped);
    if trapped {
        return compound(term, numbers);
    }
    Ok(z)
}

/// The value of an expression, where each name has its number in the list.
pub fn value(term: &Term, numbers: &[i64]) -> Result<i64, Trap>
    requires { HasPlaces (length numbers.now) term.now }
    ensures { result ≡ value_of term.now numbers.now }
{
    match term {
        Term::Number(z) => Ok(*z),
        Term::Place(n) => Ok(numbers[*n as usize]),
        _ => with_parts(term, numbers),
    }
}
