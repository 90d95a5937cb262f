//! The least intervals of operators, functions and changes of scale.

ghost use Rattle.std.specs.Prelude.{◌≡◌, ◌≤◌, ◌≤ℤ◌, pos};
ghost use Rattle.sot_iv.specs.Ends.{fitted, operated, quotient_or_trap, rest, negation, denied};
ghost use Rattle.sot_iv.specs.Ends.{magnitude, least_side, greatest_side, clamped, rescaled, hull};

use crate::{MayTrap, ends};
use sot_box::Interval;
use sot_syntax_tree::Op;
use sot_text::Span;

fn divide(at: Span, a: Interval, b: Interval) -> Result<Interval, MayTrap>
    ensures { result ≡ quotient_or_trap at a b }
{
    ends::quotient_of(at, a.lo, a.hi, b.lo, b.hi)
}

pub(crate) fn operate(op: Op, at: Span, a: Interval, b: Interval) -> Result<Interval, MayTrap>
    ensures { result ≡ operated op at a b }
{
    match op {
        Op::Add => ends::sum_of(at, a.lo, a.hi, b.lo, b.hi),
        Op::Sub => ends::difference_of(at, a.lo, a.hi, b.lo, b.hi),
        Op::Mul => ends::product_of(at, a.lo, a.hi, b.lo, b.hi),
        Op::Div => divide(at, a, b),
        Op::Less => Ok(ends::less_of(a.lo, a.hi, b.lo, b.hi)),
        Op::LessEqual => Ok(ends::at_most_of(a.lo, a.hi, b.lo, b.hi)),
        Op::Greater => Ok(ends::less_of(b.lo, b.hi, a.lo, a.hi)),
        Op::GreaterEqual => Ok(ends::at_most_of(b.lo, b.hi, a.lo, a.hi)),
        Op::Equal => Ok(ends::equal_of(a.lo, a.hi, b.lo, b.hi)),
        Op::NotEqual => Ok(ends::unequal_of(a.lo, a.hi, b.lo, b.hi)),
        Op::And => Ok(ends::both_of(a.lo, a.hi, b.lo, b.hi)),
        Op::Or => Ok(ends::either_of(a.lo, a.hi, b.lo, b.hi)),
    }
}

pub(crate) fn divide_rest(at: Span, a: Interval, by: i64) -> Result<Interval, MayTrap>
    requires { pos 1 ≤ℤ by }
    ensures { result ≡ fitted at (rest by a) }
{
    ends::rest_at(at, a.lo, a.hi, by)
}

pub(crate) fn negate(at: Span, a: Interval) -> Result<Interval, MayTrap>
    ensures { result ≡ fitted at (negation a) }
{
    ends::negation_of(at, a.lo, a.hi)
}

pub(crate) fn deny(a: Interval) -> Interval
    ensures { result ≡ denied a }
{
    ends::denial_of(a.lo, a.hi)
}

pub(crate) fn absolute(at: Span, a: Interval) -> Result<Interval, MayTrap>
    ensures { result ≡ fitted at (magnitude a) }
{
    ends::magnitude_of(at, a.lo, a.hi)
}

pub(crate) fn rescale(at: Span, a: Interval, from: u8, to: u8) -> Result<Interval, MayTrap>
    requires first { from ≤ 6 }
    requires second { to ≤ 6 }
    ensures { result ≡ fitted at (rescaled from to a) }
{
    ends::rescaled_of(at, a.lo, a.hi, from, to)
}

pub(crate) fn minimum(at: Span, a: Interval, b: Interval) -> Result<Interval, MayTrap>
    ensures { result ≡ fitted at (least_side a b) }
{
    ends::refit(at, ends::lesser_of(a.lo, a.hi, b.lo, b.hi))
}

pub(crate) fn maximum(at: Span, a: Interval, b: Interval) -> Result<Interval, MayTrap>
    ensures { result ≡ fitted at (greatest_side a b) }
{
    ends::refit(at, ends::greater_of(a.lo, a.hi, b.lo, b.hi))
}

fn lesser(a: Interval, b: Interval) -> Interval
    ensures { result ≡ least_side a b }
{
    ends::lesser_of(a.lo, a.hi, b.lo, b.hi)
}

pub(crate) fn clamp(
    at: Span,
    a: Interval,
    low: Interval,
    high: Interval,
) -> Result<Interval, MayTrap>
    ensures { result ≡ fitted at (clamped a low high) }
{
    maximum(at, low, lesser(a, high))
}

/// The hull of two intervals.
pub(crate) fn hull_with(a: Interval, b: Interval) -> Interval
    ensures { result ≡ hull a b }
{
    ends::hull_of(a.lo, a.hi, b.lo, b.hi)
}
