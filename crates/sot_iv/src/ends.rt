//! The least intervals of operators, from the ends of their operands' intervals.

ghost use Rattle.std.specs.Prelude.{◌≡◌, ◌≢◌, ◌≤◌, ◌≤ℤ◌, pos, IsTrue, ◌*ℤ◌, ◌-ℤ◌, ◌+ℤ◌, neg_ℤ};
ghost use Rattle.std.specs.Prelude.{◌&&◌, ◌||◌, not, int_lt, int_le};
ghost use Rattle.std.specs.Int.{int_max};
ghost use Rattle.sot_lang.specs.Values.{floor_div};
ghost use Rattle.sot_iv.specs.Ends.{side, fitted, sum, difference, least_of, greatest_of, product};
ghost use Rattle.sot_iv.specs.Ends.{quotient, quotient_or_trap, holds_zero, is_always, is_ever};
ghost use Rattle.sot_iv.specs.Ends.{truths, rest, negation, magnitude, least_side, greatest_side};
ghost use Rattle.sot_iv.specs.Ends.{hull, times_ten, scaled_to, rescaled};

use crate::MayTrap;
use sot_box::Interval;
use sot_lang::{TrapKind, floor};
use sot_text::Span;

// The interval from `lo` to `hi`, if both are in 64 bits.
fn fit(at: Span, lo: i128, hi: i128) -> Result<Interval, MayTrap>
    requires { lo ≤ℤ hi }
    ensures { result ≡ fitted at (side lo hi) }
{
    if lo < -9_223_372_036_854_775_808 || hi > 9_223_372_036_854_775_807 {
        return Err(MayTrap {
            at,
            kind: TrapKind::Wide,
            lo,
            hi,
        });
    }
    Ok(Interval {
        lo: lo as i64,
        hi: hi as i64,
    })
}

// Sums, differences, products and negations in 128 bits.
fn plus(a: i64, b: i64) -> i128
    ensures { result ≡ a +ℤ b }
{
    a as i128 + b as i128
}

fn less(a: i64, b: i64) -> i128
    ensures { result ≡ a -ℤ b }
{
    a as i128 - b as i128
}

fn minus(a: i64) -> i128
    ensures { result ≡ neg_ℤ a }
{
    -(a as i128)
}

// An interval of 64 bits fits, wherever it stands.
#[tactic(auto, using(crate::proofs::Wide::held_fits))]
pub(crate) fn refit(_at: Span, a: Interval) -> Result<Interval, MayTrap>
    ensures { result ≡ fitted _at a }
{
    Ok(a)
}

// Ends in 64 bits are an interval that fits.
#[tactic(auto, using(crate::proofs::Wide::held_fits))]
fn held(_at: Span, lo: i64, hi: i64) -> Result<Interval, MayTrap>
    requires { lo ≤ℤ hi }
    ensures { result ≡ fitted _at (side lo hi) }
{
    Ok(ordered(lo, hi))
}

pub(crate) fn sum_of(at: Span, a: i64, b: i64, c: i64, d: i64) -> Result<Interval, MayTrap>
    requires first { a ≤ℤ b }
    requires second { c ≤ℤ d }
    ensures { result ≡ fitted at (sum (side a b) (side c d)) }
{
    let Some(lo) = a.checked_add(c) else {
        return wide_sum(at, a, b, c, d);
    };
    let Some(hi) = b.checked_add(d) else {
        return wide_sum(at, a, b, c, d);
    };
    held(at, lo, hi)
}

// The interval of a sum in 128 bits, as the trap shows it.
fn wide_sum(at: Span, a: i64, b: i64, c: i64, d: i64) -> Result<Interval, MayTrap>
    requires first { a ≤ℤ b }
    requires second { c ≤ℤ d }
    ensures { result ≡ fitted at (sum (side a b) (side c d)) }
{
    let lo = plus(a, c);
    let hi = plus(b, d);
    fit(at, lo, hi)
}

pub(crate) fn difference_of(at: Span, a: i64, b: i64, c: i64, d: i64) -> Result<Interval, MayTrap>
    requires first { a ≤ℤ b }
    requires second { c ≤ℤ d }
    ensures { result ≡ fitted at (difference (side a b) (side c d)) }
{
    let Some(lo) = a.checked_sub(d) else {
        return wide_difference(at, a, b, c, d);
    };
    let Some(hi) = b.checked_sub(c) else {
        return wide_difference(at, a, b, c, d);
    };
    held(at, lo, hi)
}

fn wide_difference(at: Span, a: i64, b: i64, c: i64, d: i64) -> Result<Interval, MayTrap>
    requires first { a ≤ℤ b }
    requires second { c ≤ℤ d }
    ensures { result ≡ fitted at (difference (side a b) (side c d)) }
{
    let lo = less(a, d);
    let hi = less(b, c);
    fit(at, lo, hi)
}

fn times(a: i64, b: i64) -> i128
    ensures { result ≡ a *ℤ b }
{
    a as i128 * b as i128
}

fn least(p: i128, q: i128, r: i128, s: i128) -> i128
    ensures { result ≡ least_of p q r s }
{
    p.min(q).min(r.min(s))
}

fn greatest(p: i128, q: i128, r: i128, s: i128) -> i128
    ensures { result ≡ greatest_of p q r s }
{
    p.max(q).max(r.max(s))
}

// From the least to the greatest of four numbers.
fn span_of(at: Span, p: i128, q: i128, r: i128, s: i128) -> Result<Interval, MayTrap>
    ensures { result ≡ fitted at (side (least_of p q r s) (greatest_of p q r s)) }
{
    let lo = least(p, q, r, s);
    let hi = greatest(p, q, r, s);
    fit(at, lo, hi)
}

pub(crate) fn product_of(at: Span, a: i64, b: i64, c: i64, d: i64) -> Result<Interval, MayTrap>
    ensures { result ≡ fitted at (product (side a b) (side c d)) }
{
    let Some(p) = a.checked_mul(c) else {
        return wide_product(at, a, b, c, d);
    };
    let Some(q) = a.checked_mul(d) else {
        return wide_product(at, a, b, c, d);
    };
    let Some(r) = b.checked_mul(c) else {
        return wide_product(at, a, b, c, d);
    };
    let Some(s) = b.checked_mul(d) else {
        return wide_product(at, a, b, c, d);
    };
    corners(at, p, q, r, s)
}

fn wide_product(at: Span, a: i64, b: i64, c: i64, d: i64) -> Result<Interval, MayTrap>
    ensures { result ≡ fitted at (product (side a b) (side c d)) }
{
    let p = times(a, c);
    let q = times(a, d);
    let r = times(b, c);
    let s = times(b, d);
    span_of(at, p, q, r, s)
}

fn lowest(p: i64, q: i64, r: i64, s: i64) -> i64
    ensures { result ≡ least_of p q r s }
{
    p.min(q).min(r.min(s))
}

fn highest(p: i64, q: i64, r: i64, s: i64) -> i64
    ensures { result ≡ greatest_of p q r s }
{
    p.max(q).max(r.max(s))
}

// From the least to the greatest of four numbers of 64 bits.
fn corners(at: Span, p: i64, q: i64, r: i64, s: i64) -> Result<Interval, MayTrap>
    ensures { result ≡ fitted at (side (least_of p q r s) (greatest_of p q r s)) }
{
    let lo = lowest(p, q, r, s);
    let hi = highest(p, q, r, s);
    held(at, lo, hi)
}

fn has_zero(a: i64, b: i64) -> bool
    ensures { result ≡ holds_zero (side a b) }
{
    a <= 0 && 0 <= b
}

// The quotients where no divisor is 0.
fn quotient_at(at: Span, a: i64, b: i64, c: i64, d: i64) -> Result<Interval, MayTrap>
    requires first { c ≢ pos 0 }
    requires second { d ≢ pos 0 }
    ensures { result ≡ fitted at (quotient (side a b) (side c d)) }
{
    let p = floor(a, c);
    let q = floor(a, d);
    let r = floor(b, c);
    let s = floor(b, d);
    span_of(at, p, q, r, s)
}

#[tactic(auto, unfolding(crate::specs::Ends::quotient_or_trap))]
pub(crate) fn quotient_of(at: Span, a: i64, b: i64, c: i64, d: i64) -> Result<Interval, MayTrap>
    requires { c ≤ℤ d }
    ensures { result ≡ quotient_or_trap at (side a b) (side c d) }
{
    if has_zero(c, d) {
        return Err(MayTrap {
            at,
            kind: TrapKind::ZeroDivisor,
            lo: c as i128,
            hi: d as i128,
        });
    }
    if 0 < c {
        return quotient_above(at, a, b, c, d);
    }
    quotient_at(at, a, b, c, d)
}

// The quotients where each divisor is above 0: they are in 64 bits.
fn quotient_above(at: Span, a: i64, b: i64, c: i64, d: i64) -> Result<Interval, MayTrap>
    requires first { pos 1 ≤ℤ c }
    requires second { pos 1 ≤ℤ d }
    ensures { result ≡ fitted at (quotient (side a b) (side c d)) }
{
    let p = floor_above(a, c);
    let q = floor_above(a, d);
    let r = floor_above(b, c);
    let s = floor_above(b, d);
    corners(at, p, q, r, s)
}

fn and(a: bool, b: bool) -> bool
    ensures { result ≡ a && b }
{
    a && b
}

fn or(a: bool, b: bool) -> bool
    ensures { result ≡ a || b }
{
    a || b
}

// The truth values from whether all and whether some of the results are true.
fn truth_values(always: bool, ever: bool) -> Interval
    requires { IsTrue always → IsTrue ever }
    ensures { result ≡ truths always ever }
{
    Interval {
        lo: if always { 1 } else { 0 },
        hi: if ever { 1 } else { 0 },
    }
}

pub(crate) fn less_of(a: i64, b: i64, c: i64, d: i64) -> Interval
    requires first { a ≤ℤ b }
    requires second { c ≤ℤ d }
    ensures { result ≡ truths (int_lt b c) (int_lt a d) }
{
    truth_values(b < c, a < d)
}

pub(crate) fn at_most_of(a: i64, b: i64, c: i64, d: i64) -> Interval
    requires first { a ≤ℤ b }
    requires second { c ≤ℤ d }
    ensures { result ≡ truths (int_le b c) (int_le a d) }
{
    truth_values(b <= c, a <= d)
}

pub(crate) fn equal_of(a: i64, b: i64, c: i64, d: i64) -> Interval
    requires first { a ≤ℤ b }
    requires second { c ≤ℤ d }
    ensures { result ≡ truths (int_le b c && int_le d a) (int_le a d && int_le c b) }
{
    truth_values(and(b <= c, d <= a), and(a <= d, c <= b))
}

pub(crate) fn unequal_of(a: i64, b: i64, c: i64, d: i64) -> Interval
    requires first { a ≤ℤ b }
    requires second { c ≤ℤ d }
    ensures { result ≡ truths (not (int_le a d && int_le c b)) (not (int_le b c && int_le d a)) }
{
    truth_values(!and(a <= d, c <= b), !and(b <= c, d <= a))
}

// Every number from `a` to `b` is true.
fn always_true(a: i64, b: i64) -> bool
    ensures { result ≡ is_always (side a b) }
{
    !has_zero(a, b)
}

// Some number from `a` to `b` is true.
fn ever_true(a: i64, b: i64) -> bool
    ensures { result ≡ is_ever (side a b) }
{
    !(0 <= a && b <= 0)
}

pub(crate) fn is_sure(c: Interval) -> bool
    ensures { result ≡ is_always c }
{
    always_true(c.lo, c.hi)
}

pub(crate) fn is_possible(c: Interval) -> bool
    ensures { result ≡ is_ever c }
{
    ever_true(c.lo, c.hi)
}

pub(crate) fn both_of(a: i64, b: i64, c: i64, d: i64) -> Interval
    requires first { a ≤ℤ b }
    requires second { c ≤ℤ d }
    ensures { result ≡ truths (is_always (side a b) && is_always (side c d))
        (is_ever (side a b) && is_ever (side c d)) }
{
    let always = and(always_true(a, b), always_true(c, d));
    let ever = and(ever_true(a, b), ever_true(c, d));
    truth_values(always, ever)
}

pub(crate) fn either_of(a: i64, b: i64, c: i64, d: i64) -> Interval
    requires first { a ≤ℤ b }
    requires second { c ≤ℤ d }
    ensures { result ≡ truths (is_always (side a b) || is_always (side c d))
        (is_ever (side a b) || is_ever (side c d)) }
{
    let always = or(always_true(a, b), always_true(c, d));
    let ever = or(ever_true(a, b), ever_true(c, d));
    truth_values(always, ever)
}

pub(crate) fn denial_of(a: i64, b: i64) -> Interval
    requires { a ≤ℤ b }
    ensures { result ≡ truths (not (is_ever (side a b))) (not (is_always (side a b))) }
{
    truth_values(!ever_true(a, b), !always_true(a, b))
}

// The floor of a quotient by a number above 0, and its rest.
fn floor_above(a: i64, by: i64) -> i64
    requires { pos 1 ≤ℤ by }
    ensures { result ≡ floor_div a by }
{
    a.div_euclid(by)
}

fn rest_above(a: i64, by: i64) -> i64
    requires { pos 1 ≤ℤ by }
    ensures { result ≡ a -ℤ (by *ℤ floor_div a by) }
{
    a.rem_euclid(by)
}

fn rest_of(a: i64, b: i64, by: i64) -> Interval
    requires order { a ≤ℤ b }
    requires divisor { pos 1 ≤ℤ by }
    ensures { result ≡ rest by (side a b) }
{
    if floor_above(b, by) <= floor_above(a, by) {
        let lo = rest_above(a, by);
        let hi = rest_above(b, by);
        ordered(lo, hi)
    } else {
        ordered(0, by - 1)
    }
}

pub(crate) fn rest_at(at: Span, a: i64, b: i64, by: i64) -> Result<Interval, MayTrap>
    requires order { a ≤ℤ b }
    requires divisor { pos 1 ≤ℤ by }
    ensures { result ≡ fitted at (rest by (side a b)) }
{
    refit(at, rest_of(a, b, by))
}

pub(crate) fn negation_of(at: Span, a: i64, b: i64) -> Result<Interval, MayTrap>
    requires { a ≤ℤ b }
    ensures { result ≡ fitted at (negation (side a b)) }
{
    let Some(lo) = b.checked_neg() else {
        return wide_negation(at, a, b);
    };
    let Some(hi) = a.checked_neg() else {
        return wide_negation(at, a, b);
    };
    held(at, lo, hi)
}

fn wide_negation(at: Span, a: i64, b: i64) -> Result<Interval, MayTrap>
    requires { a ≤ℤ b }
    ensures { result ≡ fitted at (negation (side a b)) }
{
    let lo = minus(b);
    let hi = minus(a);
    fit(at, lo, hi)
}

// The magnitudes of numbers on both sides of 0.
fn farther_of(at: Span, a: i64, b: i64) -> Result<Interval, MayTrap>
    requires { pos 0 ≤ℤ b }
    ensures { result ≡ fitted at (side (pos 0) (int_max (neg_ℤ a) b)) }
{
    let low = minus(a);
    let hi = low.max(b as i128);
    fit(at, 0, hi)
}

pub(crate) fn magnitude_of(at: Span, a: i64, b: i64) -> Result<Interval, MayTrap>
    requires { a ≤ℤ b }
    ensures { result ≡ fitted at (magnitude (side a b)) }
{
    if 0 <= a {
        held(at, a, b)
    } else if b <= 0 {
        negation_of(at, a, b)
    } else {
        farther_of(at, a, b)
    }
}

// The interval from `lo` to `hi`.
pub(crate) fn ordered(lo: i64, hi: i64) -> Interval
    requires { lo ≤ℤ hi }
    ensures { result ≡ side lo hi }
{
    Interval { lo, hi }
}

pub(crate) fn lesser_of(a: i64, b: i64, c: i64, d: i64) -> Interval
    requires first { a ≤ℤ b }
    requires second { c ≤ℤ d }
    ensures { result ≡ least_side (side a b) (side c d) }
{
    let lo = a.min(c);
    let hi = b.min(d);
    ordered(lo, hi)
}

pub(crate) fn greater_of(a: i64, b: i64, c: i64, d: i64) -> Interval
    requires first { a ≤ℤ b }
    requires second { c ≤ℤ d }
    ensures { result ≡ greatest_side (side a b) (side c d) }
{
    let lo = a.max(c);
    let hi = b.max(d);
    ordered(lo, hi)
}

pub(crate) fn hull_of(a: i64, b: i64, c: i64, d: i64) -> Interval
    requires first { a ≤ℤ b }
    requires second { c ≤ℤ d }
    ensures { result ≡ hull (side a b) (side c d) }
{
    let lo = a.min(c);
    let hi = b.max(d);
    ordered(lo, hi)
}

fn power(n: u8) -> i64
    requires { n ≤ 6 }
    ensures { result ≡ pos (times_ten n) }
{
    match n {
        0 => 1,
        1 => 10,
        2 => 100,
        3 => 1_000,
        4 => 10_000,
        5 => 100_000,
        _ => 1_000_000,
    }
}

// A number at another scale.
fn scaled(a: i64, from: u8, to: u8) -> i128
    requires first { from ≤ 6 }
    requires second { to ≤ 6 }
    ensures { result ≡ scaled_to from to a }
{
    if from <= to {
        times(a, power(to - from))
    } else {
        floor_above(a, power(from - to)) as i128
    }
}

pub(crate) fn rescaled_of(at: Span, a: i64, b: i64, from: u8, to: u8) -> Result<Interval, MayTrap>
    requires order { a ≤ℤ b }
    requires first { from ≤ 6 }
    requires second { to ≤ 6 }
    ensures { result ≡ fitted at (rescaled from to (side a b)) }
{
    let lo = scaled(a, from, to);
    let hi = scaled(b, from, to);
    fit(at, lo, hi)
}
