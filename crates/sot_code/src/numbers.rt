//! Operators, functions and changes of scale on numbers: what is not sure to be in 64 bits is
//! computed in 128, or tested as it is computed.

ghost use Rattle.std.specs.Prelude.{◌≡◌, ◌≢◌, ◌≤◌, ◌^◌, pos, ◌≤ℤ◌, ◌+ℤ◌, ◌-ℤ◌, ◌*ℤ◌, neg_ℤ};
ghost use Rattle.std.specs.Int.{int_min, int_max};
ghost use Rattle.sot_lang.specs.declared.trap.TrapKind.TheVariants.{Wide};
ghost use Rattle.sot_lang.specs.Values.{word, trap, quotient, floor_div, floor_by, apply, rescaled};
ghost use Rattle.sot_lang.specs.Values.{truth, is_true};

use sot_lang::{Trap, TrapKind, floor};
use sot_syntax_tree::Op;
use sot_text::Span;

/// The number, if it is in 64 bits.
pub fn fit(at: Span, wide: i128) -> Result<i64, Trap>
    ensures { result ≡ word at wide }
{
    if wide < -9_223_372_036_854_775_808 || wide > 9_223_372_036_854_775_807 {
        return Err(Trap {
            at,
            kind: TrapKind::Wide,
        });
    }
    Ok(wide as i64)
}

// The trap of a result that is not in 64 bits.
fn wide(at: Span) -> Result<i64, Trap>
    ensures { result ≡ trap at Wide }
{
    Err(Trap {
        at,
        kind: TrapKind::Wide,
    })
}

#[tactic(auto, using(crate::proofs::Words::word_fits, crate::proofs::Words::word_wide))]
fn add(at: Span, a: i64, b: i64) -> Result<i64, Trap>
    ensures { result ≡ word at (a +ℤ b) }
{
    match a.checked_add(b) {
        Some(z) => Ok(z),
        None => wide(at),
    }
}

#[tactic(auto, using(crate::proofs::Words::word_fits, crate::proofs::Words::word_wide))]
fn subtract(at: Span, a: i64, b: i64) -> Result<i64, Trap>
    ensures { result ≡ word at (a -ℤ b) }
{
    match a.checked_sub(b) {
        Some(z) => Ok(z),
        None => wide(at),
    }
}

fn multiply(at: Span, a: i64, b: i64) -> Result<i64, Trap>
    ensures { result ≡ word at (a *ℤ b) }
{
    fit(at, a as i128 * b as i128)
}

fn divide(at: Span, a: i64, b: i64) -> Result<i64, Trap>
    ensures { result ≡ quotient at a b }
{
    if b == 0 {
        return Err(Trap {
            at,
            kind: TrapKind::ZeroDivisor,
        });
    }
    if b > 0 {
        return Ok(floor_above(a, b));
    }
    fit(at, floor(a, b))
}

// The floor of a quotient by a number above 0, which is in 64 bits.
fn floor_above(a: i64, by: i64) -> i64
    requires { pos 1 ≤ℤ by }
    ensures { result ≡ floor_div a by }
{
    a.div_euclid(by)
}

/// What is left of a number after the multiples of another that is at least 1.
pub fn rest(a: i64, by: i64) -> i64
    requires { pos 1 ≤ℤ by }
    ensures { result ≡ a -ℤ (by *ℤ floor_div a by) }
{
    a.rem_euclid(by)
}

/// 1 for true and 0 for false.
pub fn truth_value(b: bool) -> i64
    ensures { result ≡ truth b }
{
    if b { 1 } else { 0 }
}

/// Whether a number stands for true.
pub fn holds(z: i64) -> bool
    ensures { result ≡ is_true z }
{
    z != 0
}

/// The result of an operator at two numbers. It is put in where it is called: a call would write
/// and read an outcome.
#[inline(always)]
pub fn operate(op: Op, at: Span, a: i64, b: i64) -> Result<i64, Trap>
    ensures { result ≡ apply op at a b }
{
    match op {
        Op::Add => add(at, a, b),
        Op::Sub => subtract(at, a, b),
        Op::Mul => multiply(at, a, b),
        Op::Div => divide(at, a, b),
        Op::Less => Ok(truth_value(a < b)),
        Op::LessEqual => Ok(truth_value(a <= b)),
        Op::Greater => Ok(truth_value(b < a)),
        Op::GreaterEqual => Ok(truth_value(b <= a)),
        Op::Equal => Ok(truth_value(a <= b && b <= a)),
        Op::NotEqual => Ok(truth_value(!(a <= b && b <= a))),
        Op::And => Ok(truth_value(holds(a) && holds(b))),
        Op::Or => Ok(truth_value(holds(a) || holds(b))),
    }
}

pub fn negate(at: Span, a: i64) -> Result<i64, Trap>
    ensures { result ≡ word at (neg_ℤ a) }
{
    fit(at, -(a as i128))
}

pub fn magnitude(at: Span, a: i64) -> Result<i64, Trap>
    ensures { result ≡ word at (int_max a (neg_ℤ a)) }
{
    fit(at, (a as i128).abs())
}

/// The number nearest to the first one between the other two, and the low end where it is above the
/// high end.
pub fn clamped(a: i64, l: i64, h: i64) -> i64
    ensures { result ≡ int_max l (int_min a h) }
{
    a.min(h).max(l)
}

/// Ten to this power, where it is at most 6.
pub fn power_of_ten(k: u8) -> i64
    ensures value { k ≤ 6 → result ≡ pos (10 ^ k) }
    ensures some { pos 1 ≤ℤ result }
{
    match k {
        0 => 1,
        1 => 10,
        2 => 100,
        3 => 1_000,
        4 => 10_000,
        5 => 100_000,
        _ => 1_000_000,
    }
}

/// The number with another count of decimals, rounded down.
#[tactic(auto, using(crate::proofs::Scales::rescaled_up, crate::proofs::Scales::rescaled_down))]
pub fn rescale(at: Span, from: u8, to: u8, a: i64) -> Result<i64, Trap>
    requires from { from ≤ 6 }
    requires to { to ≤ 6 }
    ensures { result ≡ rescaled at from to a }
{
    if from <= to {
        multiply(at, a, power_of_ten(to - from))
    } else {
        Ok(floor_above(a, power_of_ten(from - to)))
    }
}
