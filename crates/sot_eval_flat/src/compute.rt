//! What an instruction computes, and a list of them one after another.

ghost use Rattle.std.specs.Prelude.{◌≡◌, ◌≤ℤ◌, ◌+ℤ◌, ◌-ℤ◌, ◌*ℤ◌, neg_ℤ, pos, true, false, Ok};
ghost use Rattle.std.specs.Prelude.{length};
ghost use Rattle.std.specs.Int.{int_max};
ghost use Rattle.sot_lang.specs.Values.{word, truth, is_true, quotient, floor_div};
ghost use Rattle.sot_eval_flat.specs.Instructions.{made, Does, Runs};
ghost use Rattle.sot_eval_flat.specs.declared.instruction.Make.TheVariants.{Rest, Within};

use crate::instruction::{Instruction, Make};
use sot_lang::floor;

// The flag is set, and the number is any.
fn stop(trapped: &mut bool) -> i64
    ensures { trapped.new ≡ true }
{
    *trapped = true;
    0
}

// The number, where it is in 64 bits.
#[tactic(auto, using(crate::proofs::Words::fits))]
fn fit(wide: i128, trapped: &mut bool) -> i64
    ensures first { trapped.new ≡ false → trapped.old ≡ false }
    ensures value { trapped.new ≡ false → (at : _) → word at wide ≡ Ok result }
{
    if wide < -9_223_372_036_854_775_808 || wide > 9_223_372_036_854_775_807 {
        return stop(trapped);
    }
    wide as i64
}

#[tactic(auto, using(crate::proofs::Words::fits))]
fn add(a: i64, b: i64, trapped: &mut bool) -> i64
    ensures first { trapped.new ≡ false → trapped.old ≡ false }
    ensures value { trapped.new ≡ false → (at : _) → word at (a +ℤ b) ≡ Ok result }
{
    match a.checked_add(b) {
        Some(z) => z,
        None => stop(trapped),
    }
}

#[tactic(auto, using(crate::proofs::Words::fits))]
fn subtract(a: i64, b: i64, trapped: &mut bool) -> i64
    ensures first { trapped.new ≡ false → trapped.old ≡ false }
    ensures value { trapped.new ≡ false → (at : _) → word at (a -ℤ b) ≡ Ok result }
{
    match a.checked_sub(b) {
        Some(z) => z,
        None => stop(trapped),
    }
}

fn multiply(a: i64, b: i64, trapped: &mut bool) -> i64
    ensures first { trapped.new ≡ false → trapped.old ≡ false }
    ensures value { trapped.new ≡ false → (at : _) → word at (a *ℤ b) ≡ Ok result }
{
    fit(a as i128 * b as i128, trapped)
}

fn negate(a: i64, trapped: &mut bool) -> i64
    ensures first { trapped.new ≡ false → trapped.old ≡ false }
    ensures value { trapped.new ≡ false → (at : _) → word at (neg_ℤ a) ≡ Ok result }
{
    subtract(0, a, trapped)
}

fn absolute(a: i64, trapped: &mut bool) -> i64
    ensures first { trapped.new ≡ false → trapped.old ≡ false }
    ensures value { trapped.new ≡ false → (at : _) → word at (int_max a (neg_ℤ a)) ≡ Ok result }
{
    fit((a as i128).abs(), trapped)
}

fn divide(a: i64, b: i64, trapped: &mut bool) -> i64
    ensures first { trapped.new ≡ false → trapped.old ≡ false }
    ensures value { trapped.new ≡ false → (at : _) → quotient at a b ≡ Ok result }
{
    if b > 0 {
        return floor_above(a, b);
    }
    if b == 0 {
        return stop(trapped);
    }
    fit(floor(a, b), trapped)
}

// The floor of a quotient by a number above 0, which is in 64 bits.
fn floor_above(a: i64, by: i64) -> i64
    requires { pos 1 ≤ℤ by }
    ensures { result ≡ floor_div a by }
{
    a.div_euclid(by)
}

fn rest(a: i64, by: i64, trapped: &mut bool) -> i64
    ensures first { trapped.new ≡ false → trapped.old ≡ false }
    ensures value { trapped.new ≡ false → (at : _) (c : _) → made Rest at a by c ≡ Ok result }
{
    if by < 1 {
        return stop(trapped);
    }
    a.rem_euclid(by)
}

fn within(z: i64, lo: i64, hi: i64, trapped: &mut bool) -> i64
    ensures first { trapped.new ≡ false → trapped.old ≡ false }
    ensures value { trapped.new ≡ false → (at : _) → made Within at z lo hi ≡ Ok result }
{
    if lo <= z && z <= hi { z } else { stop(trapped) }
}

fn truth_value(b: bool) -> i64
    ensures { result ≡ truth b }
{
    if b { 1 } else { 0 }
}

fn holds(z: i64) -> bool
    ensures { result ≡ is_true z }
{
    z != 0
}

// What an instruction makes of three numbers. It is put in where it is called.
#[inline(always)]
fn compute(make: Make, a: i64, b: i64, c: i64, trapped: &mut bool) -> i64
    ensures first { trapped.new ≡ false → trapped.old ≡ false }
    ensures value { trapped.new ≡ false → (at : _) → made make at a b c ≡ Ok result }
{
    match make {
        Make::Add => add(a, b, trapped),
        Make::Sub => subtract(a, b, trapped),
        Make::Mul => multiply(a, b, trapped),
        Make::Div => divide(a, b, trapped),
        Make::Less => truth_value(a < b),
        Make::LessEqual => truth_value(a <= b),
        Make::Greater => truth_value(b < a),
        Make::GreaterEqual => truth_value(b <= a),
        Make::Equal => truth_value(a <= b && b <= a),
        Make::NotEqual => truth_value(!(a <= b && b <= a)),
        Make::And => truth_value(holds(a) && holds(b)),
        Make::Or => truth_value(holds(a) || holds(b)),
        Make::Without => truth_value(holds(a) && !holds(b)),
        Make::Min => a.min(b),
        Make::Max => a.max(b),
        Make::Clamp => a.min(c).max(b),
        Make::Neg => negate(a, trapped),
        Make::Abs => absolute(a, trapped),
        Make::Not => truth_value(!holds(a)),
        Make::Rest => rest(a, b, trapped),
        Make::Select => { if holds(a) { b } else { c } }
        Make::Within => within(a, b, c, trapped),
    }
}

// The flag is set by a trap that counts.
#[inline(always)]
fn count(stopped: bool, counts: i64, trapped: &mut bool)
    ensures first { trapped.new ≡ false → trapped.old ≡ false }
    ensures none { trapped.new ≡ false → is_true counts ≡ true → stopped ≡ false }
{
    if stopped && holds(counts) {
        *trapped = true;
    }
}

// One instruction.
#[inline(always)]
fn act(one: &Instruction, room: &mut [i64], trapped: &mut bool)
    requires { length room.old ≡ 256 }
    ensures first { trapped.new ≡ false → trapped.old ≡ false }
    ensures does { trapped.new ≡ false → Does one.now room.old room.new }
    ensures size { length room.new ≡ 256 }
{
    let (a, b, c) = (
        room[one.a as usize],
        room[one.b as usize],
        room[one.c as usize],
    );
    let mut stopped = false;
    let made = compute(one.make, a, b, c, &mut stopped);
    count(stopped, room[one.counts as usize], trapped);
    room[one.to as usize] = made;
}

/// The instructions, one after another, unless a trap counts: then the flag is set.
pub fn run_line(line: &[Instruction], room: &mut [i64], trapped: &mut bool)
    requires { length room.old ≡ 256 }
    ensures first { trapped.new ≡ false → trapped.old ≡ false }
    ensures runs { trapped.new ≡ false → Runs line.now room.old room.new }
    ensures size { length room.new ≡ 256 }
{
    for one in line {
        act(one, room, trapped);
    }
}
