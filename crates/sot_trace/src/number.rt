//! Numbers, each put behind what stands there already.

ghost use Rattle.std.specs.Prelude.{◌≡◌, ◌+◌, ◌<◌, ◌≤◌, ◌∷◌, [], ℕ, pos, negsuc, IfSome, IfNone};
ghost use Rattle.sot_trace.specs.Numbers.{numeral, signed_numeral, further, numbers};

use itoa::Buffer;
use sot_text_output::Out;

// A digit, by its value.
#[inline(always)]
fn put_digit<O: Out>(out: &mut O, value: u32)
    requires { value < 10 }
    ensures { O.puts out.old out.new ((48 + value) ∷ []) }
{
    out.put_byte(b'0' + value as u8);
}

#[inline(always)]
fn put_two<O: Out>(out: &mut O, number: u32)
    requires low { 10 ≤ number }
    requires high { number < 100 }
    ensures { O.puts out.old out.new (numeral number) }
{
    put_digit(out, number / 10);
    put_digit(out, number % 10);
}

#[inline(always)]
fn put_three<O: Out>(out: &mut O, number: u32)
    requires low { 100 ≤ number }
    requires high { number < 1000 }
    ensures { O.puts out.old out.new (numeral number) }
{
    put_two(out, number / 10);
    put_digit(out, number % 10);
}

// A number of up to three digits, digit by digit: what is written digit by digit and then copied at
// once is waited for.
#[inline(always)]
fn put_short<O: Out>(out: &mut O, number: u32)
    requires { number < 1000 }
    ensures { O.puts out.old out.new (numeral number) }
{
    if number < 10 {
        put_digit(out, number)
    } else if number < 100 {
        put_two(out, number)
    } else {
        put_three(out, number)
    }
}

/// A time or a place in decimal.
pub fn put_time<O: Out>(out: &mut O, time: u64)
    ensures { O.puts out.old out.new (numeral time) }
{
    if time < 1000 {
        return put_short(out, time as u32);
    }
    out.put(Buffer::new().format(time))
}

/// A count in decimal.
pub fn put_count<O: Out>(out: &mut O, count: u128)
    ensures { O.puts out.old out.new (numeral count) }
{
    out.put(Buffer::new().format(count))
}

/// The digit of a number from 0 to 9, as most numbers are.
pub fn digit(number: i64) -> Option<u8>
    ensures numeral { IfSome result (λ d. signed_numeral number ≡ d ∷ []) }
    ensures ascii { IfSome result (λ d. d < 128) }
    ensures others { IfNone result ((n : ℕ) → n < 10 → number ≡ pos n → ⊥) }
{
    if 0 <= number && number <= 9 {
        Some(b'0' + number as u8)
    } else {
        None
    }
}

/// The digit of a number from -9 to -1, which stands behind a `-`.
pub fn digit_below(number: i64) -> Option<u8>
    ensures numeral { IfSome result (λ d. signed_numeral number ≡ 45 ∷ d ∷ []) }
    ensures ascii { IfSome result (λ d. d < 128) }
    ensures others { IfNone result ((n : ℕ) → n < 9 → number ≡ negsuc n → ⊥) }
{
    if -9 <= number && number <= -1 {
        Some(b'0' + number.unsigned_abs() as u8)
    } else {
        None
    }
}

// A number that is neither a digit nor one behind a `-`.
fn put_much<O: Out>(out: &mut O, number: i64)
    ensures { O.puts out.old out.new (signed_numeral number) }
{
    if 0 <= number && number < 1000 {
        return put_short(out, number as u32);
    }
    out.put(Buffer::new().format(number))
}

// A number that is not one digit alone.
fn put_longer<O: Out>(out: &mut O, number: i64)
    ensures { O.puts out.old out.new (signed_numeral number) }
{
    match digit_below(number) {
        Some(digit) => {
            out.put_byte(b'-');
            out.put_byte(digit)
        }
        None => put_much(out, number),
    }
}

/// A number in decimal, behind a `-` where it is below 0. It is inlined, since most numbers have
/// one digit.
#[inline(always)]
pub fn put_number<O: Out>(out: &mut O, number: i64)
    ensures { O.puts out.old out.new (signed_numeral number) }
{
    match digit(number) {
        Some(digit) => out.put_byte(digit),
        None => put_longer(out, number),
    }
}

// A comma before each number.
fn put_further<O: Out>(out: &mut O, more: &[i64])
    ensures { O.puts out.old out.new (further more.now) }
{
    for number in more {
        out.put_byte(b',');
        put_number(out, *number);
    }
}

/// Numbers with a comma between two.
pub fn put_numbers<O: Out>(out: &mut O, all: &[i64])
    ensures { O.puts out.old out.new (numbers all.now) }
{
    if all.is_empty() {
        return;
    }
    put_number(out, all[0]);
    put_further(out, &all[1..]);
}
