//! Pieces of a line, each read from the front of a text.

ghost use Rattle.std.specs.Prelude.{◌≡◌, ◌∷◌, [], ℕ, ℤ, pos, ◌+◌, ◌-◌, ◌<◌, ◌≤◌, ◌^◌, min, List};
ghost use Rattle.std.specs.Prelude.{length, Some, IsTrue, ◌↔◌, IfSome, IfNone};
ghost use Rattle.std.specs.List.{prefix_len};
ghost use Rattle.std.specs.Char.{is_ascii_digit};
ghost use Rattle.std.specs.Option.{option_map};
ghost use Rattle.sot_text.specs.Lexeme.{value, with_digits};
ghost use Rattle.sot_trace_lines.specs.Pieces.{behind, is_plain, digits_at, minus, numeral_at};
ghost use Rattle.sot_trace_lines.specs.Pieces.{positive_at, negative_at, number_at};
ghost use Rattle.sot_trace_lines.specs.Kept.{bounded, kept_numeral, kept_number};

// Digits, and the text behind them.
#[derive(Clone, Copy)]
struct Digits<'a> {
    digits: &'a [u8],
    rest: &'a [u8],
}

// What one digit stands for, and the text behind it.
#[derive(Clone, Copy)]
struct OneDigit<'a> {
    digit: u8,
    rest: &'a [u8],
}

/// A number, if it has 64 bits, and the text behind it.
#[derive(Clone, Copy)]
pub struct Number<'a> {
    pub value: Option<i64>,
    pub rest: &'a [u8],
}

// The number past the greatest that is kept.
const PAST: u64 = 1 << 63;

/// The text behind this byte, if it stands in front.
pub fn behind_byte(text: &[u8], byte: u8) -> Option<&[u8]>
    ensures { option_map (λ rest. rest.now) result ≡ behind (byte ∷ []) text.now }
{
    match text {
        [first, rest @ ..] if *first == byte => Some(rest),
        _ => None,
    }
}

/// The text behind these bytes, if they stand in front. It is inlined, so that bytes that are known
/// beforehand are compared at once.
#[inline(always)]
pub fn behind<'a>(text: &'a [u8], front: &[u8]) -> Option<&'a [u8]>
    ensures { option_map (λ rest. rest.now) result ≡ behind front.now text.now }
{
    text.strip_prefix(front)
}

fn digits_len(text: &[u8]) -> usize
    ensures len { result ≡ prefix_len is_ascii_digit text.now }
    ensures within { result ≤ length text.now }
{
    text.iter().take_while(|b| b.is_ascii_digit()).count()
}

// Some digits, of which the first is no 0 where further ones follow.
fn is_plain(digits: &[u8]) -> bool
    ensures { result ≡ is_plain digits.now }
{
    match digits {
        [] => false,
        [_] => true,
        [first, ..] => *first != b'0',
    }
}

fn digits_at<'a>(text: &'a [u8]) -> Option<Digits<'a>>
    ensures { option_map (λ d. (d.digits.now, d.rest.now)) result ≡ digits_at text.now }
{
    let (digits, rest) = text.split_at(digits_len(text));
    if is_plain(digits) {
        Some(Digits { digits, rest })
    } else {
        None
    }
}

// The number of these digits, counted up to the greatest of 64 bits.
fn magnitude(digits: &[u8]) -> u64
    ensures { result ≡ min (value digits.now) (2 ^ 64 - 1) }
{
    let mut sum = 0u64;
    for digit in digits {
        let more = u64::from(digit.saturating_sub(b'0'));
        sum = sum.saturating_mul(10).saturating_add(more);
    }
    sum
}

fn above(magnitude: u64) -> Option<i64>
    ensures { result ≡ bounded (pos magnitude) }
{
    if magnitude < PAST {
        Some(magnitude as i64)
    } else {
        None
    }
}

// The number of this magnitude below 0.
fn below(magnitude: u64) -> Option<i64>
    requires { 0 < magnitude }
    ensures { (z : ℤ) → minus magnitude ≡ Some z → result ≡ bounded z }
{
    if magnitude <= PAST {
        Some((-(magnitude as i128)) as i64)
    } else {
        None
    }
}

// Whether a text begins with no digit.
fn begins_otherwise(text: &[u8]) -> bool
    ensures { IsTrue result ↔ (prefix_len is_ascii_digit text.now ≡ 0) }
{
    match text {
        [first, ..] => !first.is_ascii_digit(),
        [] => true,
    }
}

// A numeral of one digit, as most are.
#[inline(always)]
fn one_digit_at<'a>(text: &'a [u8]) -> Option<OneDigit<'a>>
    ensures read { IfSome result (λ one. numeral_at text.now ≡ Some (one.digit, one.rest.now)) }
    ensures small { IfSome result (λ one. one.digit < 10) }
    ensures others { IfNone result (prefix_len is_ascii_digit text.now ≡ 1 → ⊥) }
{
    match text {
        [first, rest @ ..] if first.is_ascii_digit() && begins_otherwise(rest) => Some(OneDigit {
            digit: first.saturating_sub(b'0'),
            rest,
        }),
        _ => None,
    }
}

/// A number from 0 on. It is inlined, with those that call it, since most numbers have one digit.
#[inline(always)]
pub fn numeral_at<'a>(text: &'a [u8]) -> Option<Number<'a>>
    ensures { option_map (λ n. (n.value, n.rest.now)) result ≡ kept_numeral (numeral_at text.now) }
{
    match one_digit_at(text) {
        Some(one) => Some(Number {
            value: above(u64::from(one.digit)),
            rest: one.rest,
        }),
        None => longer_numeral_at(text),
    }
}

// A number from 0 on, of any digits.
fn longer_numeral_at<'a>(text: &'a [u8]) -> Option<Number<'a>>
    ensures { option_map (λ n. (n.value, n.rest.now)) result ≡ kept_numeral (numeral_at text.now) }
{
    let read = digits_at(text)?;
    Some(Number {
        value: above(magnitude(read.digits)),
        rest: read.rest,
    })
}

// A number below 0, behind its minus.
fn negative_at<'a>(text: &'a [u8]) -> Option<Number<'a>>
    ensures { option_map (λ n. (n.value, n.rest.now)) result ≡ kept_number (negative_at text.now) }
{
    match one_digit_at(text) {
        Some(one) => below_one_digit(one.digit, one.rest),
        None => longer_negative_at(text),
    }
}

fn below_one_digit(digit: u8, rest: &[u8]) -> Option<Number<'_>>
    requires { digit < 10 }
    ensures { (text : List ℕ) → numeral_at text ≡ Some (digit, rest.now)
        → option_map (λ n. (n.value, n.rest.now)) result ≡ kept_number (negative_at text) }
{
    if digit == 0 {
        return None;
    }
    Some(Number {
        value: below(u64::from(digit)),
        rest,
    })
}

// A number below 0, of any digits, behind its minus.
fn longer_negative_at<'a>(text: &'a [u8]) -> Option<Number<'a>>
    ensures { option_map (λ n. (n.value, n.rest.now)) result ≡ kept_number (negative_at text.now) }
{
    let read = digits_at(text)?;
    let magnitude = magnitude(read.digits);
    if magnitude == 0 {
        return None;
    }
    Some(Number {
        value: below(magnitude),
        rest: read.rest,
    })
}

/// A number, behind a `-` where it is below 0.
#[inline(always)]
pub fn number_at<'a>(text: &'a [u8]) -> Option<Number<'a>>
    ensures { option_map (λ n. (n.value, n.rest.now)) result ≡ kept_number (number_at text.now) }
{
    match text {
        [b'-', rest @ ..] => negative_at(rest),
        _ => numeral_at(text),
    }
}
