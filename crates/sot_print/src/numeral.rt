//! The digits of a number.
ghost use Rattle.std.specs.Prelude.{◌≡◌, ◌<◌, ◌+◌, ◌%◌, ◌++◌, [], ◌∷◌, ◌/◌, ◌^◌, OnOk};
ghost use Rattle.std.specs.String.{string_bytes};
ghost use Rattle.std.specs.Fmt.{decimal};
ghost use Rattle.sot_print.specs.Leaves.{last_digits, numeral};

use itoa::Buffer;
use std::alloc::AllocError;

fn push_digit(out: &mut String, digit: u8) -> Result<(), AllocError>
    requires { digit < 10 }
    ensures { OnOk result (string_bytes out.new ≡ string_bytes out.old ++ (48 + digit) ∷ []) }
{
    out.push(char::from(b'0' + digit))
}

// The last digit of a number.
fn push_last(out: &mut String, number: u64) -> Result<(), AllocError>
    ensures { OnOk result (string_bytes out.new ≡ string_bytes out.old ++ (48 + number % 10) ∷ []) }
{
    push_digit(out, (number % 10) as u8)
}

// A whole number. Most numbers of a program have one digit.
#[tactic(auto, using(crate::proofs::Numerals::one_digit))]
fn push_whole(out: &mut String, number: u64) -> Result<(), AllocError>
    ensures { OnOk result (string_bytes out.new ≡ string_bytes out.old ++ decimal number) }
{
    if number < 10 {
        return push_last(out, number);
    }
    out.push_str(Buffer::new().format(number))
}

// So many last digits of a number, zeros in front too.
fn push_decimals(out: &mut String, number: u64, count: u8) -> Result<(), AllocError>
    ensures { OnOk result
        (string_bytes out.new ≡ string_bytes out.old ++ last_digits count number) }
{
    if count == 0 {
        return Ok(());
    }
    push_decimals(out, number / 10, count - 1)?;
    push_last(out, number)
}

#[tactic(auto, using(crate::proofs::Numerals::shifted))]
fn whole_part(digits: u64, scale: u8) -> u64
    ensures { result ≡ digits / 10 ^ scale }
{
    if scale == 0 {
        digits
    } else {
        whole_part(digits / 10, scale - 1)
    }
}

/// A number of these digits, the last of them decimals.
pub fn push_numeral(out: &mut String, digits: u64, scale: u8) -> Result<(), AllocError>
    ensures { OnOk result (string_bytes out.new ≡ string_bytes out.old ++ numeral digits scale) }
{
    push_whole(out, whole_part(digits, scale))?;
    if scale == 0 {
        return Ok(());
    }
    out.push('.')?;
    push_decimals(out, digits, scale)
}
