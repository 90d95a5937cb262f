//! The line behind which a robot speaks.

ghost use Rattle.std.specs.Prelude.{◌≡◌};
ghost use Rattle.std.specs.List.{list_all};
ghost use Rattle.std.specs.Char.{is_ascii_digit};
ghost use Rattle.sot_guard_input.specs.Marks.{is_numeral, time_said, marked_time};

use sot_sections::title;
use sot_text::numeral_of;

/// The last time at which a robot may begin to speak.
const LAST_TIME: u64 = 1_000_000_000_000;

fn all_digits(text: &[u8]) -> bool
    ensures { result ≡ list_all is_ascii_digit text.now }
{
    text.iter().all(|b| b.is_ascii_digit())
}

// Whether a text is digits alone, with no zero in front of others.
fn is_numeral(text: &[u8]) -> bool
    ensures { result ≡ is_numeral text.now }
{
    if text.is_empty() {
        return false;
    }
    if text[0] == b'0' {
        return text.len() == 1;
    }
    all_digits(text)
}

// The time that a text says, if it says one.
fn time_said(text: &[u8]) -> Option<u64>
    ensures { result ≡ time_said text.now }
{
    if !is_numeral(text) {
        return None;
    }
    let time = numeral_of(text).mantissa;
    if time > LAST_TIME {
        return None;
    }
    Some(time)
}

/// The time at which a robot speaks behind a line, if the line says `%observed`.
pub(crate) fn marked_time(line: &[u8]) -> Option<u64>
    ensures { result ≡ marked_time line.now }
{
    let said = title(line);
    if said == b"%observed".as_slice() {
        return Some(0);
    }
    match said.strip_prefix(b"%observed ".as_slice()) {
        Some(time) => time_said(time),
        None => None,
    }
}
