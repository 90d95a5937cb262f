//! The first line of what waits.

ghost use Rattle.std.specs.Prelude.{◌≡◌, ◌<◌, ◌≤◌, true, false, length, MatchOption, IfSome};
ghost use Rattle.sot_text.specs.LineEnds.{line_len};
ghost use Rattle.sot_guard_input.specs.Waiting.{has_end};

use memchr::memchr;

/// How many bytes the first line has up to its line end, if it has one.
pub fn first_line(bytes: &[u8]) -> Option<usize>
    ensures found { MatchOption result
        (has_end bytes.now ≡ false)
        (λ len. (has_end bytes.now ≡ true) × (len ≡ line_len bytes.now)) }
    ensures within { IfSome result (λ len. len ≤ length bytes.now) }
{
    match memchr(b'\n', bytes) {
        Some(before) => Some(before + 1),
        None => None,
    }
}
