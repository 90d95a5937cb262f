//! The first line of a text.
ghost use Rattle.std.specs.Prelude.{◌≡◌, ◌+◌, ◌≤◌, IfSome, length};
ghost use Rattle.sot_text.specs.LineEnds.{line_len};

use memchr::memchr;

/// How many bytes the first line has, with its line end. The last line may have none.
#[inline(never)]
pub fn line_len(bytes: &[u8]) -> usize
    ensures len { result ≡ line_len bytes.now }
    ensures within { result ≤ length bytes.now }
{
    match memchr(b'\n', bytes) {
        Some(before) => before + 1,
        None => bytes.len(),
    }
}

// So many bytes are looked at one by one, which is quicker for the many short comments than to
// begin a search.
const NEAR: usize = 16;

// The length of the first line with its line end, if it ends within the first `NEAR` bytes.
#[inline(always)]
fn near_line_len(bytes: &[u8]) -> Option<usize>
    ensures len { IfSome result (λ len. len ≡ line_len bytes.now) }
    ensures within { IfSome result (λ len. len ≤ length bytes.now) }
{
    if bytes.len() < NEAR {
        return None;
    }
    for i in 0..NEAR {
        if bytes[i] == b'\n' {
            return Some(i + 1);
        }
    }
    None
}

/// How many bytes the first line has, with its line end, for a line that is likely to be short, as
/// that of a comment.
#[inline(never)]
pub(crate) fn short_line_len(bytes: &[u8]) -> usize
    ensures len { result ≡ line_len bytes.now }
    ensures within { result ≤ length bytes.now }
{
    match near_line_len(bytes) {
        Some(len) => len,
        None => line_len(bytes),
    }
}
