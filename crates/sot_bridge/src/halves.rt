//! The two missions of an input.

ghost use Rattle.std.specs.Prelude.{◌≡◌, codes};
ghost use Rattle.std.specs.Option.{option_map};
ghost use Rattle.sot_bridge.specs.MissionHalves.{is_bridge, halves_seen, halves_of};

use sot_sections::title;
use sot_text::line_len;

/// The bytes of the first mission and those of the second.
#[derive(Clone, Copy, Debug)]
pub struct MissionHalves<'a> {
    pub a: &'a [u8],
    pub b: &'a [u8],
}

fn is_bridge(line: &[u8]) -> bool
    ensures { result ≡ is_bridge line.now }
{
    title(line) == b"%bridge".as_slice()
}

/// The bytes before the first line `%bridge` and those behind it; none exactly where there is no
/// such line.
pub fn divide(bytes: &[u8]) -> Option<MissionHalves<'_>>
    ensures { option_map halves_seen result ≡ halves_of bytes.now }
{
    let mut at = 0;
    while at < bytes.len() {
        let (a, rest) = bytes.split_at(at);
        let len = line_len(rest);
        let (line, b) = rest.split_at(len);
        if is_bridge(line) {
            return Some(MissionHalves { a, b });
        }
        at += len;
    }
    None
}
