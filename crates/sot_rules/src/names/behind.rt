//! Whether names stand behind a place of the text.
ghost use Rattle.std.specs.Prelude.{◌≡◌, map};
ghost use Rattle.sot_rules.specs.Behind.{names_behind};

use crate::fault::is_behind;
use sot_names::Named;
use sot_text::Span;

/// How many items of a list are looked at by themselves at first. Hardly any list without a fault
/// has more.
pub const FRONT: usize = 128;

/// Whether the names of all things of a list stand behind a place.
pub fn are_names_behind<T: Named>(items: &[T], from: Span) -> bool
    ensures { result ≡ names_behind from (map T.ident items.now) }
{
    for item in items {
        if !is_behind(item.ident().at, from) {
            return false;
        }
    }
    true
}
