//! Which topics a firing publishes on.

ghost use Rattle.std.specs.Prelude.{◌≡◌};
ghost use Rattle.sot_world.specs.Histories.{entry_of};
ghost use Rattle.sot_trace.specs.Fitting.{FitsEntry};
ghost use Rattle.sot_bridge.specs.SendLaws.{sends_on};

use sot_board::publishes;
use sot_lang::Typed;
use sot_trace::writes_of;
use sot_world::Entry;

/// Whether an entry is a firing that publishes some number of a topic.
pub fn sends_on(p: &Typed, topic: u32, entry: &Entry<'_>) -> bool
    requires { FitsEntry p.now (entry_of entry.now) }
    ensures { result ≡ sends_on p.now topic (entry_of entry.now) }
{
    match entry {
        Entry::Fire {
            node,
            draft,
            enabled,
            ..
        } => *enabled && publishes(p, topic, writes_of(p, *node), 0, draft),
        Entry::Input { .. } | Entry::Decide { .. } | Entry::Tick { .. } => false,
    }
}
