//! What the last line counts beside the entries, kept while the flight goes on.

ghost use Rattle.std.specs.Prelude.{◌≡◌, ◌+◌, ◌<◌, ◌≤◌, ◌^◌};

use crate::judged::Added;

/// The ticks of a history so far, and its numbers outside their scalars' ranges.
#[derive(Clone, Copy)]
pub struct ReplayCounts {
    pub ticks: usize,
    pub refused: u128,
}

/// The counts with an entry more.
pub fn counted(counts: ReplayCounts, added: Added) -> ReplayCounts
    requires ticks { counts.ticks < 2 ^ 41 }
    requires refused { counts.refused < 2 ^ 41 }
    ensures ticks { result.ticks ≡ counts.ticks + added.ticks }
    ensures refused { result.refused ≡ counts.refused + added.refused }
    ensures few_ticks { result.ticks ≤ counts.ticks + 255 }
    ensures few_refused { result.refused ≤ counts.refused + 255 }
{
    ReplayCounts {
        ticks: counts.ticks + usize::from(added.ticks),
        refused: counts.refused + u128::from(added.refused),
    }
}
