//! Who drafts for a node.

use crate::spread::Spread;

/// Who drafts for a node.
#[derive(Drop)]
pub(crate) enum Crew {
    /// Its own code.
    Coded,
    /// A list of drafts for each firing, with a number or nothing for each scalar; the last one
    /// stays.
    Script(Vec<Vec<Option<i64>>>),
    /// Words of a generator, one a scalar that the node writes.
    Wild {
        spread: Spread,
        seed: u64,
        stream: u64,
    },
    /// The guest of this number.
    Guest(u32),
}

/// How a crew says who drafts.
#[derive(Clone, Copy, Debug, PartialEq, Eq)]
pub enum CrewKind {
    Script,
    Wild,
    Edge,
    Guest,
}
