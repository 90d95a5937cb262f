//! What drives the disturbances of a plant.

use crate::spread::Spread;

/// What drives the disturbances of a plant.
#[derive(Drop)]
pub(crate) enum Sway {
    /// The plant has none.
    Still,
    /// Each is at its low bound.
    Low,
    /// Each is at its high bound.
    High,
    /// A list of disturbances for each tick; the last one stays.
    Listed(Vec<Vec<i64>>),
    /// Words of a generator, one a disturbance.
    Drawn {
        spread: Spread,
        seed: u64,
        stream: u64,
    },
}

/// How a sway says what drives the disturbances.
#[derive(Clone, Copy, Debug, PartialEq, Eq)]
pub enum SwayKind {
    Low,
    High,
    List,
    Seed,
    Edge,
}
