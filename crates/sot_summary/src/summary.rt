//! What is counted of a flight.

/// The counts of a flight's history, beside the sizes of its program.
#[derive(Clone, Copy, Debug, PartialEq, Eq)]
pub struct Summary {
    pub modules: usize,
    pub nodes: usize,
    /// The ticks that the flight has.
    pub horizon: u32,
    /// Firings of nodes and decisions of modules.
    pub firings: usize,
    /// The ticks that the history tells.
    pub ticks: usize,
    /// Numbers of drafts that are outside their scalars' ranges.
    pub refused: u128,
    /// Ticks after which some plant is outside its module's safe region.
    pub outside: usize,
    /// The states of all plants after each tick, added up.
    pub sum: i128,
}
