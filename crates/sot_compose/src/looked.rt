//! Which regions are looked at.

/// Which of a module's regions the conditions look at that speak of no cells.
#[derive(Clone, Copy, Debug, PartialEq, Eq)]
pub enum LookedAt {
    BothRegions,
    /// The safe region stands for the safer one too, which need not be found yet.
    SafeAlone,
}
