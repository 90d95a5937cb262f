//! Whose turn it is.

/// What a session hears next.
#[derive(Clone, Copy, Debug, PartialEq, Eq)]
pub enum SessionEvent {
    /// Inputs and drafts of an instant, until it is gone through.
    Instant,
    /// Where all plants are after the tick.
    Tick,
}
