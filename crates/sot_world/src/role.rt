//! The part that a node plays in its module.

/// The part that a node plays in its module, which is named by its place.
#[derive(Clone, Copy, Debug, PartialEq, Eq)]
pub(crate) enum Role {
    /// Of no module.
    Free,
    Advanced(u32),
    Safe(u32),
}
