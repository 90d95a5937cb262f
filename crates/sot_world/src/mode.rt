//! The two modes of a module.

/// Which of a module's two nodes is enabled.
#[derive(Clone, Copy, Debug, PartialEq, Eq)]
pub enum Mode {
    /// The advanced node.
    Ac,
    /// The safe node.
    Sc,
}
