//! Why no guard begins.

/// Why no guard begins.
#[derive(Clone, Copy, Debug, PartialEq, Eq)]
pub enum BeginFail {
    /// The first commands do not hold this module's plant safe until its safe node fires, and they
    /// hold that of each earlier module.
    NotHeldSafe { module: u32 },
    /// There is no memory.
    Memory,
}
