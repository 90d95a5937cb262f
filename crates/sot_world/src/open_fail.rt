//! Why no world opens.

/// Why no world opens.
#[derive(Clone, Copy, Debug, PartialEq, Eq)]
pub enum OpenFail {
    /// The plant of this module starts outside the module's safer region, and no earlier module's
    /// does.
    NotSafer { module: u32 },
    /// There is no memory.
    Memory,
}
