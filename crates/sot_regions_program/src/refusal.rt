//! Why a program gets no regions.

use sot_box::Point;

/// Why a program gets no regions. Modules are named by their place in declared order.
#[derive(Clone, Copy, Debug, PartialEq, Eq)]
pub enum RegionsRefusal {
    /// This jitter is not below the period of some node or module.
    Jitter(u32),
    /// Of the atoms of this grain, in scaled units of each state variable, none may stay. No other
    /// plant concerns the module.
    SafeNone { module: u32, grain: Point },
    /// None may stay either, but the module's plant sees another one, or its safe node reads one.
    SafeNoneBeside { module: u32, grain: Point },
    /// No closed region was found of at most 256 boxes and 4,096 cells.
    TooMany { module: u32 },
    /// From no box inside the region that was found the plant stays in it for two periods.
    SaferNone { module: u32 },
}
