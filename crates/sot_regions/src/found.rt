//! What is found for a module, and why nothing is.

ghost use Rattle.std.specs.Prelude.{◌≡◌};
ghost use Rattle.sot_regions.specs.declared.found.RegionsFail.TheVariants.{Memory};

use sot_box::{BoxN, Point};
use std::alloc::{AllocError, AllocFailed};

/// Boxes of the plant of a module, in order.
#[derive(Drop)]
pub struct FoundRegions {
    /// The safe region.
    pub safe: Vec<BoxN>,
    /// The safer region, whose boxes are its reach cells too.
    pub safer: Vec<BoxN>,
    /// The closed cells of the safe region.
    pub cells: Vec<BoxN>,
}

/// Why there are no regions of a module.
#[derive(Clone, Copy, Debug, PartialEq, Eq)]
pub enum RegionsFail {
    /// There is no atom of the narrowest grain whose held tube stays among such atoms. It comes
    /// before the others, with the grain of each state variable.
    SafeNone { grain: Point },
    /// No region inside is found that has few enough boxes and cells.
    TooMany,
    /// A safe region is found, and no box of it from which any commands keep in it.
    SaferNone,
    /// There was no memory. It says nothing of the module.
    Memory,
}

impl From<AllocError> for RegionsFail {
    ghost from_gives = { λ _ e. e ≡ Memory };

    fn from(_e: AllocError) -> RegionsFail {
        RegionsFail::Memory
    }
}

impl<T: Drop> From<AllocFailed<T>> for RegionsFail {
    ghost from_gives = { λ _ e. e ≡ Memory };

    fn from(_e: AllocFailed<T>) -> RegionsFail {
        RegionsFail::Memory
    }
}
