//! Why a module has no rank.

ghost use Rattle.std.specs.Prelude.{◌≡◌};
ghost use Rattle.sot_recover.specs.declared.fail.RecoverFail.TheVariants.{Memory};

use sot_box::Point;
use std::alloc::AllocError;

/// Why a module has no rank.
#[derive(Clone, Copy, Debug, PartialEq, Eq)]
pub enum RecoverFail {
    /// The cells of all ranks leave this point of the safe region out.
    Never { point: Point },
    /// There was no memory.
    Memory,
}

impl From<AllocError> for RecoverFail {
    ghost from_gives = { λ _ e. e ≡ Memory };

    fn from(_e: AllocError) -> RecoverFail {
        RecoverFail::Memory
    }
}
