//! Why a body has no flat form.

ghost use Rattle.std.specs.Prelude.{◌≡◌};
ghost use Rattle.sot_eval_flat.specs.declared.unfit.Unfit.TheVariants.{Memory};

use std::alloc::{AllocError, AllocFailed};

/// Why a body has no flat form.
#[derive(Clone, Copy, Debug, PartialEq, Eq)]
pub enum Unfit {
    /// There was no memory.
    Memory,
    /// It needs more than 256 places, or has an `if` expression that is better not computed on
    /// both sides.
    Wide,
}

impl From<AllocError> for Unfit {
    ghost from_gives = { λ _ e. e ≡ Memory };

    fn from(_e: AllocError) -> Unfit {
        Unfit::Memory
    }
}

impl<T: Drop> From<AllocFailed<T>> for Unfit {
    ghost from_gives = { λ _ e. e ≡ Memory };

    fn from(_e: AllocFailed<T>) -> Unfit {
        Unfit::Memory
    }
}
