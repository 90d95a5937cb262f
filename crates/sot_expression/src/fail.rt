//! Why reading stops, at the next token of a text.
ghost use Rattle.std.specs.Prelude.{◌≡◌};
ghost use Rattle.sot_expression.specs.declared.fail.Fail.TheVariants.{Memory};

use std::alloc::{AllocError, AllocFailed};

/// Why reading stops, at the next token of a text.
#[derive(Clone, Copy, Debug, PartialEq, Eq)]
pub enum Fail {
    /// Reading from the front does not go on with it.
    Token,
    /// With it the text nests too deep.
    Deep,
    Memory,
}

impl From<AllocError> for Fail {
    ghost from_gives = { λ _ e. e ≡ Memory };

    fn from(_: AllocError) -> Fail {
        Fail::Memory
    }
}

impl<T: Drop> From<AllocFailed<T>> for Fail {
    ghost from_gives = { λ _ e. e ≡ Memory };

    fn from(_: AllocFailed<T>) -> Fail {
        Fail::Memory
    }
}
