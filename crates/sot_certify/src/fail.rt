//! Why there is no certificate for a program.
ghost use Rattle.std.specs.Prelude.{◌≡◌};
ghost use Rattle.sot_certify.specs.declared.fail.CertifyFail.TheVariants.{Memory};

use sot_box::Point;
use sot_rta::Refusal;
use std::alloc::{AllocError, AllocFailed};

/// Why there is no certificate for a program. Modules are numbered from 0; `reach` is true of a
/// list of reach cells, and false of one of closed cells.
#[derive(Clone, Copy, Debug, PartialEq, Eq)]
pub enum CertifyFail {
    /// A condition that speaks of no cells fails.
    Refused(Refusal),
    /// The box of this point alone is not good: its own tube leaves the safe region, or may trap.
    Point {
        module: u32,
        reach: bool,
        point: Point,
    },
    /// The list has more than 4,096 cells.
    TooMany {
        module: u32,
        reach: bool,
    },
    /// There was no memory. It says nothing of the program.
    Memory,
}

impl From<AllocError> for CertifyFail {
    ghost from_gives = { λ _ e. e ≡ Memory };

    fn from(_e: AllocError) -> CertifyFail {
        CertifyFail::Memory
    }
}

impl<T: Drop> From<AllocFailed<T>> for CertifyFail {
    ghost from_gives = { λ _ e. e ≡ Memory };

    fn from(_e: AllocFailed<T>) -> CertifyFail {
        CertifyFail::Memory
    }
}
