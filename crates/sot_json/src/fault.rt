//! What is wrong with a JSON text that breaks a format: where, and how.
ghost use Rattle.std.specs.Prelude.{◌≡◌};
ghost use Rattle.sot_json.specs.declared.fault.JsonFail.TheVariants.{Memory};

use crate::path::Path;
use std::alloc::{AllocError, AllocFailed};

/// How a value breaks the format. Where a path has several kinds, the first one of this list is
/// given.
#[derive(Clone, Copy, Debug, PartialEq, Eq)]
pub enum JsonKind {
    /// The text is no JSON: no UTF-8, cut, followed by more, nested past 127 levels, or with a
    /// number past every float.
    NotJson,
    /// The value is of another JSON kind than the format's.
    WrongShape,
    /// The number is written as a float: with a point or an exponent, as `-0`, or past 64 bits.
    NotWhole,
    /// The whole number is outside its range.
    OutsideRange,
    /// A listed key is not there. The path is that of the key.
    Missing,
    /// The object has a key that is not listed. The path is that of the object.
    Unknown,
    /// The list has another length than it must have.
    Width,
    /// The low end is above the high one, or a list that needs an item has none.
    Empty,
    /// The list is longer than its limit.
    TooMany,
    /// The time of an input is below that of the one before.
    Order,
    /// The number of a guest is not below the count of guests.
    NoGuest,
    /// The number of a guest stands at an earlier node.
    GuestTwice,
    /// There are more events than the limit. It is looked for after all faults above.
    TooManyEvents,
    /// There are more numbers than the limit. It is looked for last.
    TooManyNumbers,
}

/// The first fault of a JSON text, by the order of its format.
#[derive(Debug, Drop)]
pub struct JsonFault {
    pub path: Path,
    pub kind: JsonKind,
}

/// Why a JSON text was not read.
#[derive(Debug, Drop)]
pub enum JsonFail {
    Fault(JsonFault),
    /// There was no memory for the reading. It says nothing of the text.
    Memory,
}

impl From<AllocError> for JsonFail {
    ghost from_gives = { λ _ e. e ≡ Memory };

    fn from(_e: AllocError) -> JsonFail {
        JsonFail::Memory
    }
}

impl<T: Drop> From<AllocFailed<T>> for JsonFail {
    ghost from_gives = { λ _ e. e ≡ Memory };

    fn from(_e: AllocFailed<T>) -> JsonFail {
        JsonFail::Memory
    }
}
