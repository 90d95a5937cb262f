//! The rules of typing as kinds of faults, and the first of several faults.
ghost use Rattle.std.specs.Prelude.{◌≡◌, Bool, true};
ghost use Rattle.sot_rules.specs.First.{number_of};
ghost use Rattle.sot_rules.specs.Faults.{fault, is_before, least, when};
ghost use Rattle.sot_rules.specs.Behind.{is_behind, StandsBehind};

use sot_text::Span;
use std::alloc::AllocError;

/// The rules of typing, one a kind.
#[derive(Clone, Copy, Debug, PartialEq, Eq)]
pub enum TypeKind {
    /// A name is nothing that may be named there.
    Unknown,
    /// A name is declared again, hides a name that its owner may use, stands twice in a list, or a
    /// module's two nodes are one.
    Twice,
    /// Scales do not fit, or a number has more decimals than it may have.
    ScaleDiffers,
    /// A truth value stands for a number or the reverse, or another sort of thing or count of items
    /// than may stand there.
    KindDiffers,
    /// The lower end of a range is above its upper end.
    RangeEmpty,
    /// An initial value is outside its range.
    InitOutside,
    /// A node reads a topic that it writes.
    ReadsAndWrites,
    /// A limit on counts is passed.
    TooMany,
    /// A range has more than 2^32 numbers.
    RangeWide,
    /// A plant is the plant of no module.
    NoModule,
    /// A period or a loop count is not 1 to 1,000, or an offset is not below its period.
    PeriodOutside,
    /// The `next` clauses do not give each state variable once and in order.
    NextMissing,
}

/// A rule that fails, and the place where it does.
#[derive(Clone, Copy, Debug, PartialEq, Eq)]
pub struct TypeFault {
    pub at: Span,
    pub kind: TypeKind,
}

/// Why a program has no tables.
#[derive(Clone, Copy, Debug, PartialEq, Eq)]
pub enum TypeFail {
    /// The first rule of typing that it breaks.
    Fault(TypeFault),
    /// There was no memory.
    Memory,
}

impl From<AllocError> for TypeFail {
    ghost use Rattle.std.specs.Prelude.{◌≡◌};
    ghost use Rattle.sot_rules.specs.declared.fault.TypeFail.TheVariants.{Memory};

    ghost from_gives = { λ _ e. e ≡ Memory };

    fn from(_: AllocError) -> TypeFail {
        TypeFail::Memory
    }
}

// The number of a rule.
fn number_of(kind: TypeKind) -> u8
    ensures { result ≡ number_of kind }
{
    match kind {
        TypeKind::Unknown => 1,
        TypeKind::Twice => 2,
        TypeKind::ScaleDiffers => 3,
        TypeKind::KindDiffers => 4,
        TypeKind::RangeEmpty => 5,
        TypeKind::InitOutside => 6,
        TypeKind::ReadsAndWrites => 7,
        TypeKind::TooMany => 8,
        TypeKind::RangeWide => 9,
        TypeKind::NoModule => 10,
        TypeKind::PeriodOutside => 11,
        TypeKind::NextMissing => 12,
    }
}

// Whether a fault comes before the first one so far.
fn is_earlier(at: Span, kind: TypeKind, first: TypeFault) -> bool
    ensures { result ≡ is_before (fault at kind) first }
{
    let (rank, known) = (at.rank(), first.at.rank());
    rank < known || (rank == known && number_of(kind) < number_of(first.kind))
}

/// Whether a fault of this kind at a place would not be the first one.
pub fn is_past(first: Option<TypeFault>, at: Span, kind: TypeKind) -> bool
    ensures { result ≡ true → (fails : Bool) → least first (when fails at kind) ≡ first }
{
    match first {
        None => false,
        Some(f) => !is_earlier(at, kind, f),
    }
}

/// Whether a place stands behind another one.
pub fn is_behind(at: Span, from: Span) -> bool
    ensures { result ≡ is_behind from at }
{
    from.rank() < at.rank()
}

/// Whether a place stands behind the first fault, where there is one. Then no fault there is the
/// first.
pub fn stands_behind(first: Option<TypeFault>, at: Span) -> bool
    ensures { result ≡ true → StandsBehind first at }
{
    match first {
        None => false,
        Some(f) => is_behind(at, f.at),
    }
}

/// Keeps the first fault, where the test says that this is one.
pub fn note(first: &mut Option<TypeFault>, fails: bool, at: Span, kind: TypeKind)
    ensures { first.new ≡ least first.old (when fails at kind) }
{
    if fails {
        *first = match *first {
            None => Some(TypeFault { at, kind }),
            Some(f) if is_earlier(at, kind, f) => Some(TypeFault { at, kind }),
            Some(f) => Some(f),
        };
    }
}
