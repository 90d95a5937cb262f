//! Pieces of lines, one behind another.

ghost use Rattle.std.specs.Prelude.{◌≡◌, ◌+◌, ◌<◌, ◌≤◌, ◌++◌, false, length, take, drop, vec_len};
ghost use Rattle.std.specs.Prelude.{IfOk, IfErr, IsErrOf, OnErr, []};
ghost use Rattle.sot_ports.specs.Faults.{Rose};
ghost use Rattle.sot_guard_input.specs.Reading.{Reads, AddsPiece, IfFails, IsPieceTooLong};

use crate::ear::{Ear, Next};
use sot_ports::{Failed, Source};
use std::alloc::AllocError;

/// Why there is no front.
#[derive(Clone, Copy, Debug, PartialEq, Eq)]
pub enum FrontFail {
    /// The source has failed.
    Fault,
    /// It is longer than it may be.
    TooLong,
    /// There is no memory for it.
    Memory,
}

impl From<AllocError> for FrontFail {
    ghost use Rattle.std.specs.Prelude.{◌≡◌};
    ghost use Rattle.sot_guard_input.specs.declared.piece.FrontFail.TheVariants.{Memory};

    ghost from_gives = { λ _ e. e ≡ Memory };

    fn from(_: AllocError) -> FrontFail {
        FrontFail::Memory
    }
}

/// What the next piece of a text is.
#[derive(Clone, Copy, Debug, PartialEq, Eq)]
pub(crate) enum Piece {
    /// It ends a line.
    Line,
    /// Its line goes on.
    Part,
    /// It is the last one, or there was none any more.
    Last,
}

/// As many bytes as a line may have.
const LONGEST: usize = 65_536;

// Puts the first bytes that wait behind a text, and passes them.
fn add_bytes(text: &mut Vec<u8>, ear: &mut Ear, count: usize, limit: usize) -> Result<(), FrontFail>
    requires count { count ≤ length ear.old.buffer }
    requires short { vec_len text.old ≤ limit }
    ensures added { IfOk result (λ _.
        text.new.items ≡ text.old.items ++ take count ear.old.buffer) }
    ensures short { IfOk result (λ _. vec_len text.new ≤ limit) }
    ensures passed { IfOk result (λ _. ear.new.buffer ≡ drop count ear.old.buffer) }
    ensures ended { IfOk result (λ _. ear.new.ended ≡ ear.old.ended) }
    ensures fails { IfErr result (λ why. IfFails why ⊥ (limit < vec_len text.old + count)) }
    ensures kept { OnErr result (ear.new ≡ ear.old) }
{
    if limit - text.len() < count {
        return Err(FrontFail::TooLong);
    }
    text.extend_from_slice(&ear.bytes()[..count])?;
    ear.pass(count);
    Ok(())
}

/// Puts the next piece of a line behind a text.
pub(crate) fn next_piece<S: Source>(
    text: &mut Vec<u8>,
    ear: &mut Ear,
    source: &mut S,
    limit: usize,
) -> Result<Piece, FrontFail>
    requires open { ear.old.ended ≡ false }
    requires short { vec_len text.old ≤ limit }
    ensures piece { IfOk result (λ p. AddsPiece p (S.left source.old) (S.left source.new)
        ear.old ear.new text.old.items text.new.items) }
    ensures short { IfOk result (λ _. vec_len text.new ≤ limit) }
    ensures fails { IfErr result (λ why. IfFails why
        (Rose (S.faults source.old) (S.faults source.new))
        (IsPieceTooLong ear.new.buffer (vec_len text.old) limit)) }
    ensures kept { OnErr result (Reads (S.left source.old) (S.left source.new) ear.old.buffer
        ear.new.buffer []) }
    ensures well { ¬ (IsErrOf result FrontFail.Fault) → S.faults source.new ≡ S.faults source.old }
{
    match ear.next(source) {
        Ok(Next::Line(len)) => match add_bytes(text, ear, len, limit) {
            Ok(()) => {
                if ear.has_ended() {
                    Ok(Piece::Last)
                } else {
                    Ok(Piece::Line)
                }
            }
            Err(why) => Err(why),
        },
        Ok(Next::TooLong) => match add_bytes(text, ear, LONGEST, limit) {
            Ok(()) => Ok(Piece::Part),
            Err(why) => Err(why),
        },
        Ok(Next::End) => Ok(Piece::Last),
        Err(Failed) => Err(FrontFail::Fault),
    }
}
