//! Lines of which only the front was read.

ghost use Rattle.std.specs.Prelude.{IfOk};
ghost use Rattle.sot_trace.specs.Words.{AreWords};
ghost use Rattle.sot_replay.specs.Judges.{IsReadOn};

use crate::desk::LineDesk;
use crate::fail::LineKind;
use crate::judged::Judged;
use sot_lang::Typed;
use std::alloc::AllocError;

/// What is judged of a line, where this was judged of it by its front: what fails may be spelled as
/// no line at all.
pub fn read_on(
    p: &Typed,
    line: &[u8],
    judged: Judged,
    desk: &mut LineDesk,
) -> Result<Judged, AllocError>
    requires { AreWords p.now }
    ensures { IfOk result (λ whole. IsReadOn p.now line.now judged whole) }
{
    match judged {
        Judged::Fails(kind) => match desk.read(p, line) {
            Ok(Some(_)) => Ok(Judged::Fails(kind)),
            Ok(None) => Ok(Judged::Fails(LineKind::NotALine)),
            Err(error) => Err(error),
        },
        _ => Ok(judged),
    }
}
