//! How an answer is written.

ghost use Rattle.std.specs.Prelude.{◌≡◌};
ghost use Rattle.sot_guard_program.specs.Moments.{mouth};
ghost use Rattle.sot_guard_program.specs.Tellings.{TellsPut, TellsAnswer};

use sot_cli::{Answer, Status, say};
use sot_ports::Sink;
use sot_text_output::Spool;
use std::alloc::AllocError;

/// Writes what was put into a spool, and ends with this status, or with 5 where the sink fails.
pub(crate) fn tell_put<K: Sink>(spool: &mut Spool<'_, K>, status: u8) -> Status
    ensures sink { spool.new.sink.ghost_name ≡ spool.old.sink.ghost_name }
    ensures put { TellsPut K.held K.faults spool.old spool.new status result.0 }
{
    match spool.end() {
        Ok(()) => Status(status),
        Err(_) => Status(5),
    }
}

/// Writes an answer, and ends with its status, or with 5 where the sink fails. Where there was no
/// memory for an answer, nothing is written, and it ends with 6.
pub(crate) fn tell<K: Sink>(answer: Result<Answer, AllocError>, sink: &mut K) -> Status
    ensures { TellsAnswer answer (mouth (K.held sink.old) (K.faults sink.old))
        (mouth (K.held sink.new) (K.faults sink.new)) result.0 }
{
    match answer {
        Ok(answer) => say(&answer, sink),
        Err(_) => Status(6),
    }
}
