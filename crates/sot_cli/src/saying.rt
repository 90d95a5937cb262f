//! How an answer is written.

ghost use Rattle.std.specs.Prelude.{◌≡◌, Ok, MatchResult, IsErr};
ghost use Rattle.sot_ports.specs.Outside.{Written};

use crate::answer::Answer;
use crate::status::Status;
use sot_ports::{Sink, write_whole};
use std::alloc::AllocError;

/// The answer, or status 6 for want of memory, which has no text.
pub fn or_memory(answer: Result<Answer, AllocError>) -> Result<Answer, Status>
    ensures { MatchResult result (λ r. answer ≡ Ok r) (λ s. (s.0 ≡ 6) × IsErr answer) }
{
    match answer {
        Ok(answer) => Ok(answer),
        Err(_) => Err(Status(6)),
    }
}

/// Writes an answer, and ends with its status, or with 5 where the sink fails.
pub fn say<K: Sink>(answer: &Answer, sink: &mut K) -> Status
    ensures { Written (K.held sink.old) (K.held sink.new) (K.faults sink.old) (K.faults sink.new)
        answer.now.status answer.now.text.items result.0 }
{
    match write_whole(sink, &answer.text) {
        Ok(()) => Status(answer.status),
        Err(_) => Status(5),
    }
}
