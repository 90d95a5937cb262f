//! The top call: words and input to one text and a status.

ghost use Rattle.std.specs.Prelude.{◌≡◌, ◌+◌, ◌≤◌, ◌⊎◌, ℕ, Ok, IfOk, IfErr, IsErr, IsErrOf};
ghost use Rattle.sot_ports.specs.Faults.{Rose};
ghost use Rattle.sot_ports.specs.Whole.{ReadsUpTo};
ghost use Rattle.sot_ports.specs.Outside.{outside};
ghost use Rattle.sot_regions_program.specs.Lines.{usage_text};
ghost use Rattle.sot_regions_program.specs.Words.{AsksNone};
ghost use Rattle.sot_cli.specs.Texts.{input_limit};
ghost use Rattle.sot_regions_program.specs.Ends.{Ends};
ghost use Rattle.sot_regions_program.specs.Steps.{AskAnswer, WordAnswer, Silence};

use crate::reply::reply_of;
use crate::words::{JitterFail, jitter_of};
use sot_cli::{Answer, Status, or_memory, read_input, say, too_long};
use sot_ports::{Process, ReadFail, Sink, Source};
use std::alloc::{AllocError, Global};
use std::thread::Threads;

// The answer to a jitter, before anything is written.
fn perform<R: Threads + Sync, S: Source>(
    rt: &R,
    alloc: Global,
    jitter: u32,
    source: &mut S,
    process: Process,
) -> Result<Answer, Status>
    requires jitter { jitter ≤ 999 }
    ensures ok { IfOk result (λ answer. AskAnswer jitter (S.left source.old) (S.left source.new)
        answer.status answer.text.items) }
    ensures err { IfErr result (λ status.
        ((status.0 ≡ 6) × (S.faults source.new ≡ S.faults source.old))
        ⊎ ((status.0 ≡ 4) × Rose (S.faults source.old) (S.faults source.new))) }
    ensures well { IfOk result (λ _. S.faults source.new ≡ S.faults source.old) }
    ensures no_more { ReadsUpTo (S.left source.old) (S.left source.new) (input_limit + 1) }
{
    match read_input(alloc, source) {
        Ok(bytes) => or_memory(reply_of(rt, alloc, jitter, &bytes, process)),
        Err(ReadFail::Fault) => Err(Status(4)),
        Err(ReadFail::TooLong) => or_memory(too_long(alloc)),
        Err(ReadFail::Memory) => Err(Status(6)),
    }
}

// Status 2: the words that there are.
fn usage(alloc: Global) -> Result<Answer, AllocError>
    ensures status { IfOk result (λ answer. answer.status ≡ 2) }
    ensures text { IfOk result (λ answer. answer.text.items ≡ usage_text) }
{
    let text = crate::lines::usage_text(alloc)?;
    Ok(Answer { status: 2, text })
}

// The answer to the words, before anything is written.
#[tactic(auto, using(sot_cli::proofs::Endings::reads_nothing))]
fn answer_to<R: Threads + Sync, S: Source>(
    rt: &R,
    alloc: Global,
    words: &[String],
    source: &mut S,
    process: Process,
) -> Result<Answer, Status>
    ensures ok { IfOk result (λ answer. WordAnswer words.now (S.left source.old)
        (S.left source.new) answer.status answer.text.items) }
    ensures err { IfErr result (λ status.
        Silence words.now (S.faults source.old) (S.faults source.new) status.0) }
    ensures well { IfOk result (λ _. S.faults source.new ≡ S.faults source.old) }
    ensures untouched { AsksNone words.now → source.new ≡ source.old }
    ensures no_more { ReadsUpTo (S.left source.old) (S.left source.new) (input_limit + 1) }
{
    match jitter_of(alloc, words) {
        Ok(jitter) => perform(rt, alloc, jitter, source, process),
        Err(JitterFail::Form) => or_memory(usage(alloc)),
        Err(JitterFail::Memory) => Err(Status(6)),
    }
}

/// Does what the words ask, those behind the program's name: reads a program whose `safe` says what
/// must never be left, searches regions for it at the jitter that is asked, and writes its mission,
/// or why there is none. It waits for nobody, and returns. Threads of `rt` check long lists of
/// cells; what is answered does not depend on them. Where the process ends with this call, what was
/// read is not given back to memory.
pub fn regions<R: Threads + Sync, S: Source, K: Sink>(
    rt: &R,
    alloc: Global,
    words: &[String],
    source: &mut S,
    sink: &mut K,
    process: Process,
) -> Status
    ensures ends { Ends words.now
        (outside (S.left source.old) (K.held sink.old) (S.faults source.old) (K.faults sink.old))
        (outside (S.left source.new) (K.held sink.new) (S.faults source.new) (K.faults sink.new))
        result.0 }
    // Whatever the end, at most one byte more than the limit was taken from the source.
    ensures no_more { ReadsUpTo (S.left source.old) (S.left source.new) (input_limit + 1) }
    // Words that ask for nothing leave the source as it was.
    ensures unread { AsksNone words.now → source.new ≡ source.old }
    // A call that has nothing to say leaves the sink as it was.
    ensures unwritten { (result.0 ≡ 4) ⊎ (result.0 ≡ 6) → sink.new ≡ sink.old }
{
    match answer_to(rt, alloc, words, source, process) {
        Ok(answer) => say(&answer, sink),
        Err(status) => status,
    }
}
