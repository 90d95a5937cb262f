//! The top call: words and input to one text and a status.

ghost use Rattle.std.specs.Prelude.{◌≡◌, ◌+◌, ◌≤◌, ◌⊎◌, ℕ, List, IfOk, IfErr, IsErrOf};
ghost use Rattle.sot_ports.specs.Faults.{Rose};
ghost use Rattle.sot_bridge.specs.Words.{Asks};
ghost use Rattle.sot_ports.specs.Whole.{ReadsUpTo};
ghost use Rattle.sot_ports.specs.Outside.{outside};
ghost use Rattle.sot_bridge.specs.Ends.{Ends, AskNone};
ghost use Rattle.sot_bridge.specs.Steps.{AskAnswer, WordAnswer, Silence};

use crate::reply::{BridgeAsk, reply_of};
use crate::words::{DelayFail, delay_of};
use sot_cli::{Answer, INPUT_LIMIT, Status, fixed, or_memory, read_input, say, too_long};
use sot_ports::{Process, ReadFail, Sink, Source};
use std::alloc::Global;
use std::sync::Wait;
use std::thread::Threads;

const USAGE: &str = "usage: soter_bridge TOPIC_A TOPIC_B DELAY\n";

// What the words ask for.
fn asked<'w>(alloc: Global, words: &'w [String]) -> Result<BridgeAsk<'w>, DelayFail>
    ensures ok { IfOk result (λ ask. Asks words.now ask.from.now ask.to.now ask.delay) }
    ensures form { IsErrOf result DelayFail.Form → AskNone words.now }
{
    let delay = delay_of(alloc, words)?;
    Ok(BridgeAsk {
        from: words[0].as_str(),
        to: words[1].as_str(),
        delay,
    })
}

// The answer to what was asked, before anything is written.
fn perform<R: Threads + Wait + Sync, S: Source>(
    rt: &R,
    alloc: Global,
    ask: BridgeAsk<'_>,
    source: &mut S,
    process: Process,
) -> Result<Answer, Status>
    requires delay { ask.delay ≤ 100000 }
    ensures ok { IfOk result (λ answer.
        AskAnswer ask.entry.from.now ask.entry.to.now ask.entry.delay
        (S.left source.old) (S.left source.new) answer.status answer.text.items) }
    ensures err { IfErr result (λ status.
        ((status.0 ≡ 6) × (S.faults source.new ≡ S.faults source.old))
        ⊎ ((status.0 ≡ 4) × Rose (S.faults source.old) (S.faults source.new))) }
    ensures well { IfOk result (λ _. S.faults source.new ≡ S.faults source.old) }
    ensures no_more { ReadsUpTo (S.left source.old) (S.left source.new) (INPUT_LIMIT + 1) }
{
    match read_input(alloc, source) {
        Ok(bytes) => or_memory(reply_of(rt, alloc, ask, &bytes, process)),
        Err(ReadFail::Fault) => Err(Status(4)),
        Err(ReadFail::TooLong) => or_memory(too_long(alloc)),
        Err(ReadFail::Memory) => Err(Status(6)),
    }
}

// The answer to the words, before anything is written.
#[tactic(auto, using(sot_cli::proofs::Endings::reads_nothing))]
fn answer_to<R: Threads + Wait + Sync, S: Source>(
    rt: &R,
    alloc: Global,
    words: &[String],
    source: &mut S,
    process: Process,
) -> Result<Answer, Status>
    ensures ok { IfOk result (λ answer. WordAnswer words.now (S.left source.old)
        (S.left source.new) answer.status answer.text.items) }
    ensures err { IfErr result (λ status.
        Silence words.now (S.faults source.old) (S.faults source.new) status.0) }
    ensures well { IfOk result (λ _. S.faults source.new ≡ S.faults source.old) }
    ensures untouched { AskNone words.now → source.new ≡ source.old }
    ensures no_more { ReadsUpTo (S.left source.old) (S.left source.new) (INPUT_LIMIT + 1) }
{
    match asked(alloc, words) {
        Ok(ask) => perform(rt, alloc, ask, source, process),
        Err(DelayFail::Form) => or_memory(fixed(alloc, 2, USAGE)),
        Err(DelayFail::Memory) => Err(Status(6)),
    }
}

/// Does what the words ask, those behind the program's name: reads two missions, flies both with a
/// bridge between them, and writes one text. No guest is handed in, so it waits for its turn in the
/// flights alone. Threads of `rt` check long lists of cells, and fly nodes; what is answered does
/// not depend on them.
/// Where the process ends with this call, what was read is not given back to memory.
pub fn bridge<R: Threads + Wait + Sync, S: Source, K: Sink>(
    rt: &R,
    alloc: Global,
    words: &[String],
    source: &mut S,
    sink: &mut K,
    process: Process,
) -> Status
    ensures ends { Ends words.now
        (outside (S.left source.old) (K.held sink.old) (S.faults source.old) (K.faults sink.old))
        (outside (S.left source.new) (K.held sink.new) (S.faults source.new) (K.faults sink.new))
        result.0 }
    // Whatever the end, at most one byte more than the limit was taken from the source.
    ensures no_more { ReadsUpTo (S.left source.old) (S.left source.new) (INPUT_LIMIT + 1) }
    // Words that ask for nothing leave the source as it was.
    ensures unread { AskNone words.now → source.new ≡ source.old }
    // A call that has nothing to say leaves the sink as it was.
    ensures unwritten { (result.0 ≡ 4) ⊎ (result.0 ≡ 6) → sink.new ≡ sink.old }
{
    match answer_to(rt, alloc, words, source, process) {
        Ok(answer) => say(&answer, sink),
        Err(status) => status,
    }
}
