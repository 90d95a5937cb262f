//! The top calls: words and input to one text and a status.

ghost use Rattle.std.specs.Prelude.{◌≡◌, ◌+◌, ◌<◌, ◌≤◌, ◌^◌, ◌⊎◌, Ok, length, vec_len, IsErr};
ghost use Rattle.std.specs.Prelude.{IfOk, IfErr, MatchResult};
ghost use Rattle.sot_ports.specs.Faults.{Rose};
ghost use Rattle.sot_ports.specs.Whole.{ReadsAll, ReadsUpTo};
ghost use Rattle.sot_commands.specs.Words.{Reads, IsInForm, Asks, AsksNoReader, AsksFlight};
ghost use Rattle.sot_commands.specs.Words.{AsksWatch};
ghost use Rattle.sot_commands.specs.declared.words.Command.TheVariants.{Fly as FlyCommand};
ghost use Rattle.sot_commands.specs.declared.telling.Telling.TheVariants.{Trace};
ghost use Rattle.sot_commands.specs.Guests.{GuestsEnd};
ghost use Rattle.sot_commands.specs.Steps.{CommandReply, WordReply, Silence};
ghost use Rattle.sot_ports.specs.Outside.{outside};
ghost use Rattle.sot_commands.specs.Ends.{Ends};
ghost use Rattle.sot_commands.specs.Orders.{IsOrdered, IsVerdict, FlightEnds, IfEnded, IfFlight};

use crate::flight::fly_ordered;
use crate::input::take;
use crate::order::{Begun, FlightOrder};
use crate::reply::{Reply, reply_of, said};
use crate::words::{Command, WordFail, command_of};
use sot_cli::{Answer, INPUT_LIMIT, Status, fixed, say, too_long};
use sot_fly_worker::Controller;
use sot_ports::{Process, ReadFail, Sink, Source};
use sot_text_output::{Spool, room};
use std::alloc::{AllocError, Global};
use std::sync::Wait;
use std::thread::Threads;

const USAGE: &str = "usage: soter check | fly | replay | format | make N SEED | soak N SEED \
    | recover | certify | watch FORMULA\n";

// Want of memory has a status of its own, and no text.
fn or_memory<'w>(reply: Result<Reply<'w>, AllocError>) -> Result<Reply<'w>, Status>
    ensures { MatchResult result (λ r. reply.entry ≡ Ok r) (λ s. (s.0 ≡ 6) × IsErr reply.entry) }
{
    match reply {
        Ok(reply) => Ok(reply),
        Err(_) => Err(Status(6)),
    }
}

// Does a command on what it takes of the source.
fn perform<'w, R: Threads + Sync, S: Source>(
    rt: &R,
    alloc: Global,
    command: Command<'w>,
    guests: u32,
    source: &mut S,
    process: Process,
) -> Result<Reply<'w>, Status>
    requires form { IsInForm command }
    ensures ok { IfOk result
        (CommandReply guests command.entry (S.left source.old) (S.left source.new)) }
    ensures err { IfErr result (λ status.
        ((status.0 ≡ 6) × (S.faults source.new ≡ S.faults source.old))
        ⊎ ((status.0 ≡ 4) × Reads command.entry
        × Rose (S.faults source.old) (S.faults source.new))) }
    ensures well { IfOk result (λ _. S.faults source.new ≡ S.faults source.old) }
    ensures untouched { ¬ (Reads command.entry) → source.new ≡ source.old }
    ensures no_more { ReadsUpTo (S.left source.old) (S.left source.new) (INPUT_LIMIT + 1) }
{
    match take(alloc, command, source) {
        Ok(bytes) => or_memory(reply_of(rt, alloc, command, guests, bytes, process)),
        Err(ReadFail::Fault) => Err(Status(4)),
        Err(ReadFail::TooLong) => or_memory(said(too_long(alloc))),
        Err(ReadFail::Memory) => Err(Status(6)),
    }
}

// The reply to the words, before anything is written.
#[tactic(auto, using(sot_cli::proofs::Endings::reads_nothing))]
fn reply_to<'w, R: Threads + Sync, S: Source>(
    rt: &R,
    alloc: Global,
    words: &'w [String],
    guests: u32,
    source: &mut S,
    process: Process,
) -> Result<Reply<'w>, Status>
    ensures ok { IfOk result (WordReply guests words.now (S.left source.old) (S.left source.new)) }
    ensures err { IfErr result (λ status.
        Silence words.now (S.faults source.old) (S.faults source.new) status.0) }
    ensures well { IfOk result (λ _. S.faults source.new ≡ S.faults source.old) }
    ensures untouched { AsksNoReader words.now → source.new ≡ source.old }
    ensures no_more { ReadsUpTo (S.left source.old) (S.left source.new) (INPUT_LIMIT + 1) }
{
    match command_of(alloc, words) {
        Ok(command) => perform(rt, alloc, command, guests, source, process),
        Err(WordFail::Form) => or_memory(said(fixed(alloc, 2, USAGE))),
        Err(WordFail::Memory) => Err(Status(6)),
    }
}

/// Does all that needs no waiting: looks at the words, reads at most the input's limit and one byte
/// more, and ends with one text that is written, unless the words ask for a flight (`fly`, `soak`).
/// That flight it orders, and writes nothing. The words are those after the program's name; so many
/// guests are to be handed in with the flight. Its runtime cannot wait, so it returns. Threads of
/// `rt` check long lists of cells; what is answered does not depend on them. Where the process ends
/// with this call, what was read is not given back to memory.
pub fn begin<'w, R: Threads + Sync, S: Source, K: Sink>(
    rt: &R,
    alloc: Global,
    words: &'w [String],
    guests: u32,
    source: &mut S,
    sink: &mut K,
    process: Process,
) -> Begun<'w>
    ensures ended { IfEnded result (λ status. Ends guests words.now
        (outside (S.left source.old) (K.held sink.old) (S.faults source.old) (K.faults sink.old))
        (outside (S.left source.new) (K.held sink.new) (S.faults source.new) (K.faults sink.new))
        status.0) }
    ensures flight { IfFlight result (IsOrdered words.now (S.left source.old) (S.left source.new)) }
    ensures short { IfFlight result (λ order. length order.text.items ≤ INPUT_LIMIT) }
    ensures well { IfFlight result (λ _. S.faults source.new ≡ S.faults source.old) }
    // Words that ask for a flight leave one, but for a fault of reading or writing, want of memory,
    // and too long an input.
    ensures leaves { AsksFlight words.now → IfEnded result (λ status. 4 ≤ status.0) }

    // Whatever the end, at most one byte more than the limit was taken from the source.
    ensures no_more { ReadsUpTo (S.left source.old) (S.left source.new) (INPUT_LIMIT + 1) }
    // Words that ask for no command that reads leave the source as it was.
    ensures unread { AsksNoReader words.now → source.new ≡ source.old }
    // A call that has nothing to say leaves the sink as it was.
    ensures unwritten { IfEnded result (λ status.
        (status.0 ≡ 4) ⊎ (status.0 ≡ 6) → sink.new ≡ sink.old) }
    ensures unsaid { IfFlight result (λ _. sink.new ≡ sink.old) }
{
    match reply_to(rt, alloc, words, guests, source, process) {
        Ok(Reply::Said(answer)) => Begun::Ended(say(&answer, sink)),
        Ok(Reply::Flight(order)) => Begun::Flight(order),
        Err(status) => Begun::Ended(status),
    }
}

/// Flies what `begin` ordered, and writes what is told of it. The guests, fewer than 2^32, fly the
/// nodes that the flight of a `fly` names them for; a `soak` is flown without them. It waits for
/// its turn and for the guests, so it returns only if they do. A trace is written through a buffer
/// while it is told, once no more memory is wanted.
pub fn fly_to_the_end<C: Controller + Send, R: Threads + Wait + Sync, K: Sink>(
    rt: &R,
    alloc: Global,
    guests: &mut Vec<C>,
    order: &FlightOrder<'_>,
    sink: &mut K,
    process: Process,
) -> Status
    requires few { vec_len guests.old < 2 ^ 32 }
    requires short { length order.now.text.items ≤ INPUT_LIMIT }
    ensures ends { FlightEnds (vec_len guests.old) order.now.telling order.now.text.items
        (K.held sink.old) (K.held sink.new) (K.faults sink.old) (K.faults sink.new) result.0 }
    // Want of memory leaves the sink as it was.
    ensures unwritten { result.0 ≡ 6 → sink.new ≡ sink.old }
    ensures guests { GuestsEnd C.asked
        (order.now.telling ≡ Trace) (IsVerdict order.now.telling)
        (λ bytes. bytes ≡ order.now.text.items)
        (K.held sink.old) (K.held sink.new) guests.old guests.new result.0 }
{
    let Ok(mut waiting) = room(alloc) else {
        return Status(6);
    };
    let mut spool = Spool::new(&mut waiting, sink);
    match fly_ordered(rt, alloc, &mut spool, guests, order, process) {
        Ok(answer) => match spool.end() {
            Ok(()) => say(&answer, sink),
            Err(_fail) => Status(5),
        },
        Err(_fail) => Status(6),
    }
}

/// Does what the words ask: `begin`, and `fly_to_the_end` where they ask for a flight. It may wait
/// for guests, of which there are as many afterwards, and for its turn, in a flight alone.
pub fn soter<C: Controller + Send, R: Threads + Wait + Sync, S: Source, K: Sink>(
    rt: &R,
    alloc: Global,
    words: &[String],
    guests: &mut Vec<C>,
    source: &mut S,
    sink: &mut K,
    process: Process,
) -> Status
    requires { vec_len guests.old < 2 ^ 32 }
    ensures ends { Ends (vec_len guests.old) words.now
        (outside (S.left source.old) (K.held sink.old) (S.faults source.old) (K.faults sink.old))
        (outside (S.left source.new) (K.held sink.new) (S.faults source.new) (K.faults sink.new))
        result.0 }

    // Whatever the end, at most one byte more than the limit was taken from the source.
    ensures no_more { ReadsUpTo (S.left source.old) (S.left source.new) (INPUT_LIMIT + 1) }
    // Words that ask for no command that reads leave the source as it was.
    ensures unread { AsksNoReader words.now → source.new ≡ source.old }
    // A call that has nothing to say leaves the sink as it was.
    ensures unwritten { (result.0 ≡ 4) ⊎ (result.0 ≡ 6) → sink.new ≡ sink.old }
    // What became of the guests.
    ensures guests { GuestsEnd C.asked (Asks words.now FlyCommand) (AsksWatch words.now)
        (ReadsAll (S.left source.old) (S.left source.new))
        (K.held sink.old) (K.held sink.new) guests.old guests.new result.0 }
{
    match begin(rt, alloc, words, guests.len() as u32, source, sink, process) {
        Begun::Ended(status) => status,
        Begun::Flight(order) => fly_to_the_end(rt, alloc, guests, &order, sink, process),
    }
}
