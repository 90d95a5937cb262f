//! The program, over real words, source and sink.

ghost use Rattle.std.specs.Process.{exit_status};
ghost use Rattle.sot_ports.specs.Outside.{Outside, outside};
ghost use Rattle.sot_cli.specs.Words.{EndsAsCalled};
ghost use Rattle.sot_commands.specs.Ends.{Ends};

use crate::top::soter;
use sot_cli::{Status, run_program};
use sot_ports::{Process, Sink, Source};
use sot_workers::Nobody;
use std::alloc::Global;
use std::env::Args;
use std::io;
use std::io::{Stdin, Stdout};
use std::process::ExitCode;
use std::sync::Wait;
use std::thread::Threads;

// `soter` with no guest, in a process that ends with the call.
fn soter_alone<R: Threads + Wait + Sync, S: Source, K: Sink>(
    rt: &R,
    alloc: Global,
    words: &[String],
    source: &mut S,
    sink: &mut K,
) -> Status
    ensures ends { Ends 0 words.now
        (outside (S.left source.old) (K.held sink.old) (S.faults source.old) (K.faults sink.old))
        (outside (S.left source.new) (K.held sink.new) (S.faults source.new) (K.faults sink.new))
        result.0 }
{
    let mut nobody: Vec<Nobody> = Vec::new(alloc);
    soter(rt, alloc, words, &mut nobody, source, sink, Process::Ends)
}

/// What the program does: `soter`, with its status. It hands in no guest, so only its own turn in a
/// flight may make it wait. The words are those behind the program's name.
pub fn run<R: Threads + Wait + Sync>(
    rt: &R,
    alloc: Global,
    args: io::Result<Args>,
    input: Stdin,
    output: Stdout,
) -> ExitCode
    ensures ends { EndsAsCalled (λ words status. (before : Outside) × (after : Outside)
        × Ends 0 words before after status) args (exit_status result) }
{
    run_program(alloc, args, input, output, |words, source, sink| {
        soter_alone(rt, alloc, words, source, sink)
    })
}
