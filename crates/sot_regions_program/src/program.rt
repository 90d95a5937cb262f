//! The program, over real words, source and sink.

ghost use Rattle.std.specs.Process.{exit_status};
ghost use Rattle.sot_ports.specs.Outside.{Outside, outside};
ghost use Rattle.sot_cli.specs.Words.{EndsAsCalled};
ghost use Rattle.sot_regions_program.specs.Ends.{Ends};

use crate::top::regions;
use sot_cli::{Status, run_program};
use sot_ports::{Process, Sink, Source};
use std::alloc::Global;
use std::env::Args;
use std::io;
use std::io::{Stdin, Stdout};
use std::process::ExitCode;
use std::thread::Threads;

// `regions` in a process that ends with the call.
fn regions_at_last<R: Threads + Sync, S: Source, K: Sink>(
    rt: &R,
    alloc: Global,
    words: &[String],
    source: &mut S,
    sink: &mut K,
) -> Status
    ensures ends { Ends words.now
        (outside (S.left source.old) (K.held sink.old) (S.faults source.old) (K.faults sink.old))
        (outside (S.left source.new) (K.held sink.new) (S.faults source.new) (K.faults sink.new))
        result.0 }
{
    regions(rt, alloc, words, source, sink, Process::Ends)
}

/// What the program does: `regions`, with its status. The words are those behind the program's
/// name.
pub fn run<R: Threads + Sync>(
    rt: &R,
    alloc: Global,
    args: io::Result<Args>,
    input: Stdin,
    output: Stdout,
) -> ExitCode
    ensures ends { EndsAsCalled (λ words status. (before : Outside) × (after : Outside)
        × Ends words before after status) args (exit_status result) }
{
    run_program(alloc, args, input, output, |words, source, sink| {
        regions_at_last(rt, alloc, words, source, sink)
    })
}
