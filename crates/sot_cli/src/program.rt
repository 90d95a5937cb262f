//! A program over real words, source and sink.

ghost use Rattle.std.specs.Prelude.{◌≡◌};
ghost use Rattle.std.specs.Process.{exit_status};
ghost use Rattle.sot_cli.specs.Words.{EndsAsCalled};

use crate::arguments::words_of;
use crate::status::Status;
use sot_ports::{StdSink, StdSource};
use std::alloc::Global;
use std::env::Args;
use std::io;
use std::io::{Stdin, Stdout};
use std::process::ExitCode;

/// Calls a program with the words behind its name and the standard streams, and ends with the
/// status of the call.
pub fn run_program<F: FnOnce(&[String], &mut StdSource, &mut StdSink) -> Status + Drop>(
    alloc: Global,
    args: io::Result<Args>,
    input: Stdin,
    output: Stdout,
    program: F,
) -> ExitCode
    requires { F.IsAlwaysCallable program }
    ensures ends { EndsAsCalled (λ words status. (w : _) × (source : _) × (sink : _) × (s : _)
        × (read : _) × (written : _) × F.post program w source sink s read written
        × (w.now ≡ words) × (s.0 ≡ status)) args (exit_status result) }
{
    match words_of(alloc, args) {
        Ok(words) => {
            let mut source = StdSource::new(input);
            let mut sink = StdSink::new(output);
            let status = program(&words, &mut source, &mut sink);
            ExitCode::from(status.0)
        }
        Err(status) => ExitCode::from(status.0),
    }
}
