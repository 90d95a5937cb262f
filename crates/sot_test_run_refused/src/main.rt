//! The program `soter` once more, with another stored run.
//! It is `run` of `sot_commands`, as `main` of `soter` is.
#![tactic(auto)]

use sot_commands::run;
use std::env;
use std::process::ExitCode;

fn main(rt: HostRuntime) -> ExitCode {
    run(&rt, rt.alloc(), env::args(&rt), rt.stdin(), rt.stdout())
}
