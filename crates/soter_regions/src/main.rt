//! The program `soter_regions`: makes a mission from what must never be left.
//!
//! It is `run` of `sot_regions_program`, over the words, standard input and standard output.
#![tactic(auto)]

use sot_regions_program::run;
use std::env;
use std::process::ExitCode;

fn main(rt: HostRuntime) -> ExitCode {
    run(&rt, rt.alloc(), env::args(&rt), rt.stdin(), rt.stdout())
}
