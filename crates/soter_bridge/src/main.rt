//! The program `soter_bridge`: flies two missions, with a bridge from the one to the other.
//!
//! It is `run` of `sot_bridge`, over the words, standard input and standard output.
#![tactic(auto)]

use sot_bridge::run;
use std::env;
use std::process::ExitCode;

fn main(rt: HostRuntime) -> ExitCode {
    run(&rt, rt.alloc(), env::args(&rt), rt.stdin(), rt.stdout())
}
