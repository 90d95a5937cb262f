//! The program `soter_guard`: a decision module beside a robot.
//!
//! It is `run` of `sot_guard_program`, over the words, standard input and standard output.
#![tactic(auto)]

use sot_guard_program::run;
use std::env;
use std::process::ExitCode;

fn main(rt: HostRuntime) -> ExitCode {
    run(&rt, rt.alloc(), env::args(&rt), rt.stdin(), rt.stdout())
}
