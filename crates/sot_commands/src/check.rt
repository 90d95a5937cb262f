//! `check`: what is said of a mission.

ghost use Rattle.std.specs.Prelude.{◌≤◌, ℕ, length, IfOk};
ghost use Rattle.sot_lang.specs.CertRules.{FitsTables};
ghost use Rattle.sot_cli.specs.Texts.{input_limit};
ghost use Rattle.sot_commands.specs.Answers.{Replies};
ghost use Rattle.sot_commands.specs.Steps.{Judges};
ghost use Rattle.sot_commands.specs.declared.words.Command.TheVariants.{Check as CheckCommand};

use crate::answer::accepted;
use sot_cli::{Answer, faulty, refused};
use sot_compose::check_all;
use sot_lang::{Cert, Typed};
use sot_ports::{Process, let_go};
use sot_report::{LoadFail, load};
use sot_sections::Need;
use std::alloc::{AllocError, Global};
use std::thread::Threads;

// Checks a program with its certificate.
fn judge<R: Threads + Sync>(
    rt: &R,
    alloc: Global,
    program: &Typed,
    cert: &Cert,
) -> Result<Answer, AllocError>
    requires { FitsTables program.now cert.now }
    ensures { IfOk result (λ answer. Judges program.now cert.now answer.status answer.text.items) }
{
    match check_all(rt, program, cert) {
        Ok(_accepted) => accepted(alloc, program, cert),
        Err(refusal) => refused(alloc, program, &refusal),
    }
}

/// Checks a mission: its sections, its program, its certificate, and then all conditions.
pub fn check<R: Threads + Sync>(
    rt: &R,
    alloc: Global,
    bytes: &[u8],
    process: Process,
) -> Result<Answer, AllocError>
    requires { length bytes.now ≤ input_limit }
    ensures { (guests : ℕ) → IfOk result
        (λ answer. Replies guests CheckCommand bytes.now answer.status answer.text.items) }
{
    match load(alloc, bytes, Need::Check, 0, process) {
        Ok(loaded) => {
            let answer = judge(rt, alloc, &loaded.program, &loaded.cert);
            let_go(loaded, process);
            answer
        }
        Err(LoadFail::Fault(fault)) => faulty(alloc, &fault),
        Err(LoadFail::Memory) => Err(AllocError),
    }
}
