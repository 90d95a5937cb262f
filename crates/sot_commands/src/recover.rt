//! `recover`: within how many holds the modules of a mission recover.

ghost use Rattle.std.specs.Prelude.{◌≤◌, ℕ, length, IfOk};
ghost use Rattle.sot_lang.specs.CertRules.{FitsTables};
ghost use Rattle.sot_cli.specs.Texts.{input_limit};
ghost use Rattle.sot_commands.specs.Answers.{Replies};
ghost use Rattle.sot_commands.specs.Steps.{SaysRecovery, JudgesRecovery};
ghost use Rattle.sot_commands.specs.declared.words.Command.TheVariants.{Recover as RecoverCommand};

use sot_cli::{Answer, faulty, refused};
use sot_compose::check_all;
use sot_lang::{Cert, Typed};
use sot_ports::{Process, let_go};
use sot_recovery_text::put_recovery;
use sot_report::{LoadFail, load};
use sot_sections::Need;
use sot_tube::Accepted;
use std::alloc::{AllocError, Global};
use std::thread::Threads;

// A line for each module. Where some module never recovers, the status is 1.
fn recover_accepted(alloc: Global, accepted: &Accepted<'_>) -> Result<Answer, AllocError>
    requires { FitsTables accepted.now.program accepted.now.cert }
    ensures { IfOk result (λ answer. SaysRecovery accepted.now.program accepted.now.cert
        answer.status answer.text.items) }
{
    let mut text = Vec::new(alloc);
    let all = put_recovery(alloc, &mut text, accepted)?;
    Ok(Answer {
        status: if all { 0 } else { 1 },
        text,
    })
}

// Checks a program with its certificate, and looks at its modules where it is accepted.
fn judge<R: Threads + Sync>(
    rt: &R,
    alloc: Global,
    program: &Typed,
    cert: &Cert,
) -> Result<Answer, AllocError>
    requires { FitsTables program.now cert.now }
    ensures { IfOk result (λ answer. JudgesRecovery program.now cert.now answer.status
        answer.text.items) }
{
    match check_all(rt, program, cert) {
        Ok(accepted) => recover_accepted(alloc, &accepted),
        Err(refusal) => refused(alloc, program, &refusal),
    }
}

/// Reads a mission, checks it, and says of each of its modules within how many holds it recovers. A
/// mission without modules has nothing said.
pub fn recover<R: Threads + Sync>(
    rt: &R,
    alloc: Global,
    bytes: &[u8],
    process: Process,
) -> Result<Answer, AllocError>
    requires { length bytes.now ≤ input_limit }
    ensures { (guests : ℕ) → IfOk result
        (λ answer. Replies guests RecoverCommand bytes.now answer.status answer.text.items) }
{
    match load(alloc, bytes, Need::Check, 0, process) {
        Ok(loaded) => {
            let answer = judge(rt, alloc, &loaded.program, &loaded.cert);
            let_go(loaded, process);
            answer
        }
        Err(LoadFail::Fault(fault)) => faulty(alloc, &fault),
        Err(LoadFail::Memory) => Err(AllocError),
    }
}
