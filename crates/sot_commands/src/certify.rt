//! `certify`: a certificate for a program whose regions are given.

ghost use Rattle.std.specs.Prelude.{ℕ, ◌<◌, ◌≤◌, ◌+◌, ◌^◌, length, Ok, IfOk, OnOk};
ghost use Rattle.sot_syntax_tree.specs.TreeViews.{program_view};
ghost use Rattle.sot_lang.specs.CertRules.{FitsTables};
ghost use Rattle.sot_certify.specs.Certifying.{Certifies};
ghost use Rattle.sot_report.specs.Missions.{Resolves};
ghost use Rattle.sot_cli.specs.Texts.{input_limit};
ghost use Rattle.sot_commands.specs.Answers.{SpellsAccepted, Replies};
ghost use Rattle.sot_commands.specs.Steps.{IsSpelled, IsWritten, CertifiesTables, CertifiesTree};
ghost use Rattle.sot_commands.specs.declared.words.Command.TheVariants.{Certify as CertifyCommand};

use crate::answer::uncertified;
use sot_certified_text::mission_text;
use sot_certify::{CertifyFail, certify as certificate};
use sot_cli::{Answer, faulty};
use sot_compose::check_all;
use sot_lang::{Cert, Typed};
use sot_parser::{ParseFail, parse};
use sot_ports::{Process, let_go};
use sot_report::{Fault, LoadFail, load};
use sot_rules::TypeFail;
use sot_sections::Need;
use sot_syntax_tree::Program;
use sot_text::Lexer;
use sot_typing::resolve;
use std::alloc::{AllocError, Global};
use std::thread::Threads;

// Reads a text again that was written of a certified program: no such text has a fault, and none is
// refused.
fn read_back<R: Threads + Sync>(rt: &R, alloc: Global, text: &[u8]) -> Result<(), AllocError>
    requires short { length text.now + 1 < 2 ^ 32 }
    requires written { IsWritten text.now }
    ensures { OnOk result (SpellsAccepted text.now) }
{
    match load(alloc, text, Need::Check, 0, Process::GoesOn) {
        Ok(loaded) => match check_all(rt, &loaded.program, &loaded.cert) {
            Ok(_accepted) => Ok(()),
            Err(_) => unreachable!(),
        },
        Err(LoadFail::Fault(_)) => unreachable!(),
        Err(LoadFail::Memory) => Err(AllocError),
    }
}

// Status 0: a program with its certificate, as a mission.
fn certified<R: Threads + Sync>(
    rt: &R,
    alloc: Global,
    program: &Program,
    tables: &Typed,
    cert: &Cert,
) -> Result<Answer, AllocError>
    requires spelled { IsSpelled (program_view program.now) }
    requires resolved { Resolves (program_view program.now) tables.now }
    requires fits { FitsTables tables.now cert.now }
    requires made { Certifies tables.now (Ok cert.now) }
    ensures { IfOk result (λ answer. CertifiesTables (program_view program.now) tables.now
        answer.status answer.text.items) }
{
    let text = mission_text(alloc, program, tables, cert)?;
    // Places have 32 bits: there is no room for a longer text.
    if text.len() >= u32::MAX as usize {
        return Err(AllocError);
    }
    read_back(rt, alloc, &text)?;
    Ok(Answer { status: 0, text })
}

// The certificate of a program, or why there is none.
fn certify_tables<R: Threads + Sync>(
    rt: &R,
    alloc: Global,
    program: &Program,
    tables: &Typed,
) -> Result<Answer, AllocError>
    requires spelled { IsSpelled (program_view program.now) }
    requires resolved { Resolves (program_view program.now) tables.now }
    ensures { IfOk result (λ answer. CertifiesTables (program_view program.now) tables.now
        answer.status answer.text.items) }
{
    match certificate(alloc, tables) {
        Ok(cert) => certified(rt, alloc, program, tables, &cert),
        Err(CertifyFail::Memory) => Err(AllocError),
        Err(fail) => uncertified(alloc, tables, &fail),
    }
}

// The certificate of a program, or why there is none; the program may break a rule of typing.
fn certify_tree<R: Threads + Sync>(
    rt: &R,
    alloc: Global,
    program: &Program,
) -> Result<Answer, AllocError>
    requires spelled { IsSpelled (program_view program.now) }
    ensures { IfOk result (λ answer. CertifiesTree (program_view program.now) answer.status
        answer.text.items) }
{
    match resolve(alloc, program) {
        Ok(tables) => certify_tables(rt, alloc, program, &tables),
        Err(TypeFail::Fault(fault)) => faulty(alloc, &Fault::Typing(fault)),
        Err(TypeFail::Memory) => Err(AllocError),
    }
}

/// Reads a program, makes its certificate, and says both as a mission.
pub fn certify<R: Threads + Sync>(
    rt: &R,
    alloc: Global,
    bytes: &[u8],
    process: Process,
) -> Result<Answer, AllocError>
    requires { length bytes.now ≤ input_limit }
    ensures { (guests : ℕ) → IfOk result
        (λ answer. Replies guests CertifyCommand bytes.now answer.status answer.text.items) }
{
    match parse(alloc, &Lexer::new(bytes)) {
        Ok(program) => {
            let answer = certify_tree(rt, alloc, &program);
            let_go(program, process);
            answer
        }
        Err(ParseFail::Syntax(fault)) => faulty(alloc, &Fault::Syntax(fault)),
        Err(ParseFail::Memory) => Err(AllocError),
    }
}
