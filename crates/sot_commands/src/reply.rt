//! What a command says of a text, or the flight that it orders.

ghost use Rattle.std.specs.Prelude.{◌≡◌, ◌≤◌, ℕ, length, vec_len, IfOk};
ghost use Rattle.sot_commands.specs.Words.{IsInForm};
ghost use Rattle.sot_commands.specs.Answers.{Replies};
ghost use Rattle.sot_commands.specs.Steps.{IsReply, as_reply};
ghost use Rattle.sot_commands.specs.declared.words.Command.TheVariants.{Format as FormatCommand};

use crate::answer::{canonical, made};
use crate::certify::certify;
use crate::check::check;
use crate::order::FlightOrder;
use crate::recover::recover;
use crate::replay::replay;
use crate::soak::soak;
use crate::telling::Telling;
use crate::words::Command;
use sot_cli::{Answer, INPUT_LIMIT, faulty};
use sot_parser::{ParseFail, parse};
use sot_ports::{Process, let_go};
use sot_report::Fault;
use sot_text::Lexer;
use std::alloc::{AllocError, Global};
use std::thread::Threads;

/// An answer, or a flight that is to be flown for one.
#[derive(Drop)]
pub enum Reply<'w> {
    Said(Answer),
    Flight(FlightOrder<'w>),
}

/// An answer as a reply.
pub fn said<'w>(answer: Result<Answer, AllocError>) -> Result<Reply<'w>, AllocError>
    ensures { result ≡ as_reply answer }
{
    match answer {
        Ok(answer) => Ok(Reply::Said(answer)),
        Err(fail) => Err(fail),
    }
}

// The canonical text of what a text spells.
fn format(alloc: Global, bytes: &[u8], process: Process) -> Result<Answer, AllocError>
    requires { length bytes.now ≤ INPUT_LIMIT }
    ensures { (guests : ℕ) → IfOk result (λ answer.
        Replies guests FormatCommand bytes.now answer.status answer.text.items) }
{
    match parse(alloc, &Lexer::new(bytes)) {
        Ok(program) => {
            let answer = canonical(alloc, &program);
            let_go(program, process);
            answer
        }
        Err(ParseFail::Syntax(fault)) => faulty(alloc, &Fault::Syntax(fault)),
        Err(ParseFail::Memory) => Err(AllocError),
    }
}

/// What a command says of the text that it works on, where so many guests are handed in; of one
/// that flies, the order of the flight. It does not wait.
pub fn reply_of<'w, R: Threads + Sync>(
    rt: &R,
    alloc: Global,
    command: Command<'w>,
    guests: u32,
    bytes: Vec<u8>,
    process: Process,
) -> Result<Reply<'w>, AllocError>
    requires form { IsInForm command }
    requires short { vec_len bytes ≤ INPUT_LIMIT }
    ensures { IfOk result (IsReply guests command.entry bytes.items) }
{
    match command {
        Command::Check => said(check(rt, alloc, &bytes, process)),
        Command::Fly => Ok(Reply::Flight(FlightOrder {
            text: bytes,
            telling: Telling::Trace,
        })),
        Command::Replay => said(replay(rt, alloc, guests, &bytes, process)),
        Command::Recover => said(recover(rt, alloc, &bytes, process)),
        Command::Watch { formula } => Ok(Reply::Flight(FlightOrder {
            text: bytes,
            telling: Telling::Verdict { formula },
        })),
        Command::Format => said(format(alloc, &bytes, process)),
        Command::Certify => said(certify(rt, alloc, &bytes, process)),
        Command::Make { n, seed } => said(made(alloc, n, seed)),
        Command::Soak { n, seed } => Ok(Reply::Flight(soak(alloc, n, seed)?)),
    }
}
