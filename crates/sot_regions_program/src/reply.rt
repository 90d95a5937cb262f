//! What is answered to the bytes of a program.

ghost use Rattle.std.specs.Prelude.{◌≡◌, ◌≤◌, length, IfOk};
ghost use Rattle.sot_syntax_tree.specs.Trees.{Program as Tree};
ghost use Rattle.sot_syntax_tree.specs.TreeViews.{program_view};
ghost use Rattle.sot_parser.specs.Programs.{Spells};
ghost use Rattle.sot_cli.specs.Texts.{input_limit};
ghost use Rattle.sot_regions_program.specs.AsAsked.{IsSearched};
ghost use Rattle.sot_regions_program.specs.Answers.{SpellsTyped, Answers, Replies};
ghost use Rattle.sot_regions_program.specs.Steps.{AreTablesOf, AnswersSearched, AnswersTree};
ghost use Rattle.sot_regions_program.specs.Steps.{AnswersAtLast};

use crate::as_asked::{check_as_asked, is_late};
use crate::as_given::or_as_given;
use crate::before::{no_regions, none_of};
use crate::mission::mission_of;
use crate::refusal::RegionsRefusal;
use crate::search::{Asked, Searched, search};
use sot_cli::{Answer, faulty, refused};
use sot_lang::Typed;
use sot_parser::{ParseFail, parse};
use sot_ports::{Process, let_go};
use sot_report::Fault;
use sot_rules::TypeFail;
use sot_syntax_tree::Program;
use sot_text::Lexer;
use sot_typing::resolve;
use std::alloc::{AllocError, Global};
use std::thread::Threads;

// What is said of a program whose regions are searched.
fn searched<R: Threads + Sync>(
    rt: &R,
    alloc: Global,
    asked: Asked<'_>,
) -> Result<Answer, AllocError>
    requires short { length asked.text.now ≤ input_limit }
    requires tables { AreTablesOf asked.text.now asked.tables.now }
    requires jitter { asked.jitter ≤ 999 }
    requires searched { IsSearched asked.tables.now asked.jitter }
    ensures { (p : Tree) → SpellsTyped asked.entry.text.now p asked.entry.tables.now → IfOk result
        (λ answer. AnswersSearched p asked.entry.tables.now asked.entry.jitter answer.status
        answer.text.items) }
{
    match search(alloc, asked)? {
        Searched::All(findings) => mission_of(rt, alloc, asked, findings),
        Searched::First { before, refusal } => none_of(rt, alloc, asked, before, &refusal),
    }
}

// What is said of it at last.
fn at_last<R: Threads + Sync>(rt: &R, alloc: Global, asked: Asked<'_>) -> Result<Answer, AllocError>
    requires short { length asked.text.now ≤ input_limit }
    requires tables { AreTablesOf asked.text.now asked.tables.now }
    requires jitter { asked.jitter ≤ 999 }
    requires searched { IsSearched asked.tables.now asked.jitter }
    ensures { (p : Tree) → SpellsTyped asked.entry.text.now p asked.entry.tables.now → IfOk result
        (λ answer. AnswersAtLast p asked.entry.tables.now asked.entry.jitter answer.status
        answer.text.items) }
{
    match searched(rt, alloc, asked) {
        Ok(found) => or_as_given(alloc, asked, found),
        Err(error) => Err(error),
    }
}

// What is said of a program that breaks no rule of typing.
fn of_tables<R: Threads + Sync>(
    rt: &R,
    alloc: Global,
    asked: Asked<'_>,
) -> Result<Answer, AllocError>
    requires short { length asked.text.now ≤ input_limit }
    requires tables { AreTablesOf asked.text.now asked.tables.now }
    requires jitter { asked.jitter ≤ 999 }
    ensures { (p : Tree) → SpellsTyped asked.entry.text.now p asked.entry.tables.now → IfOk result
        (λ answer. Answers p asked.entry.tables.now asked.entry.jitter answer.status
        answer.text.items) }
{
    // A look at the tables brings their rules, which their type keeps.
    let tables = asked.tables;
    let _modules = tables.modules.len();
    if is_late(tables, asked.jitter) {
        return no_regions(alloc, tables, &RegionsRefusal::Jitter(asked.jitter));
    }
    match check_as_asked(tables) {
        Ok(()) => at_last(rt, alloc, asked),
        Err(refusal) => refused(alloc, tables, &refusal),
    }
}

// What is said of a program that a text spells.
fn of_tree<R: Threads + Sync>(
    rt: &R,
    alloc: Global,
    jitter: u32,
    text: &[u8],
    program: &Program,
) -> Result<Answer, AllocError>
    requires jitter { jitter ≤ 999 }
    requires short { length text.now ≤ input_limit }
    requires spelled { Spells text.now 0 (program_view program.now) }
    ensures { IfOk result (λ answer. AnswersTree (program_view program.now) jitter answer.status
        answer.text.items) }
{
    match resolve(alloc, program) {
        Ok(tables) => of_tables(
            rt,
            alloc,
            Asked {
                text,
                tables: &tables,
                jitter,
            },
        ),
        Err(TypeFail::Fault(fault)) => faulty(alloc, &Fault::Typing(fault)),
        Err(TypeFail::Memory) => Err(AllocError),
    }
}

/// Reads a program, has regions searched for it at this jitter, and says its mission, or why there
/// is none.
pub fn reply_of<R: Threads + Sync>(
    rt: &R,
    alloc: Global,
    jitter: u32,
    bytes: &[u8],
    process: Process,
) -> Result<Answer, AllocError>
    requires jitter { jitter ≤ 999 }
    requires short { length bytes.now ≤ input_limit }
    ensures { IfOk result (λ answer.
        Replies jitter bytes.now answer.status answer.text.items) }
{
    match parse(alloc, &Lexer::new(bytes)) {
        Ok(program) => {
            let answer = of_tree(rt, alloc, jitter, bytes, &program);
            let_go(program, process);
            answer
        }
        Err(ParseFail::Syntax(fault)) => faulty(alloc, &Fault::Syntax(fault)),
        Err(ParseFail::Memory) => Err(AllocError),
    }
}
