//! A whole program: its tree, or where it goes wrong.
ghost use Rattle.std.specs.Prelude.{◌≡◌, IfOk, IsErrOf};
ghost use Rattle.sot_text.specs.Ahead.{ahead_from};
ghost use Rattle.sot_syntax_tree.specs.Trees.{Program as ProgramTree};
ghost use Rattle.sot_syntax_tree.specs.TreeViews.{program_view};
ghost use Rattle.sot_parser.specs.Programs.{Spells};
ghost use Rattle.sot_parser.specs.DeclarationReaders.{program_at};
ghost use Rattle.sot_parser.specs.ParseAnswers.{stuck_syntax, deep_syntax, is_ended, fault_at};
ghost use Rattle.sot_parser.specs.ParseAnswers.{Answers};
ghost use Rattle.sot_expression.specs.Returned.{Gives};

use crate::declaration::declarations;
use crate::syntax::{ParseFail, Syntax};
use sot_expression::{Fail, Tokens};
use sot_syntax_tree::Program;
use sot_text::Lexer;
use std::alloc::Global;

const ROOM: u32 = 64;

#[tactic(auto, unfolding(crate::specs::DeclarationReaders::program_at))]
fn program(alloc: Global, tokens: &mut Tokens<'_>) -> Result<Program, Fail>
    ensures { Gives program_view result tokens.old tokens.new (program_at tokens.old.tokens) }
{
    let decls = declarations(alloc, tokens, ROOM)?;
    Ok(Program { decls })
}

// Where reading stops: at the next token, at a piece that is none, or at the end of the text.
fn stuck(lexer: &Lexer<'_>, tokens: &Tokens<'_>) -> Syntax
    ensures { result ≡ stuck_syntax lexer.now.bytes tokens.now }
{
    match tokens.peek() {
        Some(token) => Syntax::Token { at: token.at },
        None => match tokens.fault() {
            Some(fault) => Syntax::Lex(fault),
            None => Syntax::Token { at: lexer.end() },
        },
    }
}

fn too_deep(lexer: &Lexer<'_>, tokens: &Tokens<'_>) -> Syntax
    ensures { result ≡ deep_syntax lexer.now.bytes tokens.now }
{
    match tokens.peek() {
        Some(token) => Syntax::Deep { at: token.at },
        None => stuck(lexer, tokens),
    }
}

// The text ends where its tokens do.
fn is_ended(tokens: &Tokens<'_>) -> bool
    ensures { result ≡ is_ended tokens.now }
{
    match tokens.peek() {
        Some(_) => false,
        None => tokens.fault().is_none(),
    }
}

#[tactic(auto, using(crate::proofs::ProgramTexts::read_all, crate::proofs::ProgramTexts::not_all, crate::proofs::ProgramTexts::none_read, crate::proofs::ProgramTexts::stuck_place, crate::proofs::ProgramTexts::deep_place, crate::proofs::ProgramTexts::more_place))]
fn answer(alloc: Global, lexer: &Lexer<'_>) -> Result<Program, ParseFail>
    ensures { Answers result lexer.now.bytes (ahead_from lexer.now.bytes lexer.now.at) }
{
    let mut tokens = Tokens::new(lexer.again());
    match program(alloc, &mut tokens) {
        Ok(program) => {
            if is_ended(&tokens) {
                Ok(program)
            } else {
                Err(ParseFail::Syntax(stuck(lexer, &tokens)))
            }
        }
        Err(Fail::Token) => Err(ParseFail::Syntax(stuck(lexer, &tokens))),
        Err(Fail::Deep) => Err(ParseFail::Syntax(too_deep(lexer, &tokens))),
        Err(Fail::Memory) => Err(ParseFail::Memory),
    }
}

/// Reads a program, from where the lexer stands to the end of its text.
#[tactic(auto, using(crate::proofs::ProgramTexts::answers_ok, crate::proofs::ProgramTexts::answers_only))]
pub fn parse(alloc: Global, lexer: &Lexer<'_>) -> Result<Program, ParseFail>
    ensures ok { IfOk result (λ program. Spells lexer.now.bytes lexer.now.at
        (program_view program)) }
    ensures only { IfOk result (λ program. (other : ProgramTree)
        → Spells lexer.now.bytes lexer.now.at other → other ≡ program_view program) }
    ensures syntax { (fault : _) → IsErrOf result (ParseFail.Syntax fault) → (program : ProgramTree)
        → ¬ (Spells lexer.now.bytes lexer.now.at program) }
    ensures place { (fault : _) → IsErrOf result (ParseFail.Syntax fault)
        → fault ≡ fault_at lexer.now.bytes lexer.now.at }
{
    answer(alloc, lexer)
}
