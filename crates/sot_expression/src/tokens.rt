//! A text as a stream, one token ahead of its lexer.
ghost use Rattle.std.specs.Prelude.{◌≡◌, [], IfSome};
ghost use Rattle.std.specs.Option.{option_map};
ghost use Rattle.sot_text.specs.Lexeme.{IsTokenText};
ghost use Rattle.sot_text.specs.Reading.{lexeme};
ghost use Rattle.sot_text.specs.Ahead.{ahead_from};
ghost use Rattle.sot_expression.specs.Stream.{ahead_of, first_of, behind};

use sot_text::{LexFault, Lexer, Token};
use std::marker::Model;

/// A place in a text, one token ahead of its lexer.
#[derive(Drop)]
pub struct Tokens<'a> {
    lexer: Lexer<'a>,
    next: Option<Token<'a>>,
    fault: Option<LexFault>,
}

impl<'a> Model for Tokens<'a> {
    ghost use Rattle.std.specs.Prelude.{IfSome};
    ghost use Rattle.sot_text.specs.Lexeme.{IsTokenText};
    ghost use Rattle.sot_text.specs.Ahead.{Ahead};
    ghost use Rattle.sot_expression.specs.Stream.{ahead_of};

    ghost Value = { Ahead };

    ghost view = { λ s. ahead_of s.next s.fault s.lexer };

    ghost invariant = { λ s. IfSome s.next (λ token. IsTokenText token.kind token.text.now) };
}

// Each of many callers would hold a copy of what it gives, so it stands apart, and puts that in its
// place.
#[inline(never)]
#[tactic(auto, using(crate::proofs::StreamLaws::pulled, crate::proofs::StreamLaws::faulted))]
fn pull<'a>(lexer: &mut Lexer<'a>, next: &mut Option<Token<'a>>, fault: &mut Option<LexFault>)
    ensures ahead { ahead_of next.new fault.new lexer.new
        ≡ ahead_from lexer.old.bytes lexer.old.at }
    ensures whole { IfSome next.new (λ token. IsTokenText token.kind token.text.now) }
{
    match lexer.next() {
        Ok(found) => {
            *next = found;
            *fault = None;
        }
        Err(error) => {
            *next = None;
            *fault = Some(error);
        }
    }
}

impl<'a> Tokens<'a> {
    /// The tokens from where a lexer stands.
    pub fn new(mut lexer: Lexer<'a>) -> Tokens<'a>
        ensures { result ≡ ahead_from lexer.entry.bytes lexer.entry.at }
    {
        let mut next = None;
        let mut fault = None;
        pull(&mut lexer, &mut next, &mut fault);
        Tokens { lexer, next, fault }
    }

    /// The next token.
    pub fn peek(&self) -> Option<Token<'a>>
        ensures first { option_map lexeme result ≡ first_of self.now.tokens }
        ensures whole { IfSome result (λ token. IsTokenText token.kind token.text.now) }
    {
        self.next
    }

    /// Passes over the next token, if there is one.
    pub fn advance(&mut self)
        ensures { self.new ≡ behind self.old }
    {
        if self.next.is_some() {
            pull(&mut self.lexer, &mut self.next, &mut self.fault);
        }
    }

    /// How the tokens end, where none is left: with the text, or with a fault.
    pub fn fault(&self) -> Option<LexFault>
        requires { self.now.tokens ≡ [] }
        ensures { result ≡ self.now.end }
    {
        self.fault
    }
}
