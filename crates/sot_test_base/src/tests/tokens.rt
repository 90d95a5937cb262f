//! Tokens with their places and their ends, faults that come again, numerals, how small trees are,
//! and that each theorem of these crates can be called.
use super::same;
use sot_expression::{expressions_are_unique, reads_each_expression, reads_only_expressions};
use sot_parser::programs_are_unique;
use sot_print::{
    canonical_words_are_read_back, declarations_are_as_stated, expressions_are_as_stated,
    words_are_read_back,
};
use sot_sections::sections_are_as_stated;
use sot_syntax_tree::{Expr, Stmt};
use sot_text::{LexFault, Lexer, Span, Token, numeral_of};
use std::alloc::{AllocError, Global};
use std::mem::size_of;
use std::process::Abort;

const TEXT: &str = "topic x1: int[-2..\n\t2.5] # c := d\n  :=_9";

// The tokens of that text, by kind, with the line and the column where each stands, and how many
// bytes there are up to its end.
const TOKENS: &str = "Keyword topic 1:1 5
Name x1 1:7 8
Sign : 1:9 9
Keyword int 1:11 13
Sign [ 1:14 14
Sign - 1:15 15
Number 2 1:16 16
Sign .. 1:17 18
Number 2.5 2:2 23
Sign ] 2:5 24
Sign := 3:3 38
Name _9 3:5 40";

// Numerals, with their number, its decimals and how many bytes are read.
const NUMERALS: &str = "0 => 0 0 1
12.50 => 1250 2 5
007..9 => 7 0 3
1. => 1 0 1
9999999999999 => 1000000000001 0 13";

fn place_text(alloc: Global, at: Span) -> Result<String, AllocError> {
    format!(in alloc; "{}:{}", at.line, at.column)
}

// A token, by kind, with its place and its end.
fn token_text(alloc: Global, token: &Token<'_>) -> Result<String, AllocError> {
    let at = place_text(alloc, token.at)?;
    let word = str::from_utf8(token.text).unwrap_or("no text");
    format!(in alloc; "{:?} {word} {at} {}", token.kind, token.to)
}

// The next token is this one.
fn next_is(rt: &impl Abort, alloc: Global, lexer: &mut Lexer<'_>, want: &str) {
    match lexer.next() {
        Ok(Some(token)) => {
            let found = token_text(alloc, &token).expect(rt, "memory");
            same(rt, want, found.as_str(), want);
        }
        _ => panic!(rt; "no token {want}"),
    }
}

// A row's numeral has what stands behind it.
fn numeral_is(rt: &impl Abort, alloc: Global, row: &str) {
    let (text, want) = row.split_once(" => ").expect(rt, " => ");
    let number = numeral_of(text.as_bytes());
    let (mantissa, decimals) = (number.mantissa, number.decimals);
    let found = format!(in alloc; "{mantissa} {decimals} {}", number.len).expect(rt, "memory");
    same(rt, text, found.as_str(), want);
}

#[test]
fn reads_tokens_with_their_places(rt: HostRuntime) {
    let mut lexer = Lexer::new(TEXT.as_bytes());
    let end = Span { line: 3, column: 7 };
    same(&rt, "end", lexer.end(), end);
    for want in TOKENS.lines() {
        next_is(&rt, rt.alloc(), &mut lexer, want);
    }
    same(&rt, "tokens", TOKENS.lines().count(), 12);
    same(&rt, "next", matches!(lexer.next(), Ok(None)), true);
    same(&rt, "again", matches!(lexer.again().next(), Ok(None)), true);
    for row in NUMERALS.lines() {
        numeral_is(&rt, rt.alloc(), row);
    }
    same(&rt, "numerals", NUMERALS.lines().count(), 5);
}

// A long text is mostly expressions and statements, so each byte of them counts.
#[test]
fn repeats_a_fault_and_keeps_trees_small(rt: HostRuntime) {
    let mut lexer = Lexer::new(b"a $ b");
    same(&rt, "a", matches!(lexer.next(), Ok(Some(_))), true);
    for i in 0..3 {
        let at = Span { line: 1, column: 3 };
        same(&rt, i, lexer.next().err(), Some(LexFault::BadByte { at }));
    }
    same(&rt, "expression", size_of::<Expr>() <= 32, true);
    same(&rt, "statement", size_of::<Stmt>() <= 64, true);
}

#[test]
fn theorems_may_be_called(_rt: HostRuntime) {
    sections_are_as_stated();
    reads_only_expressions();
    reads_each_expression();
    expressions_are_unique();
    programs_are_unique();
    expressions_are_as_stated();
    declarations_are_as_stated();
    words_are_read_back();
    canonical_words_are_read_back();
}
