//! The words of formulas.

ghost use Rattle.std.specs.Prelude.{◌≡◌, ◌≤◌, ◌-◌};
ghost use Rattle.std.specs.Str.{bytes_eq};
ghost use Rattle.sot_text.specs.Reading.{lexeme};
ghost use Rattle.sot_formula.specs.Phrases.{most_parts};
ghost use Rattle.sot_formula.specs.Words.{comparing_of, comparing_from, opening_of, opening_from};
ghost use Rattle.sot_formula.specs.Words.{word_of, is_mode, single_what, double_what};
ghost use Rattle.sot_formula.specs.Words.{pairing_of, pairing_from};
ghost use Rattle.sot_expression.specs.Lexemes.{begins, is_name};
ghost use Rattle.sot_expression.specs.Stream.{first_of};

use crate::quantity::{Comparison, Pairing};
use crate::what::What;
use sot_expression::{Tokens, token_is_keyword, token_is_sign};
use sot_text::{Kind, Token};

/// What has one part in parentheses.
#[derive(Clone, Copy)]
pub enum Single {
    Not,
    Once,
    Always,
}

/// What has two, or a row of them.
#[derive(Clone, Copy)]
pub enum Double {
    And,
    Or,
    Since,
    Implies,
}

/// What a formula begins with.
#[derive(Clone, Copy)]
pub enum FormulaOpening {
    Truth(bool),
    Single(Single),
    Double(Double),
    Name,
    Other,
}

/// What a name is in front of a parenthesis.
#[derive(Clone, Copy)]
pub enum Word {
    Single(Single),
    Double(Double),
    Within,
    Mode,
    Other,
}

fn comparing_of(token: &Token<'_>) -> Option<Comparison>
    ensures { result ≡ comparing_of (lexeme token.now) }
{
    if token_is_sign(token, b"<") {
        Some(Comparison::Less)
    } else if token_is_sign(token, b"<=") {
        Some(Comparison::LessEqual)
    } else if token_is_sign(token, b">") {
        Some(Comparison::Greater)
    } else if token_is_sign(token, b">=") {
        Some(Comparison::GreaterEqual)
    } else if token_is_sign(token, b"==") {
        Some(Comparison::Equal)
    } else if token_is_sign(token, b"!=") {
        Some(Comparison::NotEqual)
    } else {
        None
    }
}

/// The comparison whose sign comes next.
pub fn comparing(tokens: &Tokens<'_>) -> Option<Comparison>
    ensures { result ≡ comparing_from (first_of tokens.now.tokens) }
{
    comparing_of(&tokens.peek()?)
}

fn pairing_of(token: &Token<'_>) -> Option<Pairing>
    ensures { result ≡ pairing_of (lexeme token.now) }
{
    if token_is_sign(token, b"+") {
        Some(Pairing::Sum)
    } else if token_is_sign(token, b"-") {
        Some(Pairing::Difference)
    } else {
        None
    }
}

/// The sum or difference whose sign comes next.
pub fn pairing(tokens: &Tokens<'_>) -> Option<Pairing>
    ensures { result ≡ pairing_from (first_of tokens.now.tokens) }
{
    pairing_of(&tokens.peek()?)
}

/// A name comes next.
pub fn name_comes(tokens: &Tokens<'_>) -> bool
    ensures { result ≡ begins is_name tokens.now.tokens }
{
    match tokens.peek() {
        Some(token) => matches!(token.kind, Kind::Name),
        None => false,
    }
}

fn opening_of(token: &Token<'_>) -> FormulaOpening
    ensures { result ≡ opening_of (lexeme token.now) }
{
    if matches!(token.kind, Kind::Name) {
        FormulaOpening::Name
    } else if token_is_keyword(token, b"true") {
        FormulaOpening::Truth(true)
    } else if token_is_keyword(token, b"false") {
        FormulaOpening::Truth(false)
    } else if token_is_keyword(token, b"not") {
        FormulaOpening::Single(Single::Not)
    } else if token_is_keyword(token, b"and") {
        FormulaOpening::Double(Double::And)
    } else if token_is_keyword(token, b"or") {
        FormulaOpening::Double(Double::Or)
    } else {
        FormulaOpening::Other
    }
}

/// What the next token begins.
pub fn next_opening(tokens: &Tokens<'_>) -> FormulaOpening
    ensures { result ≡ opening_from (first_of tokens.now.tokens) }
{
    match tokens.peek() {
        Some(token) => opening_of(&token),
        None => FormulaOpening::Other,
    }
}

fn is_same(name: &[u8], word: &[u8]) -> bool
    ensures { result ≡ bytes_eq name.now word.now }
{
    name == word
}

/// A name of these bytes in front of a parenthesis asks for a module.
pub fn is_mode(name: &[u8]) -> bool
    ensures { result ≡ is_mode name.now }
{
    is_same(name, b"mode")
}

/// What a name of these bytes is in front of a parenthesis.
pub fn word_of(name: &[u8]) -> Word
    ensures { result ≡ word_of name.now }
{
    if is_same(name, b"once") {
        Word::Single(Single::Once)
    } else if is_same(name, b"always") {
        Word::Single(Single::Always)
    } else if is_same(name, b"since") {
        Word::Double(Double::Since)
    } else if is_same(name, b"implies") {
        Word::Double(Double::Implies)
    } else if is_same(name, b"within") {
        Word::Within
    } else if is_same(name, b"mode") {
        Word::Mode
    } else {
        Word::Other
    }
}

/// What has the part at this place.
pub fn single_what(word: Single, place: usize) -> What
    ensures { result ≡ single_what word place }
{
    match word {
        Single::Not => What::Not(place),
        Single::Once => What::Once(place),
        Single::Always => What::Always(place),
    }
}

/// What has the parts at these places.
pub fn double_what(word: Double, first: usize, second: usize) -> What
    ensures { result ≡ double_what word first second }
{
    match word {
        Double::And => What::And { first, second },
        Double::Or => What::Or { first, second },
        Double::Since => What::Since { first, second },
        Double::Implies => What::Implies { first, second },
    }
}

/// How many parts may stand behind the first two.
pub fn further_parts(word: Double) -> u32
    ensures is { result ≡ most_parts word - 2 }
    ensures few { result ≤ 62 }
{
    match word {
        Double::And | Double::Or => 62,
        Double::Since | Double::Implies => 0,
    }
}
