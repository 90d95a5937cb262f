//! The tokens that stand in every production: keywords, signs, names and numbers.
ghost use Rattle.std.specs.Prelude.{◌≡◌, ◌≤◌, ◌^◌, codes};
ghost use Rattle.sot_text.specs.declared.token.Kind.TheVariants.{Number as NumberKind};
ghost use Rattle.sot_text.specs.Lexeme.{IsTokenText, mantissa_of};
ghost use Rattle.sot_text.specs.Reading.{lexeme};
ghost use Rattle.sot_expression.specs.Lexemes.{begins, is_keyword, is_sign, is_name, is_number};
ghost use Rattle.sot_expression.specs.Lexemes.{literal, negative_literal};
ghost use Rattle.sot_expression.specs.Readers.{expect, name_at, number_at, negative_at, literal_at};
ghost use Rattle.sot_expression.specs.Returned.{Gives};

use crate::fail::Fail;
use crate::tokens::Tokens;
use crate::word::{token_is_keyword, token_is_sign};
use sot_syntax_tree::{Ident, Lit, Name};
use sot_text::{Kind, Span, Token, numeral_of};
use std::alloc::Global;

/// Whether this keyword comes next.
pub fn is_keyword(tokens: &Tokens<'_>, text: &[u8]) -> bool
    ensures { result ≡ begins (is_keyword text.now) tokens.now.tokens }
{
    match tokens.peek() {
        Some(token) => token_is_keyword(&token, text),
        None => false,
    }
}

/// Whether this sign comes next.
#[inline(always)]
pub fn is_sign(tokens: &Tokens<'_>, text: &[u8]) -> bool
    ensures { result ≡ begins (is_sign text.now) tokens.now.tokens }
{
    match tokens.peek() {
        Some(token) => token_is_sign(&token, text),
        None => false,
    }
}

/// Whether a number comes next.
pub fn is_number(tokens: &Tokens<'_>) -> bool
    ensures { result ≡ begins is_number tokens.now.tokens }
{
    match tokens.peek() {
        Some(token) => matches!(token.kind, Kind::Number),
        None => false,
    }
}

/// Whether a name comes next.
pub fn is_name(tokens: &Tokens<'_>) -> bool
    ensures { result ≡ begins is_name tokens.now.tokens }
{
    match tokens.peek() {
        Some(token) => matches!(token.kind, Kind::Name),
        None => false,
    }
}

/// Takes this keyword, and gives its place.
///
/// # Errors
///
/// `Token` where something else comes next, which stays there.
pub fn expect_keyword(tokens: &mut Tokens<'_>, text: &[u8]) -> Result<Span, Fail>
    ensures { Gives (λ at. at) result tokens.old tokens.new
        (expect (is_keyword text.now) tokens.old.tokens) }
{
    let Some(token) = tokens.peek() else {
        return Err(Fail::Token);
    };
    if !is_keyword(tokens, text) {
        return Err(Fail::Token);
    }
    tokens.advance();
    Ok(token.at)
}

/// Takes this sign, and gives its place.
///
/// # Errors
///
/// `Token` where something else comes next, which stays there.
pub fn expect_sign(tokens: &mut Tokens<'_>, text: &[u8]) -> Result<Span, Fail>
    ensures { Gives (λ at. at) result tokens.old tokens.new
        (expect (is_sign text.now) tokens.old.tokens) }
{
    let Some(token) = tokens.peek() else {
        return Err(Fail::Token);
    };
    if !is_sign(tokens, text) {
        return Err(Fail::Token);
    }
    tokens.advance();
    Ok(token.at)
}

/// Takes a name, and copies it.
///
/// # Errors
///
/// `Token` where something else comes next, which stays there; `Memory`.
pub fn name(alloc: Global, tokens: &mut Tokens<'_>) -> Result<Ident, Fail>
    ensures { Gives (λ name. name) result tokens.old tokens.new (name_at tokens.old.tokens) }
{
    let Some(token) = tokens.peek() else {
        return Err(Fail::Token);
    };
    match token.kind {
        Kind::Name => {
            // The name is made last, so that it is not held, and copied, over another call.
            tokens.advance();
            let name = Name::from_bytes(alloc, token.text)?;
            Ok(Ident { name, at: token.at })
        }
        _ => Err(Fail::Token),
    }
}

#[tactic(auto, using(sot_text::proofs::Limits::token_fits))]
fn positive(token: Token<'_>) -> Lit
    requires { IsTokenText NumberKind token.text.now }
    ensures { result ≡ literal (lexeme token.entry) }
{
    let numeral = numeral_of(token.text);
    Lit {
        mantissa: numeral.mantissa as i64,
        scale: numeral.decimals as u8,
        at: token.at,
    }
}

#[tactic(auto, using(sot_text::proofs::Limits::token_fits))]
fn negative(minus: Token<'_>, token: Token<'_>) -> Lit
    requires { IsTokenText NumberKind token.text.now }
    ensures { result ≡ negative_literal (lexeme minus.entry) (lexeme token.entry) }
{
    let numeral = numeral_of(token.text);
    Lit {
        mantissa: -(numeral.mantissa as i64),
        scale: numeral.decimals as u8,
        at: minus.at,
    }
}

/// Takes a number.
///
/// # Errors
///
/// `Token` where something else comes next, which stays there.
pub fn number(tokens: &mut Tokens<'_>) -> Result<Lit, Fail>
    ensures { Gives (λ lit. lit) result tokens.old tokens.new (number_at tokens.old.tokens) }
{
    let Some(token) = tokens.peek() else {
        return Err(Fail::Token);
    };
    match token.kind {
        Kind::Number => {
            let lit = positive(token);
            tokens.advance();
            Ok(lit)
        }
        _ => Err(Fail::Token),
    }
}

/// The literal behind a minus.
pub fn negated_number(tokens: &mut Tokens<'_>, minus: Token<'_>) -> Result<Lit, Fail>
    ensures { Gives (λ lit. lit) result tokens.old tokens.new
        (negative_at (lexeme minus.entry) tokens.old.tokens) }
{
    let Some(token) = tokens.peek() else {
        return Err(Fail::Token);
    };
    match token.kind {
        Kind::Number => {
            let lit = negative(minus, token);
            tokens.advance();
            Ok(lit)
        }
        _ => Err(Fail::Token),
    }
}

/// Takes a number, or a minus and a number.
///
/// # Errors
///
/// `Token` where something else comes, in front of the minus or behind it.
pub fn literal(tokens: &mut Tokens<'_>) -> Result<Lit, Fail>
    ensures { Gives (λ lit. lit) result tokens.old tokens.new (literal_at tokens.old.tokens) }
{
    let Some(token) = tokens.peek() else {
        return Err(Fail::Token);
    };
    if is_sign(tokens, b"-") {
        tokens.advance();
        negated_number(tokens, token)
    } else {
        number(tokens)
    }
}
