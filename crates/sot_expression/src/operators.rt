//! Operators between two operands, and what an operand begins with.
ghost use Rattle.std.specs.Prelude.{◌≡◌, ◌≤◌};
ghost use Rattle.sot_expression.specs.Lexemes.{is_keyword, is_sign, is_name, is_number};
ghost use Rattle.sot_expression.specs.Stream.{first_of};
ghost use Rattle.sot_text.specs.Reading.{lexeme};
ghost use Rattle.sot_expression.specs.Operators.{operator_of, tier_of_op, tier_of_infix};
ghost use Rattle.sot_expression.specs.Operators.{operator_from, opening_of, opening_at};

use crate::tokens::Tokens;
use crate::word::{token_is_keyword, token_is_sign};
use sot_syntax_tree::{Func, Op};
use sot_text::{Kind, Token};

/// What joins a left part to what stands behind it: an operator with an operand, or `%` with a
/// number.
#[derive(Clone, Copy)]
pub enum Infix {
    Joins(Op),
    Rests,
}

/// What an atom begins with.
#[derive(Clone, Copy)]
pub enum Opening {
    Number,
    Name,
    Group,
    Truth(bool),
    Pair(Func),
    Abs,
    Clamp,
    Rescale,
    Other,
}

#[inline(always)]
fn operator_of(token: &Token<'_>) -> Option<Infix>
    ensures { result ≡ operator_of (lexeme token.now) }
{
    if token_is_sign(token, b"*") {
        Some(Infix::Joins(Op::Mul))
    } else if token_is_sign(token, b"/") {
        Some(Infix::Joins(Op::Div))
    } else if token_is_sign(token, b"%") {
        Some(Infix::Rests)
    } else if token_is_sign(token, b"+") {
        Some(Infix::Joins(Op::Add))
    } else if token_is_sign(token, b"-") {
        Some(Infix::Joins(Op::Sub))
    } else if token_is_sign(token, b"<") {
        Some(Infix::Joins(Op::Less))
    } else if token_is_sign(token, b"<=") {
        Some(Infix::Joins(Op::LessEqual))
    } else if token_is_sign(token, b">") {
        Some(Infix::Joins(Op::Greater))
    } else if token_is_sign(token, b">=") {
        Some(Infix::Joins(Op::GreaterEqual))
    } else if token_is_sign(token, b"==") {
        Some(Infix::Joins(Op::Equal))
    } else if token_is_sign(token, b"!=") {
        Some(Infix::Joins(Op::NotEqual))
    } else if token_is_keyword(token, b"and") {
        Some(Infix::Joins(Op::And))
    } else if token_is_keyword(token, b"or") {
        Some(Infix::Joins(Op::Or))
    } else {
        None
    }
}

fn tier_of_op(op: Op) -> u8
    ensures tier { result ≡ tier_of_op op }
    ensures some { 1 ≤ result }
    ensures most { result ≤ 6 }
{
    match op {
        Op::Mul | Op::Div => 1,
        Op::Add | Op::Sub => 2,
        Op::Less | Op::LessEqual | Op::Greater | Op::GreaterEqual | Op::Equal | Op::NotEqual => 3,
        Op::And => 5,
        Op::Or => 6,
    }
}

/// The tier of an operator.
pub fn tier_of(operator: Infix) -> u8
    ensures tier { result ≡ tier_of_infix operator }
    ensures some { 1 ≤ result }
    ensures most { result ≤ 6 }
{
    match operator {
        Infix::Joins(op) => tier_of_op(op),
        Infix::Rests => 1,
    }
}

/// The operator that comes next.
#[inline(always)]
pub fn operator_at(tokens: &Tokens<'_>) -> Option<Infix>
    ensures { result ≡ operator_from (first_of tokens.now.tokens) }
{
    operator_of(&tokens.peek()?)
}

#[inline(always)]
fn opening_of(token: &Token<'_>) -> Opening
    ensures { result ≡ opening_of (lexeme token.now) }
{
    if matches!(token.kind, Kind::Number) {
        Opening::Number
    } else if matches!(token.kind, Kind::Name) {
        Opening::Name
    } else if token_is_sign(token, b"(") {
        Opening::Group
    } else if token_is_keyword(token, b"true") {
        Opening::Truth(true)
    } else if token_is_keyword(token, b"false") {
        Opening::Truth(false)
    } else if token_is_keyword(token, b"min") {
        Opening::Pair(Func::Min)
    } else if token_is_keyword(token, b"max") {
        Opening::Pair(Func::Max)
    } else if token_is_keyword(token, b"abs") {
        Opening::Abs
    } else if token_is_keyword(token, b"clamp") {
        Opening::Clamp
    } else if token_is_keyword(token, b"rescale") {
        Opening::Rescale
    } else {
        Opening::Other
    }
}

/// What the next token begins.
#[inline(always)]
pub fn opening_at(tokens: &Tokens<'_>) -> Opening
    ensures { result ≡ opening_at tokens.now.tokens }
{
    match tokens.peek() {
        Some(token) => opening_of(&token),
        None => Opening::Other,
    }
}
