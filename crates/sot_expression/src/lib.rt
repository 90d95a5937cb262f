//! The expressions that a text spells.
//!
//! [`Tokens`] is a text as a stream, one token ahead of its lexer. [`tree`] reads the expression at
//! its front, with one function for each production, and stops at the first token that no
//! expression goes on with. What stands in every grammar of the language is here too: a keyword, a
//! sign, a name, a number. A call that fails has moved to the token at fault, and [`Fail`] says
//! why: it may not stand there, it would nest too deep, or there was no memory.
#![tactic(auto)]

mod expression;
mod fail;
mod laws;
mod leaves;
mod nodes;
mod operators;
mod part;
mod tokens;
mod word;

pub use expression::tree;
pub use fail::Fail;
pub use laws::{expressions_are_unique, reads_each_expression, reads_only_expressions};
pub use leaves::{
    expect_keyword, expect_sign, is_keyword, is_name, is_number, is_sign, literal, name, number,
};
pub use tokens::Tokens;
pub use word::{token_is_keyword, token_is_sign};
