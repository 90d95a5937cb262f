//! Statements and blocks.
ghost use Rattle.std.specs.Prelude.{◌≡◌, ◌≤◌, map, codes};
ghost use Rattle.sot_syntax_tree.specs.TreeViews.{statement_view, block_view};
ghost use Rattle.sot_expression.specs.Lexemes.{begins, is_sign, is_keyword};
ghost use Rattle.sot_parser.specs.ListReaders.{all_at};
ghost use Rattle.sot_expression.specs.ExpressionReaders.{tree_at};
ghost use Rattle.sot_parser.specs.StatementReaders.{otherwise_at, else_at, branch_at, loop_at};
ghost use Rattle.sot_parser.specs.StatementReaders.{choice_at, nested_at, begins_nested};
ghost use Rattle.sot_parser.specs.StatementReaders.{begins_statement, goes_on, block_at};
ghost use Rattle.sot_parser.specs.StatementReaders.{statement_at};
ghost use Rattle.sot_expression.specs.Returned.{Gives};

use crate::held::HeldPart;
use crate::plain::plain;
use sot_expression::{
    Fail, Tokens, expect_keyword, expect_sign, is_keyword, is_name, is_sign, number, tree,
};
use sot_syntax_tree::{Branch, Stmt};
use std::alloc::Global;

fn is_nested(tokens: &Tokens<'_>) -> bool
    ensures { result ≡ begins_nested tokens.now.tokens }
{
    is_keyword(tokens, b"if") || is_keyword(tokens, b"repeat")
}

fn begins_statement(tokens: &Tokens<'_>) -> bool
    ensures { result ≡ begins_statement tokens.now.tokens }
{
    is_name(tokens) || is_keyword(tokens, b"publish") || is_nested(tokens)
}

fn goes_on(tokens: &Tokens<'_>) -> bool
    ensures { result ≡ goes_on tokens.now.tokens }
{
    !is_sign(tokens, b"}")
}

// A statement of at most `room` levels.
#[cycle(statement)]
#[tactic(auto, using(crate::proofs::StatementSteps::plain_step, crate::proofs::StatementSteps::deep_step, crate::proofs::StatementSteps::stuck_step, crate::proofs::StatementSteps::nested_step))]
fn statement(alloc: Global, tokens: &mut Tokens<'_>, room: u32) -> Result<Stmt, Fail>
    requires room { room ≤ 64 }
    ensures { Gives statement_view result tokens.old tokens.new
        (statement_at room tokens.old.tokens) }
{
    if room == 0 {
        if begins_statement(tokens) {
            return Err(Fail::Deep);
        }
        return Err(Fail::Token);
    }
    if is_nested(tokens) {
        nested(alloc, tokens, room - 1)
    } else {
        plain(alloc, tokens, room)
    }
}

// A statement with others inside, whose parts have at most `room` levels.
#[cycle(statement)]
#[tactic(auto, unfolding(crate::specs::StatementReaders::nested_at))]
fn nested(alloc: Global, tokens: &mut Tokens<'_>, room: u32) -> Result<Stmt, Fail>
    requires room { room ≤ 63 }
    ensures { Gives statement_view result tokens.old tokens.new
        (nested_at room (tree_at room) (block_at (statement_at room)) tokens.old.tokens) }
{
    if is_keyword(tokens, b"if") {
        choice(alloc, tokens, room)
    } else {
        repeat(alloc, tokens, room)
    }
}

#[cycle(statement)]
fn choice(alloc: Global, tokens: &mut Tokens<'_>, room: u32) -> Result<Stmt, Fail>
    requires room { room ≤ 63 }
    ensures { Gives statement_view result tokens.old tokens.new
        (choice_at room (tree_at room) (block_at (statement_at room)) tokens.old.tokens) }
{
    if room == 0 {
        return Err(Fail::Deep);
    }
    branch(alloc, tokens, room)
}

#[cycle(statement)]
#[tactic(auto, unfolding(crate::specs::StatementReaders::branch_at))]
fn branch(alloc: Global, tokens: &mut Tokens<'_>, room: u32) -> Result<Stmt, Fail>
    requires room { (1 ≤ room) × (room ≤ 63) }
    ensures { Gives statement_view result tokens.old tokens.new
        (branch_at (tree_at room) (block_at (statement_at room)) tokens.old.tokens) }
{
    let at = expect_keyword(tokens, b"if")?;
    let cond = HeldPart(tree(alloc, tokens, room)?);
    let yes = block(alloc, tokens, room)?;
    let no = optional_else(alloc, tokens, room)?;
    let cond = cond.take();
    let branch = Box::new(alloc, Branch { cond, yes, no })?;
    Ok(Stmt::If { branch, at })
}

#[cycle(statement)]
#[tactic(auto, unfolding(crate::specs::StatementReaders::else_at))]
fn optional_else(alloc: Global, tokens: &mut Tokens<'_>, room: u32) -> Result<Vec<Stmt>, Fail>
    requires room { room ≤ 63 }
    ensures { Gives (λ block. block_view block.items) result tokens.old tokens.new
        (else_at (block_at (statement_at room)) tokens.old.tokens) }
{
    if is_keyword(tokens, b"else") {
        otherwise(alloc, tokens, room)
    } else {
        Ok(Vec::new(alloc))
    }
}

#[cycle(statement)]
#[tactic(auto, unfolding(crate::specs::StatementReaders::otherwise_at))]
fn otherwise(alloc: Global, tokens: &mut Tokens<'_>, room: u32) -> Result<Vec<Stmt>, Fail>
    requires room { room ≤ 63 }
    ensures { Gives (λ block. block_view block.items) result tokens.old tokens.new
        (otherwise_at (block_at (statement_at room)) tokens.old.tokens) }
{
    expect_keyword(tokens, b"else")?;
    block(alloc, tokens, room)
}

#[cycle(statement)]
#[tactic(auto, unfolding(crate::specs::StatementReaders::loop_at))]
fn repeat(alloc: Global, tokens: &mut Tokens<'_>, room: u32) -> Result<Stmt, Fail>
    requires room { room ≤ 63 }
    ensures { Gives statement_view result tokens.old tokens.new
        (loop_at (block_at (statement_at room)) tokens.old.tokens) }
{
    let at = expect_keyword(tokens, b"repeat")?;
    let times = number(tokens)?;
    let body = block(alloc, tokens, room)?;
    Ok(Stmt::Repeat { times, body, at })
}

/// A block, whose statements have at most `room` levels.
#[cycle(statement)]
#[tactic(auto, unfolding(crate::specs::StatementReaders::block_at))]
pub fn block(alloc: Global, tokens: &mut Tokens<'_>, room: u32) -> Result<Vec<Stmt>, Fail>
    requires room { room ≤ 64 }
    ensures { Gives (λ block. block_view block.items) result tokens.old tokens.new
        (block_at (statement_at room) tokens.old.tokens) }
{
    expect_sign(tokens, b"{")?;
    let body = statements(alloc, tokens, room)?;
    expect_sign(tokens, b"}")?;
    Ok(body)
}

// Statements up to a closing brace.
#[cycle(statement)]
fn statements(alloc: Global, tokens: &mut Tokens<'_>, room: u32) -> Result<Vec<Stmt>, Fail>
    requires room { room ≤ 64 }
    ensures { Gives (λ body. map statement_view body.items) result tokens.old tokens.new
        (all_at goes_on (statement_at room) tokens.old.tokens) }
{
    let mut body = Vec::new(alloc);
    while goes_on(tokens) {
        let next = statement(alloc, tokens, room)?;
        body.push(next)?;
    }
    Ok(body)
}
