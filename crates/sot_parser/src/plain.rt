//! Statements with none inside.
ghost use Rattle.std.specs.Prelude.{◌≡◌, ◌≤◌, codes};
ghost use Rattle.sot_syntax_tree.specs.Trees.{published};
ghost use Rattle.sot_syntax_tree.specs.TreeViews.{tree_view, statement_view};
ghost use Rattle.sot_expression.specs.Lexemes.{begins, is_sign, is_keyword};
ghost use Rattle.sot_expression.specs.ExpressionReaders.{tree_at};
ghost use Rattle.sot_parser.specs.StatementReaders.{assign_at, field_at, dot_at, publish_at};
ghost use Rattle.sot_parser.specs.StatementReaders.{plain_at};
ghost use Rattle.sot_expression.specs.Returned.{Gives, Makes};

use crate::held::HeldPart;
use sot_expression::{Fail, Tokens, expect_keyword, expect_sign, is_keyword, is_sign, name, tree};
use sot_syntax_tree::{Apart, Expr, Ident, Member, Stmt};
use std::alloc::Global;

#[tactic(auto, unfolding(crate::specs::StatementReaders::assign_at))]
fn assign(alloc: Global, tokens: &mut Tokens<'_>, room: u32) -> Result<Stmt, Fail>
    requires room { (1 ≤ room) × (room ≤ 64) }
    ensures { Gives statement_view result tokens.old tokens.new
        (assign_at (tree_at room) tokens.old.tokens) }
{
    let target = HeldPart(name(alloc, tokens)?);
    expect_sign(tokens, b":=")?;
    let value = HeldPart(tree(alloc, tokens, room)?);
    expect_sign(tokens, b";")?;
    Ok(Stmt::Assign {
        target: target.take(),
        value: value.take(),
    })
}

#[tactic(auto, unfolding(crate::specs::StatementReaders::field_at))]
fn field(alloc: Global, tokens: &mut Tokens<'_>) -> Result<Option<Ident>, Fail>
    ensures { Gives (λ field. field) result tokens.old tokens.new (field_at tokens.old.tokens) }
{
    expect_sign(tokens, b".")?;
    let field = name(alloc, tokens)?;
    Ok(Some(field))
}

#[tactic(auto, unfolding(crate::specs::StatementReaders::dot_at))]
fn optional_field(alloc: Global, tokens: &mut Tokens<'_>) -> Result<Option<Ident>, Fail>
    ensures { Gives (λ field. field) result tokens.old tokens.new (dot_at tokens.old.tokens) }
{
    if is_sign(tokens, b".") {
        field(alloc, tokens)
    } else {
        Ok(None)
    }
}

// A value for a topic, or for one field of it.
fn published(alloc: Global, topic: Ident, field: Option<Ident>, value: Expr) -> Result<Stmt, Fail>
    ensures { Makes statement_view result (published topic field (tree_view value)) }
{
    match field {
        None => Ok(Stmt::Publish { topic, value }),
        Some(field) => {
            let first = topic;
            let place = Apart::new(alloc, Member { first, field })?;
            Ok(Stmt::PublishField { place, value })
        }
    }
}

#[tactic(auto, unfolding(crate::specs::StatementReaders::publish_at))]
fn publish(alloc: Global, tokens: &mut Tokens<'_>, room: u32) -> Result<Stmt, Fail>
    requires room { (1 ≤ room) × (room ≤ 64) }
    ensures { Gives statement_view result tokens.old tokens.new
        (publish_at (tree_at room) tokens.old.tokens) }
{
    expect_keyword(tokens, b"publish")?;
    let topic = HeldPart(name(alloc, tokens)?);
    let field = HeldPart(optional_field(alloc, tokens)?);
    expect_sign(tokens, b"=")?;
    let value = HeldPart(tree(alloc, tokens, room)?);
    expect_sign(tokens, b";")?;
    let statement = published(alloc, topic.take(), field.take(), value.take())?;
    Ok(statement)
}

/// A statement with none inside, whose expression has at most `room` levels.
#[tactic(auto, unfolding(crate::specs::StatementReaders::plain_at))]
pub fn plain(alloc: Global, tokens: &mut Tokens<'_>, room: u32) -> Result<Stmt, Fail>
    requires room { (1 ≤ room) × (room ≤ 64) }
    ensures { Gives statement_view result tokens.old tokens.new
        (plain_at (tree_at room) tokens.old.tokens) }
{
    if is_keyword(tokens, b"publish") {
        publish(alloc, tokens, room)
    } else {
        assign(alloc, tokens, room)
    }
}
