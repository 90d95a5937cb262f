//! Statements and blocks.
ghost use Rattle.std.specs.Prelude.{◌≡◌, ◌∷◌, ◌++◌, OnOk};
ghost use Rattle.sot_print.specs.declared.gap.Gap.TheVariants.{Space};
ghost use Rattle.std.specs.String.{string_bytes};
ghost use Rattle.sot_syntax_tree.specs.TreeViews.{tree_view, statement_view, block_view};
ghost use Rattle.sot_print.specs.Words.{laid};
ghost use Rattle.sot_print.specs.Expressions.{expression_words};
ghost use Rattle.sot_print.specs.Statements.{semicolon, braced_words, otherwise_words};
ghost use Rattle.sot_print.specs.Statements.{statement_words, block_words};

use crate::expression::push_expression;
use crate::gap::{Gap, push_word};
use crate::leaf::{push_ident, push_literal, push_member};
use sot_syntax_tree::{Expr, Stmt};
use std::alloc::AllocError;

pub fn push_semicolon(out: &mut String) -> Result<(), AllocError>
    ensures { OnOk result (string_bytes out.new ≡ string_bytes out.old ++ laid semicolon) }
{
    out.push(';')
}

// The sign, the value and the end of a statement.
fn push_value(out: &mut String, sign: &str, value: &Expr) -> Result<(), AllocError>
    ensures { OnOk result (string_bytes out.new
        ≡ string_bytes out.old ++ (32 ∷ sign.now
        ++ (laid (expression_words (tree_view value.now) Space) ++ laid semicolon))) }
{
    push_word(out, Gap::Space, sign)?;
    push_expression(out, Gap::Space, value)?;
    push_semicolon(out)
}

/// The statements of a block, from this column on.
#[cycle(statement)]
fn push_statements(out: &mut String, indent: usize, block: &[Stmt]) -> Result<(), AllocError>
    ensures { OnOk result (string_bytes out.new
        ≡ string_bytes out.old ++ laid (block_words (block_view block.now) indent)) }
{
    for statement in block {
        push_statement(out, indent, statement)?;
    }
    Ok(())
}

/// A block in braces, two spaces deeper. An indentation past all numbers has no room in memory.
#[cycle(statement)]
pub fn push_block(out: &mut String, indent: usize, block: &[Stmt]) -> Result<(), AllocError>
    ensures { OnOk result (string_bytes out.new
        ≡ string_bytes out.old ++ laid (braced_words indent (block_words (block_view block.now)))) }
{
    let Some(deeper) = indent.checked_add(2) else {
        return Err(AllocError);
    };
    push_word(out, Gap::Space, "{")?;
    push_statements(out, deeper, block)?;
    push_word(out, Gap::Line { indent }, "}")
}

// `else` and its block, unless that is empty.
#[cycle(statement)]
fn push_otherwise(out: &mut String, indent: usize, block: &[Stmt]) -> Result<(), AllocError>
    ensures { OnOk result (string_bytes out.new
        ≡ string_bytes out.old ++ laid (otherwise_words (block_view block.now) indent
        (block_words (block_view block.now)))) }
{
    if block.is_empty() {
        return Ok(());
    }
    push_word(out, Gap::Space, "else")?;
    push_block(out, indent, block)
}

#[cycle(statement)]
fn push_statement(out: &mut String, indent: usize, statement: &Stmt) -> Result<(), AllocError>
    ensures { OnOk result (string_bytes out.new
        ≡ string_bytes out.old ++ laid (statement_words (statement_view statement.now) indent)) }
{
    match statement {
        Stmt::Assign { target, value } => {
            push_ident(out, Gap::Line { indent }, target)?;
            push_value(out, ":=", value)
        }
        Stmt::Publish { topic, value } => {
            push_word(out, Gap::Line { indent }, "publish")?;
            push_ident(out, Gap::Space, topic)?;
            push_value(out, "=", value)
        }
        Stmt::PublishField { place, value } => {
            push_word(out, Gap::Line { indent }, "publish")?;
            push_member(out, Gap::Space, place.content())?;
            push_value(out, "=", value)
        }
        Stmt::If { branch, .. } => {
            push_word(out, Gap::Line { indent }, "if")?;
            push_expression(out, Gap::Space, &branch.cond)?;
            push_block(out, indent, &branch.yes)?;
            push_otherwise(out, indent, &branch.no)
        }
        Stmt::Repeat { times, body, .. } => {
            push_word(out, Gap::Line { indent }, "repeat")?;
            push_literal(out, Gap::Space, *times)?;
            push_block(out, indent, body)
        }
    }
}
