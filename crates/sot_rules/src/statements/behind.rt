//! Whether statements stand behind a place of the text.
ghost use Rattle.std.specs.Prelude.{◌≡◌};
ghost use Rattle.sot_syntax_tree.specs.TreeViews.{statement_view, block_view};
ghost use Rattle.sot_rules.specs.Behind.{statement_behind, block_behind};

use crate::expressions::behind::is_tree_behind;
use crate::fault::is_behind;
use sot_syntax_tree::Stmt;
use sot_text::Span;

/// Whether each part of the statements of a block stands behind a place.
#[cycle(block_behind)]
pub fn is_block_behind(stmts: &[Stmt], from: Span) -> bool
    ensures { result ≡ block_behind from (block_view stmts.now) }
{
    for stmt in stmts {
        if !is_statement_behind(stmt, from) {
            return false;
        }
    }
    true
}

#[cycle(block_behind)]
fn is_statement_behind(stmt: &Stmt, from: Span) -> bool
    ensures { result ≡ statement_behind from (statement_view stmt.now) }
{
    match stmt {
        Stmt::Assign { target, value } => {
            let e = is_tree_behind(value, from);
            is_behind(target.at, from) && e
        }
        Stmt::Publish { topic, value } => {
            let e = is_tree_behind(value, from);
            is_behind(topic.at, from) && e
        }
        Stmt::PublishField { place, value } => {
            let e = is_tree_behind(value, from);
            let member = place.content();
            let field = is_behind(member.field.at, from);
            is_behind(member.first.at, from) && (field && e)
        }
        Stmt::If { branch, at } => {
            let c = is_tree_behind(&branch.cond, from);
            let a = is_block_behind(&branch.yes, from);
            let b = is_block_behind(&branch.no, from);
            is_behind(*at, from) && (c && (a && b))
        }
        Stmt::Repeat { times, body, at } => {
            let b = is_block_behind(body, from);
            let number = is_behind(times.at, from);
            is_behind(*at, from) && (number && b)
        }
    }
}
