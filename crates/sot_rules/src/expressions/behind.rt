//! Whether an expression stands behind a place of the text.
ghost use Rattle.std.specs.Prelude.{◌≡◌, ◌&&◌, Some};
ghost use Rattle.sot_syntax_tree.specs.TreeViews.{tree_view, parts_view};
ghost use Rattle.sot_rules.specs.Behind.{is_behind, field_behind, tree_behind, trees_behind};

use crate::fault::is_behind;
use sot_syntax_tree::{Expr, Member};
use sot_text::Span;

/// Whether both names stand behind a place.
pub fn is_member_behind(member: &Member, from: Span) -> bool
    ensures { result ≡ (is_behind from member.now.first.at
        && field_behind from (Some member.now.field)) }
{
    let field = is_behind(member.field.at, from);
    is_behind(member.first.at, from) && field
}

#[cycle(tree_behind)]
fn are_parts_behind(parts: &[Expr], from: Span) -> bool
    ensures { result ≡ trees_behind from (parts_view parts.now) }
{
    for part in parts {
        if !is_tree_behind(part, from) {
            return false;
        }
    }
    true
}

/// Whether each part of an expression stands behind a place.
#[cycle(tree_behind)]
pub fn is_tree_behind(e: &Expr, from: Span) -> bool
    ensures { result ≡ tree_behind from (tree_view e.now) }
{
    match e {
        Expr::Number(_) => true,
        Expr::Truth { .. } => true,
        Expr::Name(name) => is_behind(name.at, from),
        Expr::Member(member) => is_member_behind(member.content(), from),
        Expr::Binary { operands, at, .. } => {
            let a = is_tree_behind(&operands.left, from);
            let b = is_tree_behind(&operands.right, from);
            is_behind(*at, from) && (a && b)
        }
        Expr::Rest { left, by, at } => {
            let a = is_tree_behind(left, from);
            let number = is_behind(by.content().at, from);
            is_behind(*at, from) && (number && a)
        }
        Expr::Neg { part, at } => {
            let a = is_tree_behind(part, from);
            is_behind(*at, from) && a
        }
        Expr::Not { part, at } => {
            let a = is_tree_behind(part, from);
            is_behind(*at, from) && a
        }
        Expr::Call { parts, at, .. } => {
            let all = are_parts_behind(parts, from);
            is_behind(*at, from) && all
        }
        Expr::Rescale { part, to, at } => {
            let a = is_tree_behind(part, from);
            let number = is_behind(to.content().at, from);
            is_behind(*at, from) && (number && a)
        }
        Expr::If { choice, at } => {
            let c = is_tree_behind(&choice.cond, from);
            let a = is_tree_behind(&choice.yes, from);
            let b = is_tree_behind(&choice.no, from);
            is_behind(*at, from) && (c && (a && b))
        }
    }
}
