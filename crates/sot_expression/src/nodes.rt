//! The nodes of a tree, above parts that were read.
ghost use Rattle.std.specs.Prelude.{◌≡◌};
ghost use Rattle.sot_syntax_tree.specs.Trees.{binary, rest, negated, denied, called, one_more};
ghost use Rattle.sot_syntax_tree.specs.Trees.{no_tree};
ghost use Rattle.sot_syntax_tree.specs.Trees.{rescaled, chosen};
ghost use Rattle.sot_syntax_tree.specs.TreeViews.{tree_view, parts_view};
ghost use Rattle.sot_expression.specs.Returned.{Makes};

use crate::fail::Fail;
use crate::part::Part;
use sot_syntax_tree::{Apart, Choice, Expr, Func, Lit, Op, Operands};
use sot_text::Span;
use std::alloc::Global;

// A function with its parts.
fn called(alloc: Global, func: Func, parts: Vec<Expr>, at: Span) -> Result<Expr, Fail>
    ensures { Makes tree_view result (called func (parts_view parts.items) at) }
{
    let parts = Box::new(alloc, parts)?;
    Ok(Expr::Call { func, parts, at })
}

/// A call with one part.
pub fn call_of_one(alloc: Global, func: Func, first: Part, at: Span) -> Result<Expr, Fail>
    ensures { Makes tree_view result (called func (one_more (tree_view first.tree) no_tree) at) }
{
    let mut parts = Vec::with_capacity(alloc, 1)?;
    parts.push_reserved(first.into_tree());
    called(alloc, func, parts, at)
}

/// A call with two parts.
pub fn call_of_two(
    alloc: Global,
    func: Func,
    first: Part,
    second: Part,
    at: Span,
) -> Result<Expr, Fail>
    ensures { Makes tree_view result (called func
        (one_more (tree_view first.tree) (one_more (tree_view second.tree) no_tree)) at) }
{
    let mut parts = Vec::with_capacity(alloc, 2)?;
    parts.push_reserved(first.into_tree());
    parts.push_reserved(second.into_tree());
    called(alloc, func, parts, at)
}

/// A call with three parts.
pub fn call_of_three(
    alloc: Global,
    func: Func,
    first: Part,
    second: Part,
    third: Part,
    at: Span,
) -> Result<Expr, Fail>
    ensures { Makes tree_view result (called func
        (one_more (tree_view first.tree) (one_more (tree_view second.tree)
        (one_more (tree_view third.tree) no_tree))) at) }
{
    let mut parts = Vec::with_capacity(alloc, 3)?;
    parts.push_reserved(first.into_tree());
    parts.push_reserved(second.into_tree());
    parts.push_reserved(third.into_tree());
    called(alloc, func, parts, at)
}

/// An operator with two operands.
pub fn binary(alloc: Global, op: Op, left: Part, right: Part, at: Span) -> Result<Expr, Fail>
    ensures { Makes tree_view result (binary op (tree_view left.tree) (tree_view right.tree) at) }
{
    let both = Operands {
        left: left.into_tree(),
        right: right.into_tree(),
    };
    let operands = Box::new(alloc, both)?;
    Ok(Expr::Binary { op, operands, at })
}

/// The operator `%`.
pub fn rest(alloc: Global, left: Part, by: Lit, at: Span) -> Result<Expr, Fail>
    ensures { Makes tree_view result (rest (tree_view left.tree) by at) }
{
    let left = Box::new(alloc, left.into_tree())?;
    let by = Apart::new(alloc, by)?;
    Ok(Expr::Rest { left, by, at })
}

pub fn negated(alloc: Global, part: Part, at: Span) -> Result<Expr, Fail>
    ensures { Makes tree_view result (negated (tree_view part.tree) at) }
{
    let part = Box::new(alloc, part.into_tree())?;
    Ok(Expr::Neg { part, at })
}

pub fn denied(alloc: Global, part: Part, at: Span) -> Result<Expr, Fail>
    ensures { Makes tree_view result (denied (tree_view part.tree) at) }
{
    let part = Box::new(alloc, part.into_tree())?;
    Ok(Expr::Not { part, at })
}

pub fn rescaled(alloc: Global, part: Part, to: Lit, at: Span) -> Result<Expr, Fail>
    ensures { Makes tree_view result (rescaled (tree_view part.tree) to at) }
{
    let part = Box::new(alloc, part.into_tree())?;
    let to = Apart::new(alloc, to)?;
    Ok(Expr::Rescale { part, to, at })
}

/// An `if` expression.
pub fn chosen(alloc: Global, cond: Part, yes: Part, no: Part, at: Span) -> Result<Expr, Fail>
    ensures { Makes tree_view result (chosen (tree_view cond.tree) (tree_view yes.tree)
        (tree_view no.tree) at) }
{
    let choice = Choice {
        cond: cond.into_tree(),
        yes: yes.into_tree(),
        no: no.into_tree(),
    };
    let choice = Box::new(alloc, choice)?;
    Ok(Expr::If { choice, at })
}
