//! Nodes.
ghost use Rattle.std.specs.Prelude.{◌≡◌, ◌≤◌, map, codes};
ghost use Rattle.sot_syntax_tree.specs.TreeViews.{local_view, block_view, node_view};
ghost use Rattle.sot_expression.specs.Lexemes.{begins, is_keyword};
ghost use Rattle.sot_parser.specs.ListReaders.{all_at};
ghost use Rattle.sot_parser.specs.DeclarationReaders.{local_at, head_at, code_at, coded_at};
ghost use Rattle.sot_parser.specs.DeclarationReaders.{external_at};
ghost use Rattle.sot_expression.specs.Returned.{Gives};

use crate::held::HeldPart;
use crate::items::optional;
use crate::pieces::{constant, scalar, timing};
use crate::statement::block;
use sot_expression::{Fail, Tokens, expect_keyword, expect_sign, is_keyword, name};
use sot_syntax_tree::{LocalDecl, NodeDecl, Stmt};
use std::alloc::Global;

#[tactic(auto, unfolding(crate::specs::DeclarationReaders::local_at))]
fn local(alloc: Global, tokens: &mut Tokens<'_>) -> Result<LocalDecl, Fail>
    ensures { Gives local_view result tokens.old tokens.new (local_at tokens.old.tokens) }
{
    expect_keyword(tokens, b"local")?;
    let name = HeldPart(name(alloc, tokens)?);
    expect_sign(tokens, b":")?;
    let scalar = scalar(tokens)?;
    expect_sign(tokens, b"=")?;
    let init = constant(tokens)?;
    expect_sign(tokens, b";")?;
    Ok(LocalDecl {
        name: name.take(),
        scalar,
        init,
    })
}

fn locals(alloc: Global, tokens: &mut Tokens<'_>) -> Result<Vec<LocalDecl>, Fail>
    ensures { Gives (λ locals. map local_view locals.items) result tokens.old tokens.new
        (all_at (begins (is_keyword (codes "local"))) local_at tokens.old.tokens) }
{
    let mut locals = Vec::new(alloc);
    while is_keyword(tokens, b"local") {
        let local = local(alloc, tokens)?;
        locals.push(local)?;
    }
    Ok(locals)
}

// A node up to its code, as one that has none.
#[tactic(auto, unfolding(crate::specs::DeclarationReaders::head_at))]
fn head(alloc: Global, tokens: &mut Tokens<'_>) -> Result<NodeDecl, Fail>
    ensures { Gives node_view result tokens.old tokens.new (head_at tokens.old.tokens) }
{
    let name = HeldPart(name(alloc, tokens)?);
    let (period, offset) = timing(tokens)?;
    expect_sign(tokens, b"{")?;
    let reads = optional(alloc, tokens, b"reads")?;
    let writes = optional(alloc, tokens, b"writes")?;
    Ok(NodeDecl {
        name: name.take(),
        period,
        offset,
        reads,
        writes,
        locals: Vec::new(alloc),
        body: None,
    })
}

// The locals and the body of a node.
#[tactic(auto, unfolding(crate::specs::DeclarationReaders::code_at))]
fn code(
    alloc: Global,
    tokens: &mut Tokens<'_>,
    room: u32,
) -> Result<(Vec<LocalDecl>, Vec<Stmt>), Fail>
    requires room { room ≤ 64 }
    ensures { Gives (λ code. (map local_view code.0.items, block_view code.1.items)) result
        tokens.old tokens.new (code_at room tokens.old.tokens) }
{
    let locals = locals(alloc, tokens)?;
    expect_keyword(tokens, b"do")?;
    let body = block(alloc, tokens, room)?;
    Ok((locals, body))
}

/// A node with a body of at most `room` levels.
#[tactic(auto, unfolding(crate::specs::DeclarationReaders::coded_at))]
pub fn coded(alloc: Global, tokens: &mut Tokens<'_>, room: u32) -> Result<NodeDecl, Fail>
    requires room { room ≤ 64 }
    ensures { Gives node_view result tokens.old tokens.new (coded_at room tokens.old.tokens) }
{
    expect_keyword(tokens, b"node")?;
    let head = HeldPart(head(alloc, tokens)?);
    let (locals, body) = code(alloc, tokens, room)?;
    expect_sign(tokens, b"}")?;
    let head = head.take();
    Ok(NodeDecl {
        name: head.name,
        period: head.period,
        offset: head.offset,
        reads: head.reads,
        writes: head.writes,
        locals,
        body: Some(body),
    })
}

/// An external node.
#[tactic(auto, unfolding(crate::specs::DeclarationReaders::external_at))]
pub fn external(alloc: Global, tokens: &mut Tokens<'_>) -> Result<NodeDecl, Fail>
    ensures { Gives node_view result tokens.old tokens.new (external_at tokens.old.tokens) }
{
    expect_keyword(tokens, b"external")?;
    let node = HeldPart(head(alloc, tokens)?);
    expect_sign(tokens, b"}")?;
    Ok(node.take())
}
