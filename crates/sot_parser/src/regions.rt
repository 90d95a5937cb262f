//! Modules and their regions.
ghost use Rattle.std.specs.Prelude.{◌≡◌, map, codes};
ghost use Rattle.sot_syntax_tree.specs.TreeViews.{area_view, module_view};
ghost use Rattle.sot_expression.specs.Lexemes.{begins, is_sign, is_keyword};
ghost use Rattle.sot_parser.specs.ListReaders.{further_at, separated_at};
ghost use Rattle.sot_parser.specs.DeclarationReaders.{box_at, no_box_at, region_at, bound_at};
ghost use Rattle.sot_parser.specs.DeclarationReaders.{pairing_at, bounds_at, module_at};
ghost use Rattle.sot_expression.specs.Returned.{Gives};

use crate::held::HeldPart;
use crate::items::separated;
use crate::pieces::{role, timing};
use sot_expression::{Fail, Tokens, expect_keyword, expect_sign, is_keyword, is_sign, name};
use sot_syntax_tree::{BoxDecl, Ident, Lit, ModuleDecl};
use std::alloc::Global;

#[tactic(auto, unfolding(crate::specs::DeclarationReaders::box_at))]
fn one_box(alloc: Global, tokens: &mut Tokens<'_>) -> Result<BoxDecl, Fail>
    ensures { Gives area_view result tokens.old tokens.new (box_at tokens.old.tokens) }
{
    let at = expect_sign(tokens, b"[")?;
    let sides = separated(alloc, tokens, b",")?;
    expect_sign(tokens, b"]")?;
    Ok(BoxDecl { sides, at })
}

#[tactic(auto, unfolding(crate::specs::ListReaders::further_at))]
fn further_box(alloc: Global, tokens: &mut Tokens<'_>) -> Result<BoxDecl, Fail>
    ensures { Gives area_view result tokens.old tokens.new
        (further_at (codes "|") box_at tokens.old.tokens) }
{
    expect_sign(tokens, b"|")?;
    one_box(alloc, tokens)
}

fn boxes(alloc: Global, tokens: &mut Tokens<'_>) -> Result<Vec<BoxDecl>, Fail>
    ensures { Gives (λ boxes. map area_view boxes.items) result tokens.old tokens.new
        (separated_at (codes "|") box_at tokens.old.tokens) }
{
    let first = one_box(alloc, tokens)?;
    let mut boxes = Vec::new(alloc);
    boxes.push(first)?;
    while is_sign(tokens, b"|") {
        let next = further_box(alloc, tokens)?;
        boxes.push(next)?;
    }
    Ok(boxes)
}

#[tactic(auto, unfolding(crate::specs::DeclarationReaders::no_box_at))]
fn no_box(alloc: Global, tokens: &mut Tokens<'_>) -> Result<Vec<BoxDecl>, Fail>
    ensures { Gives (λ boxes. map area_view boxes.items) result tokens.old tokens.new
        (no_box_at tokens.old.tokens) }
{
    expect_keyword(tokens, b"none")?;
    Ok(Vec::new(alloc))
}

#[tactic(auto, unfolding(crate::specs::DeclarationReaders::region_at))]
fn region(alloc: Global, tokens: &mut Tokens<'_>) -> Result<Vec<BoxDecl>, Fail>
    ensures { Gives (λ boxes. map area_view boxes.items) result tokens.old tokens.new
        (region_at tokens.old.tokens) }
{
    if is_keyword(tokens, b"none") {
        no_box(alloc, tokens)
    } else {
        boxes(alloc, tokens)
    }
}

#[tactic(auto, unfolding(crate::specs::DeclarationReaders::bound_at))]
fn bound(alloc: Global, tokens: &mut Tokens<'_>, word: &[u8]) -> Result<Vec<BoxDecl>, Fail>
    ensures { Gives (λ boxes. map area_view boxes.items) result tokens.old tokens.new
        (bound_at word.now tokens.old.tokens) }
{
    expect_keyword(tokens, word)?;
    let region = region(alloc, tokens)?;
    expect_sign(tokens, b";")?;
    Ok(region)
}

// The two nodes of a module, the period and the offset of its decisions, and its plant.
#[tactic(auto, unfolding(crate::specs::DeclarationReaders::pairing_at))]
fn pairing(alloc: Global, tokens: &mut Tokens<'_>) -> Result<(Ident, Ident, Lit, Lit, Ident), Fail>
    ensures { Gives (λ pairing. pairing) result tokens.old tokens.new
        (pairing_at tokens.old.tokens) }
{
    let ac = HeldPart(role(alloc, tokens, b"ac")?);
    let sc = HeldPart(role(alloc, tokens, b"sc")?);
    let (period, offset) = timing(tokens)?;
    expect_sign(tokens, b";")?;
    let plant = role(alloc, tokens, b"plant")?;
    Ok((ac.take(), sc.take(), period, offset, plant))
}

// The safe and the safer region.
#[tactic(auto, unfolding(crate::specs::DeclarationReaders::bounds_at))]
fn bounds(alloc: Global, tokens: &mut Tokens<'_>) -> Result<(Vec<BoxDecl>, Vec<BoxDecl>), Fail>
    ensures { Gives (λ bounds. (map area_view bounds.0.items, map area_view bounds.1.items)) result
        tokens.old tokens.new (bounds_at tokens.old.tokens) }
{
    let safe = bound(alloc, tokens, b"safe")?;
    let safer = bound(alloc, tokens, b"safer")?;
    Ok((safe, safer))
}

/// A module.
#[tactic(auto, unfolding(crate::specs::DeclarationReaders::module_at))]
pub fn mission_module(alloc: Global, tokens: &mut Tokens<'_>) -> Result<ModuleDecl, Fail>
    ensures { Gives module_view result tokens.old tokens.new (module_at tokens.old.tokens) }
{
    expect_keyword(tokens, b"module")?;
    let name = HeldPart(name(alloc, tokens)?);
    expect_sign(tokens, b"{")?;
    let pairing = HeldPart(pairing(alloc, tokens)?);
    let (safe, safer) = bounds(alloc, tokens)?;
    expect_sign(tokens, b"}")?;
    let (ac, sc, period, offset, plant) = pairing.take();
    Ok(ModuleDecl {
        name: name.take(),
        ac,
        sc,
        period,
        offset,
        plant,
        safe,
        safer,
    })
}
