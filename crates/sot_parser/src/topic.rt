//! Topics. Each call that hands a part on copies it, so what most topics have is read inline.
ghost use Rattle.std.specs.Prelude.{◌≡◌, codes};
ghost use Rattle.sot_syntax_tree.specs.TreeViews.{shape_view, init_view, topic_view};
ghost use Rattle.sot_expression.specs.Lexemes.{begins, is_sign, is_keyword};
ghost use Rattle.sot_parser.specs.DeclarationReaders.{fields_at, one_scalar_at, shape_at};
ghost use Rattle.sot_parser.specs.DeclarationReaders.{consts_at, one_const_at, init_at};
ghost use Rattle.sot_parser.specs.DeclarationReaders.{environment_at, outside_at, topic_at};
ghost use Rattle.sot_expression.specs.Returned.{Gives};

use crate::held::HeldPart;
use crate::items::separated;
use crate::pieces::{constant, scalar};
use sot_expression::{Fail, Tokens, expect_keyword, expect_sign, is_keyword, is_sign, name};
use sot_syntax_tree::{Init, Shape, TopicDecl};
use std::alloc::Global;

#[inline(never)]
#[tactic(auto, unfolding(crate::specs::DeclarationReaders::fields_at))]
fn fields(alloc: Global, tokens: &mut Tokens<'_>) -> Result<Shape, Fail>
    ensures { Gives shape_view result tokens.old tokens.new (fields_at tokens.old.tokens) }
{
    expect_sign(tokens, b"{")?;
    let fields = separated(alloc, tokens, b",")?;
    expect_sign(tokens, b"}")?;
    Ok(Shape::Fields(fields))
}

#[inline(always)]
#[tactic(auto, unfolding(crate::specs::DeclarationReaders::one_scalar_at))]
fn one_scalar(tokens: &mut Tokens<'_>) -> Result<Shape, Fail>
    ensures { Gives shape_view result tokens.old tokens.new (one_scalar_at tokens.old.tokens) }
{
    let scalar = scalar(tokens)?;
    Ok(Shape::One(scalar))
}

#[inline(always)]
#[tactic(auto, unfolding(crate::specs::DeclarationReaders::shape_at))]
fn shape(alloc: Global, tokens: &mut Tokens<'_>) -> Result<Shape, Fail>
    ensures { Gives shape_view result tokens.old tokens.new (shape_at tokens.old.tokens) }
{
    if is_sign(tokens, b"{") {
        fields(alloc, tokens)
    } else {
        one_scalar(tokens)
    }
}

#[inline(never)]
#[tactic(auto, unfolding(crate::specs::DeclarationReaders::consts_at))]
fn constants(alloc: Global, tokens: &mut Tokens<'_>) -> Result<Init, Fail>
    ensures { Gives init_view result tokens.old tokens.new (consts_at tokens.old.tokens) }
{
    let at = expect_sign(tokens, b"{")?;
    let items = separated(alloc, tokens, b",")?;
    expect_sign(tokens, b"}")?;
    Ok(Init::Fields { items, at })
}

#[inline(always)]
#[tactic(auto, unfolding(crate::specs::DeclarationReaders::one_const_at))]
fn one_constant(tokens: &mut Tokens<'_>) -> Result<Init, Fail>
    ensures { Gives init_view result tokens.old tokens.new (one_const_at tokens.old.tokens) }
{
    let value = constant(tokens)?;
    Ok(Init::One(value))
}

#[inline(always)]
#[tactic(auto, unfolding(crate::specs::DeclarationReaders::init_at))]
fn init(alloc: Global, tokens: &mut Tokens<'_>) -> Result<Init, Fail>
    ensures { Gives init_view result tokens.old tokens.new (init_at tokens.old.tokens) }
{
    if is_sign(tokens, b"{") {
        constants(alloc, tokens)
    } else {
        one_constant(tokens)
    }
}

#[inline(never)]
#[tactic(auto, unfolding(crate::specs::DeclarationReaders::environment_at))]
fn environment(tokens: &mut Tokens<'_>) -> Result<bool, Fail>
    ensures { Gives (λ outside. outside) result tokens.old tokens.new
        (environment_at tokens.old.tokens) }
{
    expect_keyword(tokens, b"environment")?;
    Ok(true)
}

#[tactic(auto, unfolding(crate::specs::DeclarationReaders::outside_at))]
fn outside(tokens: &mut Tokens<'_>) -> Result<bool, Fail>
    ensures { Gives (λ outside. outside) result tokens.old tokens.new
        (outside_at tokens.old.tokens) }
{
    if is_keyword(tokens, b"environment") {
        environment(tokens)
    } else {
        Ok(false)
    }
}

/// A topic.
#[tactic(auto, unfolding(crate::specs::DeclarationReaders::topic_at))]
pub fn topic(alloc: Global, tokens: &mut Tokens<'_>) -> Result<TopicDecl, Fail>
    ensures { Gives topic_view result tokens.old tokens.new (topic_at tokens.old.tokens) }
{
    let outside = outside(tokens)?;
    expect_keyword(tokens, b"topic")?;
    let name = HeldPart(name(alloc, tokens)?);
    expect_sign(tokens, b":")?;
    let shape = HeldPart(shape(alloc, tokens)?);
    expect_sign(tokens, b"=")?;
    let init = HeldPart(init(alloc, tokens)?);
    expect_sign(tokens, b";")?;
    Ok(TopicDecl {
        outside,
        name: name.take(),
        shape: shape.take(),
        init: init.take(),
    })
}
