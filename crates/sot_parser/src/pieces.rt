//! The small parts of declarations: ranges, types, constants, periods.
ghost use Rattle.std.specs.Prelude.{◌≡◌, ◌<◌, length, IfOk, codes};
ghost use Rattle.sot_expression.specs.Lexemes.{begins, is_sign, is_keyword};
ghost use Rattle.sot_expression.specs.Readers.{literal_at};
ghost use Rattle.sot_parser.specs.DeclarationReaders.{side_at, range_at, fix_at, int_scalar_at};
ghost use Rattle.sot_parser.specs.DeclarationReaders.{fix_scalar_at, bool_scalar_at, scalar_at};
ghost use Rattle.sot_parser.specs.DeclarationReaders.{named_scalar_at, truth_at, number_const_at};
ghost use Rattle.sot_parser.specs.DeclarationReaders.{const_at, whole_at, scaled_at, scale_at};
ghost use Rattle.sot_parser.specs.DeclarationReaders.{state_at, timing_at, role_at};
ghost use Rattle.sot_expression.specs.Returned.{Gives};

use crate::held::HeldPart;
use crate::items::Item;
use sot_expression::{
    Fail, Tokens, expect_keyword, expect_sign, is_keyword, literal, name, number,
};
use sot_syntax_tree::{Bounds, Const, Field, Ident, Lit, Scalar, StateDecl};
use std::alloc::Global;

#[tactic(auto, unfolding(crate::specs::DeclarationReaders::side_at))]
fn side(tokens: &mut Tokens<'_>) -> Result<Bounds, Fail>
    ensures { Gives (λ side. side) result tokens.old tokens.new (side_at tokens.old.tokens) }
{
    let lo = literal(tokens)?;
    expect_sign(tokens, b"..")?;
    let hi = literal(tokens)?;
    Ok(Bounds { lo, hi })
}

impl Item for Bounds {
    ghost reads = { side_at };

    #[tactic(auto, using(crate::proofs::Shorter::side_result))]
    fn read(_alloc: Global, tokens: &mut Tokens<'_>) -> Result<Bounds, Fail> {
        side(tokens)
    }
}

#[inline(always)]
#[tactic(auto, unfolding(crate::specs::DeclarationReaders::range_at))]
fn range(tokens: &mut Tokens<'_>) -> Result<Bounds, Fail>
    ensures { Gives (λ range. range) result tokens.old tokens.new (range_at tokens.old.tokens) }
{
    expect_sign(tokens, b"[")?;
    let range = side(tokens)?;
    expect_sign(tokens, b"]")?;
    Ok(range)
}

#[tactic(auto, unfolding(crate::specs::DeclarationReaders::fix_at))]
fn fix(tokens: &mut Tokens<'_>) -> Result<Lit, Fail>
    ensures { Gives (λ scale. scale) result tokens.old tokens.new (fix_at tokens.old.tokens) }
{
    expect_keyword(tokens, b"fix")?;
    expect_sign(tokens, b"(")?;
    let scale = number(tokens)?;
    expect_sign(tokens, b")")?;
    Ok(scale)
}

#[inline(always)]
#[tactic(auto, unfolding(crate::specs::DeclarationReaders::int_scalar_at))]
fn int_scalar(tokens: &mut Tokens<'_>) -> Result<Scalar, Fail>
    ensures { Gives (λ scalar. scalar) result tokens.old tokens.new
        (int_scalar_at tokens.old.tokens) }
{
    expect_keyword(tokens, b"int")?;
    let bounds = range(tokens)?;
    Ok(Scalar::Int(bounds))
}

#[inline(never)]
#[tactic(auto, unfolding(crate::specs::DeclarationReaders::fix_scalar_at))]
fn fix_scalar(tokens: &mut Tokens<'_>) -> Result<Scalar, Fail>
    ensures { Gives (λ scalar. scalar) result tokens.old tokens.new
        (fix_scalar_at tokens.old.tokens) }
{
    let scale = fix(tokens)?;
    let bounds = range(tokens)?;
    Ok(Scalar::Fix { scale, bounds })
}

#[tactic(auto, unfolding(crate::specs::DeclarationReaders::bool_scalar_at))]
fn bool_scalar(tokens: &mut Tokens<'_>) -> Result<Scalar, Fail>
    ensures { Gives (λ scalar. scalar) result tokens.old tokens.new
        (bool_scalar_at tokens.old.tokens) }
{
    let at = expect_keyword(tokens, b"bool")?;
    Ok(Scalar::Bool { at })
}

/// The type of one number or truth value.
#[tactic(auto, unfolding(crate::specs::DeclarationReaders::scalar_at))]
pub fn scalar(tokens: &mut Tokens<'_>) -> Result<Scalar, Fail>
    ensures { Gives (λ scalar. scalar) result tokens.old tokens.new (scalar_at tokens.old.tokens) }
{
    if is_keyword(tokens, b"int") {
        int_scalar(tokens)
    } else if is_keyword(tokens, b"fix") {
        fix_scalar(tokens)
    } else {
        bool_scalar(tokens)
    }
}

#[tactic(auto, unfolding(crate::specs::DeclarationReaders::named_scalar_at))]
fn named_scalar(alloc: Global, tokens: &mut Tokens<'_>) -> Result<Field, Fail>
    ensures { Gives (λ field. field) result tokens.old tokens.new
        (named_scalar_at tokens.old.tokens) }
{
    let name = HeldPart(name(alloc, tokens)?);
    expect_sign(tokens, b":")?;
    let scalar = scalar(tokens)?;
    Ok(Field {
        name: name.take(),
        scalar,
    })
}

impl Item for Field {
    ghost reads = { named_scalar_at };

    #[tactic(auto, using(crate::proofs::Shorter::named_scalar_result))]
    fn read(alloc: Global, tokens: &mut Tokens<'_>) -> Result<Field, Fail> {
        named_scalar(alloc, tokens)
    }
}

#[tactic(auto, unfolding(crate::specs::DeclarationReaders::truth_at))]
fn truth(tokens: &mut Tokens<'_>, value: bool, word: &[u8]) -> Result<Const, Fail>
    ensures { Gives (λ truth. truth) result tokens.old tokens.new
        (truth_at value word.now tokens.old.tokens) }
{
    let at = expect_keyword(tokens, word)?;
    Ok(Const::Truth { value, at })
}

#[inline(always)]
#[tactic(auto, unfolding(crate::specs::DeclarationReaders::number_const_at))]
fn number_const(tokens: &mut Tokens<'_>) -> Result<Const, Fail>
    ensures { Gives (λ number. number) result tokens.old tokens.new
        (number_const_at tokens.old.tokens) }
{
    let number = literal(tokens)?;
    Ok(Const::Number(number))
}

/// A literal or a truth value.
#[tactic(auto, unfolding(crate::specs::DeclarationReaders::const_at))]
pub fn constant(tokens: &mut Tokens<'_>) -> Result<Const, Fail>
    ensures { Gives (λ constant. constant) result tokens.old tokens.new
        (const_at tokens.old.tokens) }
{
    if is_keyword(tokens, b"true") {
        truth(tokens, true, b"true")
    } else if is_keyword(tokens, b"false") {
        truth(tokens, false, b"false")
    } else {
        number_const(tokens)
    }
}

impl Item for Const {
    ghost reads = { const_at };

    #[tactic(auto, using(crate::proofs::Shorter::const_result))]
    fn read(_alloc: Global, tokens: &mut Tokens<'_>) -> Result<Const, Fail> {
        constant(tokens)
    }
}

#[tactic(auto, unfolding(crate::specs::DeclarationReaders::whole_at))]
fn whole(tokens: &mut Tokens<'_>) -> Result<Option<Lit>, Fail>
    ensures { Gives (λ scale. scale) result tokens.old tokens.new (whole_at tokens.old.tokens) }
{
    expect_keyword(tokens, b"int")?;
    Ok(None)
}

#[tactic(auto, unfolding(crate::specs::DeclarationReaders::scaled_at))]
fn scaled(tokens: &mut Tokens<'_>) -> Result<Option<Lit>, Fail>
    ensures { Gives (λ scale. scale) result tokens.old tokens.new (scaled_at tokens.old.tokens) }
{
    let scale = fix(tokens)?;
    Ok(Some(scale))
}

#[tactic(auto, unfolding(crate::specs::DeclarationReaders::scale_at))]
fn scale(tokens: &mut Tokens<'_>) -> Result<Option<Lit>, Fail>
    ensures { Gives (λ scale. scale) result tokens.old tokens.new (scale_at tokens.old.tokens) }
{
    if is_keyword(tokens, b"int") {
        whole(tokens)
    } else {
        scaled(tokens)
    }
}

#[tactic(auto, unfolding(crate::specs::DeclarationReaders::state_at))]
fn state(alloc: Global, tokens: &mut Tokens<'_>) -> Result<StateDecl, Fail>
    ensures { Gives (λ state. state) result tokens.old tokens.new (state_at tokens.old.tokens) }
{
    let name = HeldPart(name(alloc, tokens)?);
    expect_sign(tokens, b":")?;
    let scale = scale(tokens)?;
    Ok(StateDecl {
        name: name.take(),
        scale,
    })
}

impl Item for StateDecl {
    ghost reads = { state_at };

    #[tactic(auto, using(crate::proofs::Shorter::state_result))]
    fn read(alloc: Global, tokens: &mut Tokens<'_>) -> Result<StateDecl, Fail> {
        state(alloc, tokens)
    }
}

/// A period and an offset.
#[tactic(auto, unfolding(crate::specs::DeclarationReaders::timing_at))]
pub fn timing(tokens: &mut Tokens<'_>) -> Result<(Lit, Lit), Fail>
    ensures { Gives (λ timing. timing) result tokens.old tokens.new (timing_at tokens.old.tokens) }
{
    expect_keyword(tokens, b"period")?;
    let period = number(tokens)?;
    expect_keyword(tokens, b"offset")?;
    let offset = number(tokens)?;
    Ok((period, offset))
}

/// A name behind a keyword.
#[tactic(auto, unfolding(crate::specs::DeclarationReaders::role_at))]
pub fn role(alloc: Global, tokens: &mut Tokens<'_>, word: &[u8]) -> Result<Ident, Fail>
    ensures { Gives (λ name. name) result tokens.old tokens.new
        (role_at word.now tokens.old.tokens) }
{
    expect_keyword(tokens, word)?;
    let name = HeldPart(name(alloc, tokens)?);
    expect_sign(tokens, b";")?;
    Ok(name.take())
}
