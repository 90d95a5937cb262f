//! A formula from its tokens: a function for each production.

ghost use Rattle.std.specs.Prelude.{◌≡◌, ◌-◌, ◌≤◌, suc};
ghost use Rattle.sot_text.specs.Reading.{lexeme};
ghost use Rattle.sot_expression.specs.Returned.{Gives};
ghost use Rattle.sot_formula.specs.Reading.{name_token, any_token, comparing_at, comparison_at};
ghost use Rattle.sot_formula.specs.Reading.{reference_at, behind_reference_at, other_at, alone_at};
ghost use Rattle.sot_formula.specs.Reading.{paired_at, tail_at};
ghost use Rattle.sot_formula.specs.Reading.{are_ticks, ticks_of, ticks_at, single_at, double_at};
ghost use Rattle.sot_formula.specs.Reading.{joined_at, more_at, row_at};
ghost use Rattle.sot_formula.specs.Reading.{within_at, mode_at, mode_compared_at, part_at};
ghost use Rattle.sot_formula.specs.Reading.{named_at, called_at, behind_name_at, opened_at};
ghost use Rattle.sot_formula.specs.Reading.{formula_at};

use crate::finding::{FoundQuantity, module_named, part_named, plain_named};
use crate::laid::{Laid, against, compared, paired, put};
use crate::quantity::{Comparison, Pairing};
use crate::what::What;
use crate::words::{
    Double, FormulaOpening, Single, Word, comparing, double_what, further_parts, is_mode,
    name_comes, next_opening, pairing, single_what, word_of,
};
use sot_expression::{Fail, Tokens, expect_sign, is_sign, literal, number};
use sot_lang::Typed;
use sot_syntax_tree::Lit;
use sot_text::{Kind, Token};

// The next token, whatever it is.
fn any_token<'a>(tokens: &mut Tokens<'a>) -> Result<Token<'a>, Fail>
    ensures { Gives lexeme result tokens.old tokens.new (any_token tokens.old.tokens) }
{
    let Some(token) = tokens.peek() else {
        return Err(Fail::Token);
    };
    tokens.advance();
    Ok(token)
}

// The next token, if it is a name.
fn name_token<'a>(tokens: &mut Tokens<'a>) -> Result<Token<'a>, Fail>
    ensures { Gives lexeme result tokens.old tokens.new (name_token tokens.old.tokens) }
{
    let Some(token) = tokens.peek() else {
        return Err(Fail::Token);
    };
    match token.kind {
        Kind::Name => {
            tokens.advance();
            Ok(token)
        }
        _ => Err(Fail::Token),
    }
}

#[tactic(auto, unfolding(crate::specs::Reading::comparing_at))]
fn comparing_sign(tokens: &mut Tokens<'_>) -> Result<Comparison, Fail>
    ensures { Gives (λ by. by) result tokens.old tokens.new (comparing_at tokens.old.tokens) }
{
    let Some(by) = comparing(tokens) else {
        return Err(Fail::Token);
    };
    any_token(tokens)?;
    Ok(by)
}

fn are_ticks(number: Lit) -> bool
    ensures { result ≡ are_ticks number }
{
    number.scale == 0 && number.mantissa <= 100000
}

// A whole number of ticks, at most 100,000.
#[tactic(auto, unfolding(crate::specs::Reading::ticks_at))]
fn ticks(tokens: &mut Tokens<'_>) -> Result<u32, Fail>
    ensures { Gives (λ n. n) result tokens.old tokens.new (ticks_at tokens.old.tokens) }
{
    let number = number(tokens)?;
    if are_ticks(number) {
        Ok(number.mantissa.unsigned_abs() as u32)
    } else {
        Err(Fail::Token)
    }
}

// A module in parentheses.
#[tactic(auto, unfolding(crate::specs::Reading::mode_at))]
fn mode(p: &Typed, tokens: &mut Tokens<'_>) -> Result<Option<FoundQuantity>, Fail>
    ensures { Gives (λ found. found) result tokens.old tokens.new
        (mode_at p.now tokens.old.tokens) }
{
    expect_sign(tokens, b"(")?;
    let name = name_token(tokens)?;
    expect_sign(tokens, b")")?;
    Ok(module_named(p, name.text))
}

// A point and a name behind a name.
#[tactic(auto, unfolding(crate::specs::Reading::part_at))]
fn part(p: &Typed, tokens: &mut Tokens<'_>, name: Token<'_>) -> Result<Option<FoundQuantity>, Fail>
    ensures { Gives (λ found. found) result tokens.old tokens.new
        (part_at p.now (lexeme name.entry) tokens.old.tokens) }
{
    expect_sign(tokens, b".")?;
    let part = name_token(tokens)?;
    Ok(part_named(p, name.text, part.text))
}

// What stands behind the first name of a reference.
#[tactic(auto, unfolding(crate::specs::Reading::behind_reference_at))]
fn behind_reference(
    p: &Typed,
    tokens: &mut Tokens<'_>,
    name: Token<'_>,
) -> Result<Option<FoundQuantity>, Fail>
    ensures { Gives (λ found. found) result tokens.old tokens.new
        (behind_reference_at p.now (lexeme name.entry) tokens.old.tokens) }
{
    if is_sign(tokens, b"(") {
        if is_mode(name.text) {
            mode(p, tokens)
        } else {
            Err(Fail::Token)
        }
    } else if is_sign(tokens, b".") {
        part(p, tokens, name)
    } else {
        Ok(plain_named(p, name.text))
    }
}

#[tactic(auto, unfolding(crate::specs::Reading::reference_at))]
fn reference(p: &Typed, tokens: &mut Tokens<'_>) -> Result<Option<FoundQuantity>, Fail>
    ensures { Gives (λ found. found) result tokens.old tokens.new
        (reference_at p.now tokens.old.tokens) }
{
    let name = name_token(tokens)?;
    behind_reference(p, tokens, name)
}

// A reference or a literal behind the sign of a comparison.
#[tactic(auto, unfolding(crate::specs::Reading::other_at))]
fn other(
    p: &Typed,
    tokens: &mut Tokens<'_>,
    laid: Laid,
    found: Option<FoundQuantity>,
    by: Comparison,
) -> Result<Laid, Fail>
    ensures { Gives (λ s. s) result tokens.old tokens.new
        (other_at p.now found by laid tokens.old.tokens) }
{
    if name_comes(tokens) {
        let other = reference(p, tokens)?;
        let more = against(laid, found, by, other)?;
        Ok(more)
    } else {
        let literal = literal(tokens)?;
        let more = compared(laid, found, by, literal)?;
        Ok(more)
    }
}

// The sign behind a reference that stands alone, and what it is compared with.
#[tactic(auto, unfolding(crate::specs::Reading::alone_at))]
fn alone(
    p: &Typed,
    tokens: &mut Tokens<'_>,
    laid: Laid,
    found: Option<FoundQuantity>,
) -> Result<Laid, Fail>
    ensures { Gives (λ s. s) result tokens.old tokens.new
        (alone_at p.now found laid tokens.old.tokens) }
{
    let by = comparing_sign(tokens)?;
    other(p, tokens, laid, found, by)
}

// The sign of a sum or difference behind a reference, another one, and a literal.
#[tactic(auto, unfolding(crate::specs::Reading::paired_at))]
fn pair(
    p: &Typed,
    tokens: &mut Tokens<'_>,
    laid: Laid,
    found: Option<FoundQuantity>,
    pairing: Pairing,
) -> Result<Laid, Fail>
    ensures { Gives (λ s. s) result tokens.old tokens.new
        (paired_at p.now found pairing laid tokens.old.tokens) }
{
    any_token(tokens)?;
    let other = reference(p, tokens)?;
    let by = comparing_sign(tokens)?;
    let literal = literal(tokens)?;
    let more = paired(laid, found, pairing, other, by, literal)?;
    Ok(more)
}

// What stands behind a reference, where this sign of a sum or difference comes, or none.
#[tactic(auto, unfolding(crate::specs::Reading::tail_at))]
fn tail(
    p: &Typed,
    tokens: &mut Tokens<'_>,
    laid: Laid,
    found: Option<FoundQuantity>,
    next: Option<Pairing>,
) -> Result<Laid, Fail>
    ensures { Gives (λ s. s) result tokens.old tokens.new
        (tail_at p.now found next laid tokens.old.tokens) }
{
    match next {
        Some(pairing) => pair(p, tokens, laid, found, pairing),
        None => alone(p, tokens, laid, found),
    }
}

// What a reference is compared with, or taken together with and then compared.
#[tactic(auto, unfolding(crate::specs::Reading::comparison_at))]
fn comparison(
    p: &Typed,
    tokens: &mut Tokens<'_>,
    laid: Laid,
    found: Option<FoundQuantity>,
) -> Result<Laid, Fail>
    ensures { Gives (λ s. s) result tokens.old tokens.new
        (comparison_at p.now found laid tokens.old.tokens) }
{
    let next = pairing(tokens);
    tail(p, tokens, laid, found, next)
}

#[tactic(auto, unfolding(crate::specs::Reading::mode_compared_at))]
fn mode_compared(p: &Typed, tokens: &mut Tokens<'_>, laid: Laid) -> Result<Laid, Fail>
    ensures { Gives (λ s. s) result tokens.old tokens.new
        (mode_compared_at p.now laid tokens.old.tokens) }
{
    let found = mode(p, tokens)?;
    comparison(p, tokens, laid, found)
}

// A comparison whose reference begins with this name.
#[tactic(auto, unfolding(crate::specs::Reading::named_at))]
fn named(p: &Typed, tokens: &mut Tokens<'_>, laid: Laid, name: Token<'_>) -> Result<Laid, Fail>
    ensures { Gives (λ s. s) result tokens.old tokens.new
        (named_at p.now (lexeme name.entry) laid tokens.old.tokens) }
{
    if is_sign(tokens, b".") {
        let found = part(p, tokens, name)?;
        comparison(p, tokens, laid, found)
    } else {
        comparison(p, tokens, laid, plain_named(p, name.text))
    }
}

// A part in parentheses.
#[cycle(formula)]
#[tactic(auto, unfolding(crate::specs::Reading::single_at))]
fn single(
    p: &Typed,
    tokens: &mut Tokens<'_>,
    laid: Laid,
    room: u32,
    word: Single,
) -> Result<Laid, Fail>
    ensures { Gives (λ s. s) result tokens.old tokens.new
        (single_at word (formula_at p.now room) laid tokens.old.tokens) }
{
    expect_sign(tokens, b"(")?;
    let first = formula(p, tokens, laid, room)?;
    expect_sign(tokens, b")")?;
    let what = single_what(word, first.place());
    let more = put(first, what)?;
    Ok(more)
}

// A comma and a part, joined with the last one.
#[cycle(formula)]
#[tactic(auto, unfolding(crate::specs::Reading::joined_at))]
fn joined(
    p: &Typed,
    tokens: &mut Tokens<'_>,
    laid: Laid,
    room: u32,
    word: Double,
) -> Result<Laid, Fail>
    ensures { Gives (λ s. s) result tokens.old tokens.new
        (joined_at word (formula_at p.now room) laid tokens.old.tokens) }
{
    let place = laid.place();
    expect_sign(tokens, b",")?;
    let second = formula(p, tokens, laid, room)?;
    let what = double_what(word, place, second.place());
    let both = put(second, what)?;
    Ok(both)
}

// A comma and a part if they come, and at most so many behind them.
#[cycle(formula)]
#[tactic(auto, unfolding(crate::specs::Reading::more_at))]
fn one_more(
    p: &Typed,
    tokens: &mut Tokens<'_>,
    laid: Laid,
    room: u32,
    word: Double,
    behind: u32,
) -> Result<Laid, Fail>
    requires few { behind ≤ 61 }
    ensures { Gives (λ s. s) result tokens.old tokens.new
        (more_at word (formula_at p.now room) (suc behind) laid tokens.old.tokens) }
{
    if is_sign(tokens, b",") {
        let both = joined(p, tokens, laid, room, word)?;
        more(p, tokens, both, room, word, behind)
    } else {
        Ok(laid)
    }
}

// At most so many parts more.
#[cycle(formula)]
fn more(
    p: &Typed,
    tokens: &mut Tokens<'_>,
    laid: Laid,
    room: u32,
    word: Double,
    count: u32,
) -> Result<Laid, Fail>
    requires few { count ≤ 62 }
    ensures { Gives (λ s. s) result tokens.old tokens.new
        (more_at word (formula_at p.now room) count laid tokens.old.tokens) }
{
    if count == 0 {
        return Ok(laid);
    }
    one_more(p, tokens, laid, room, word, count - 1)
}

// Two parts at least.
#[cycle(formula)]
#[tactic(auto, unfolding(crate::specs::Reading::row_at))]
fn row(
    p: &Typed,
    tokens: &mut Tokens<'_>,
    laid: Laid,
    room: u32,
    word: Double,
) -> Result<Laid, Fail>
    ensures { Gives (λ s. s) result tokens.old tokens.new
        (row_at word (formula_at p.now room) laid tokens.old.tokens) }
{
    let first = formula(p, tokens, laid, room)?;
    let both = joined(p, tokens, first, room, word)?;
    more(p, tokens, both, room, word, further_parts(word))
}

// A row in parentheses.
#[cycle(formula)]
#[tactic(auto, unfolding(crate::specs::Reading::double_at))]
fn double(
    p: &Typed,
    tokens: &mut Tokens<'_>,
    laid: Laid,
    room: u32,
    word: Double,
) -> Result<Laid, Fail>
    ensures { Gives (λ s. s) result tokens.old tokens.new
        (double_at word (formula_at p.now room) laid tokens.old.tokens) }
{
    expect_sign(tokens, b"(")?;
    let all = row(p, tokens, laid, room, word)?;
    expect_sign(tokens, b")")?;
    Ok(all)
}

// Ticks and a part in parentheses.
#[cycle(formula)]
#[tactic(auto, unfolding(crate::specs::Reading::within_at))]
fn within(p: &Typed, tokens: &mut Tokens<'_>, laid: Laid, room: u32) -> Result<Laid, Fail>
    ensures { Gives (λ s. s) result tokens.old tokens.new
        (within_at (formula_at p.now room) laid tokens.old.tokens) }
{
    expect_sign(tokens, b"(")?;
    let ticks = ticks(tokens)?;
    expect_sign(tokens, b",")?;
    let first = formula(p, tokens, laid, room)?;
    expect_sign(tokens, b")")?;
    let what = What::Within {
        ticks,
        of: first.place(),
    };
    let more = put(first, what)?;
    Ok(more)
}

// What stands in parentheses behind a name.
#[cycle(formula)]
#[tactic(auto, unfolding(crate::specs::Reading::called_at))]
fn called(
    p: &Typed,
    tokens: &mut Tokens<'_>,
    laid: Laid,
    room: u32,
    word: Word,
) -> Result<Laid, Fail>
    ensures { Gives (λ s. s) result tokens.old tokens.new
        (called_at p.now (formula_at p.now room) word laid tokens.old.tokens) }
{
    match word {
        Word::Single(o) => single(p, tokens, laid, room, o),
        Word::Double(o) => double(p, tokens, laid, room, o),
        Word::Within => within(p, tokens, laid, room),
        Word::Mode => mode_compared(p, tokens, laid),
        Word::Other => Err(Fail::Token),
    }
}

// What stands behind a name.
#[cycle(formula)]
#[tactic(auto, unfolding(crate::specs::Reading::behind_name_at))]
fn behind_name(
    p: &Typed,
    tokens: &mut Tokens<'_>,
    laid: Laid,
    room: u32,
    name: Token<'_>,
) -> Result<Laid, Fail>
    ensures { Gives (λ s. s) result tokens.old tokens.new
        (behind_name_at p.now (formula_at p.now room) (lexeme name.entry) laid
        tokens.old.tokens) }
{
    if is_sign(tokens, b"(") {
        called(p, tokens, laid, room, word_of(name.text))
    } else {
        named(p, tokens, laid, name)
    }
}

// A formula that begins so, whose parts have so many levels at most.
#[cycle(formula)]
#[tactic(auto, unfolding(crate::specs::Reading::opened_at))]
fn opened(
    p: &Typed,
    tokens: &mut Tokens<'_>,
    laid: Laid,
    room: u32,
    opening: FormulaOpening,
) -> Result<Laid, Fail>
    ensures { Gives (λ s. s) result tokens.old tokens.new
        (opened_at p.now (formula_at p.now room) opening laid tokens.old.tokens) }
{
    match opening {
        FormulaOpening::Truth(value) => {
            any_token(tokens)?;
            let more = put(laid, What::Truth(value))?;
            Ok(more)
        }
        FormulaOpening::Single(o) => {
            any_token(tokens)?;
            single(p, tokens, laid, room, o)
        }
        FormulaOpening::Double(o) => {
            any_token(tokens)?;
            double(p, tokens, laid, room, o)
        }
        FormulaOpening::Name => {
            let name = name_token(tokens)?;
            behind_name(p, tokens, laid, room, name)
        }
        FormulaOpening::Other => Err(Fail::Token),
    }
}

/// A formula of at most so many levels, at the front of the tokens: its parts behind those that
/// were read before.
///
/// # Errors
///
/// `Token` where no formula goes on with the next token, `Deep` where it would nest deeper,
/// `Memory` where there is none.
#[cycle(formula)]
pub fn formula(p: &Typed, tokens: &mut Tokens<'_>, laid: Laid, room: u32) -> Result<Laid, Fail>
    ensures { Gives (λ s. s) result tokens.old tokens.new
        (formula_at p.now room laid tokens.old.tokens) }
{
    if room == 0 {
        return Err(Fail::Deep);
    }
    let opening = next_opening(tokens);
    opened(p, tokens, laid, room - 1, opening)
}
