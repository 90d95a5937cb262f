//! The productions of expressions, one function for each. Each call that hands a part on copies it,
//! so what most expressions pass is inline, and the rarer forms stand apart.
ghost use Rattle.std.specs.Prelude.{◌≡◌, ◌<◌, ◌≤◌, ◌-◌, IfOk, true, false};
ghost use Rattle.sot_text.specs.Reading.{lexeme};
ghost use Rattle.sot_expression.specs.ExpressionReaders.{any_token, operation_at, remainder_at};
ghost use Rattle.sot_expression.specs.ExpressionReaders.{joined_at, number_part, truth_part};
ghost use Rattle.sot_expression.specs.ExpressionReaders.{field_at, named_at, group_at, opened_at};
ghost use Rattle.sot_expression.specs.ExpressionReaders.{further_at, abs_at, pair_at, limits_at};
ghost use Rattle.sot_expression.specs.ExpressionReaders.{clamp_at, target_at, rescale_at, atom_at};
ghost use Rattle.sot_expression.specs.ExpressionReaders.{begins_unary, minus_at, unary_at};
ghost use Rattle.sot_expression.specs.ExpressionReaders.{denied_at, chosen_at, within, part_at};
ghost use Rattle.sot_expression.specs.ExpressionReaders.{expression_at, tree_at};
ghost use Rattle.sot_syntax_tree.specs.TreeViews.{tree_view};
ghost use Rattle.sot_expression.specs.Parts.{part_view, Fits, below, inner, around, climbed};
ghost use Rattle.sot_expression.specs.Parts.{onward, turned, plain_at, not_at};
ghost use Rattle.sot_expression.specs.Returned.{Gives};

use crate::fail::Fail;
use crate::leaves::{
    expect_keyword, expect_sign, is_keyword, is_number, is_sign, name, negated_number, number,
};
use crate::nodes;
use crate::operators::{Infix, Opening, opening_at, operator_at, tier_of};
use crate::part::Part;
use crate::tokens::Tokens;
use sot_syntax_tree::{Apart, Expr, Func, Ident, Lit, Member, Op};
use sot_text::Token;
use std::alloc::Global;

// The next token, whatever it is.
fn any_token<'a>(tokens: &mut Tokens<'a>) -> Result<Token<'a>, Fail>
    ensures { Gives lexeme result tokens.old tokens.new (any_token tokens.old.tokens) }
{
    let Some(token) = tokens.peek() else {
        return Err(Fail::Token);
    };
    tokens.advance();
    Ok(token)
}

#[inline(always)]
fn leaf(tree: Expr) -> Part
    ensures tree { result.tree ≡ tree }
    ensures levels { result.levels ≡ 1 }
    ensures bare { result.bare ≡ false }
{
    Part {
        tree,
        levels: 1,
        bare: false,
    }
}

#[inline(always)]
fn over(tree: Expr, levels: u32) -> Part
    ensures tree { result.tree ≡ tree }
    ensures levels { result.levels ≡ levels }
    ensures bare { result.bare ≡ false }
{
    Part {
        tree,
        levels,
        bare: false,
    }
}

#[inline(always)]
#[tactic(auto, unfolding(crate::specs::ExpressionReaders::number_part))]
fn number_part(tokens: &mut Tokens<'_>) -> Result<Part, Fail>
    ensures read { Gives part_view result tokens.old tokens.new (number_part tokens.old.tokens) }
    ensures leaf { IfOk result (λ p. (p.levels ≡ 1) × (p.bare ≡ false)) }
{
    let number = number(tokens)?;
    Ok(leaf(Expr::Number(number)))
}

#[inline(always)]
#[tactic(auto, unfolding(crate::specs::ExpressionReaders::truth_part))]
fn truth_part(tokens: &mut Tokens<'_>, value: bool) -> Result<Part, Fail>
    ensures read { Gives part_view result tokens.old tokens.new
        (truth_part value tokens.old.tokens) }
    ensures leaf { IfOk result (λ p. (p.levels ≡ 1) × (p.bare ≡ false)) }
{
    let token = any_token(tokens)?;
    Ok(leaf(Expr::Truth {
        value,
        at: token.at,
    }))
}

#[inline(never)]
#[tactic(auto, unfolding(crate::specs::ExpressionReaders::field_at))]
fn field(alloc: Global, tokens: &mut Tokens<'_>, first: Ident) -> Result<Part, Fail>
    ensures read { Gives part_view result tokens.old tokens.new (field_at first tokens.old.tokens) }
    ensures leaf { IfOk result (λ p. (p.levels ≡ 1) × (p.bare ≡ false)) }
{
    expect_sign(tokens, b".")?;
    let field = name(alloc, tokens)?;
    let member = Apart::new(alloc, Member { first, field })?;
    Ok(leaf(Expr::Member(member)))
}

// A name, or a field of what a name names.
#[inline(always)]
#[tactic(auto, unfolding(crate::specs::ExpressionReaders::named_at))]
fn named(alloc: Global, tokens: &mut Tokens<'_>) -> Result<Part, Fail>
    ensures read { Gives part_view result tokens.old tokens.new (named_at tokens.old.tokens) }
    ensures leaf { IfOk result (λ p. (p.levels ≡ 1) × (p.bare ≡ false)) }
{
    let first = name(alloc, tokens)?;
    if is_sign(tokens, b".") {
        field(alloc, tokens, first)
    } else {
        Ok(leaf(Expr::Name(first)))
    }
}

fn begins_unary(tokens: &Tokens<'_>) -> bool
    ensures { result ≡ begins_unary tokens.now.tokens }
{
    !matches!(opening_at(tokens), Opening::Other) || is_sign(tokens, b"-")
}

// Behind an operator of this tier, reading goes on above the tier that is given: no second
// comparison follows a first.
fn onward(tier: u8) -> u8
    requires { 1 ≤ tier }
    ensures { result ≡ onward tier }
{
    if tier == 3 { tier } else { tier - 1 }
}

// `%` and its number, behind a left part.
#[inline(never)]
#[tactic(auto, unfolding(crate::specs::ExpressionReaders::remainder_at))]
fn remainder(alloc: Global, tokens: &mut Tokens<'_>, room: u32, left: Part) -> Result<Part, Fail>
    requires room { room ≤ 64 }
    requires left { left.levels < room }
    ensures read { Gives part_view result tokens.old tokens.new
        (remainder_at (part_view left) tokens.old.tokens) }
    ensures fits { IfOk result (λ p. Fits room true p) }
    ensures deeper { IfOk result (λ p. left.levels < p.levels) }
{
    let at = any_token(tokens)?.at;
    let by = number(tokens)?;
    let levels = 1 + left.levels;
    let tree = nodes::rest(alloc, left, by, at)?;
    Ok(over(tree, levels))
}

// The scale that a call rescales to, and its end.
#[tactic(auto, unfolding(crate::specs::ExpressionReaders::target_at))]
fn target(tokens: &mut Tokens<'_>) -> Result<Lit, Fail>
    ensures { Gives (λ lit. lit) result tokens.old tokens.new (target_at tokens.old.tokens) }
{
    expect_sign(tokens, b",")?;
    let to = number(tokens)?;
    expect_sign(tokens, b")")?;
    Ok(to)
}

// A part of a tier, of at most `room` levels; `held` directly behind a parenthesis that groups.
#[cycle(expression)]
fn read(
    alloc: Global,
    tokens: &mut Tokens<'_>,
    room: u32,
    held: bool,
    tier: u8,
) -> Result<Part, Fail>
    requires room { (1 ≤ room) × (room ≤ 64) }
    requires tier { tier ≤ 7 }
    ensures read { Gives part_view result tokens.old tokens.new
        (part_at room held tier tokens.old.tokens) }
    ensures fits { IfOk result (λ p. Fits room held p) }
{
    if tier == 7 && is_keyword(tokens, b"if") {
        choice(alloc, tokens, room, held)
    } else if tier >= 4 && is_keyword(tokens, b"not") {
        denial(alloc, tokens, room, held, tier)
    } else {
        plain(alloc, tokens, room, held, tier)
    }
}

// A part that begins with an operand.
#[inline(always)]
#[cycle(expression)]
#[tactic(auto, unfolding(crate::specs::Parts::plain_at))]
fn plain(
    alloc: Global,
    tokens: &mut Tokens<'_>,
    room: u32,
    held: bool,
    tier: u8,
) -> Result<Part, Fail>
    requires room { (1 ≤ room) × (room ≤ 64) }
    requires tier { tier ≤ 7 }
    ensures read { Gives part_view result tokens.old tokens.new
        (plain_at room held tier tokens.old.tokens) }
    ensures fits { IfOk result (λ p. Fits room held p) }
{
    let left = unary(alloc, tokens, room, held)?;
    climb(alloc, tokens, room, held, 0, tier, left)
}

// The operators of the tiers above `from` up to `to`, behind a left part. The next token tells
// which tier is at work.
#[inline(always)]
#[cycle(expression)]
fn climb(
    alloc: Global,
    tokens: &mut Tokens<'_>,
    room: u32,
    held: bool,
    from: u8,
    to: u8,
    left: Part,
) -> Result<Part, Fail>
    requires room { (1 ≤ room) × (room ≤ 64) }
    requires tiers { (from ≤ to) × (to ≤ 7) }
    requires fits { Fits room held left }
    ensures read { Gives part_view result tokens.old tokens.new
        (climbed (to - from) room from (part_view left) tokens.old.tokens) }
    ensures fits { IfOk result (λ p. Fits room held p) }
{
    let Some(operator) = operator_at(tokens) else {
        return Ok(left);
    };
    let tier = tier_of(operator);
    if tier <= from || tier > to {
        return Ok(left);
    }
    if left.levels >= room {
        return Err(Fail::Deep);
    }
    turn(alloc, tokens, room, held, operator, tier, to, left)
}

// An operator of a tier, and those behind it.
#[inline(never)]
#[cycle(expression)]
#[tactic(auto, unfolding(crate::specs::Parts::turned))]
fn turn(
    alloc: Global,
    tokens: &mut Tokens<'_>,
    room: u32,
    held: bool,
    operator: Infix,
    tier: u8,
    to: u8,
    left: Part,
) -> Result<Part, Fail>
    requires room { (2 ≤ room) × (room ≤ 64) }
    requires tiers { (1 ≤ tier) × (tier ≤ 6) × (tier ≤ to) × (to ≤ 7) }
    requires left { left.levels < room }
    ensures read { Gives part_view result tokens.old tokens.new
        (turned room operator tier to (part_view left) tokens.old.tokens) }
    ensures fits { IfOk result (λ p. Fits room held p) }
{
    let next = joined(alloc, tokens, room, tier, operator, left)?;
    climb(alloc, tokens, room, held, onward(tier), to, next)
}

// An operator, and what stands behind it.
#[inline(always)]
#[cycle(expression)]
#[tactic(auto, unfolding(crate::specs::ExpressionReaders::joined_at))]
fn joined(
    alloc: Global,
    tokens: &mut Tokens<'_>,
    room: u32,
    tier: u8,
    operator: Infix,
    left: Part,
) -> Result<Part, Fail>
    requires room { (2 ≤ room) × (room ≤ 64) }
    requires tier { (1 ≤ tier) × (tier ≤ 6) }
    requires left { left.levels < room }
    ensures read { Gives part_view result tokens.old tokens.new
        (joined_at operator (below room (tier - 1)) (part_view left) tokens.old.tokens) }
    ensures fits { IfOk result (λ p. Fits room true p) }
    ensures deeper { IfOk result (λ p. left.levels < p.levels) }
{
    match operator {
        Infix::Joins(op) => operation(alloc, tokens, room, tier, op, left),
        Infix::Rests => remainder(alloc, tokens, room, left),
    }
}

#[inline(always)]
#[cycle(expression)]
#[tactic(auto, unfolding(crate::specs::ExpressionReaders::operation_at))]
fn operation(
    alloc: Global,
    tokens: &mut Tokens<'_>,
    room: u32,
    tier: u8,
    op: Op,
    left: Part,
) -> Result<Part, Fail>
    requires room { (2 ≤ room) × (room ≤ 64) }
    requires tier { (1 ≤ tier) × (tier ≤ 6) }
    requires left { left.levels < room }
    ensures read { Gives part_view result tokens.old tokens.new
        (operation_at op (below room (tier - 1)) (part_view left) tokens.old.tokens) }
    ensures fits { IfOk result (λ p. Fits room true p) }
    ensures deeper { IfOk result (λ p. left.levels < p.levels) }
{
    let at = any_token(tokens)?.at;
    let right = read(alloc, tokens, room - 1, false, tier - 1)?;
    let levels = 1 + left.levels.max(right.levels);
    let tree = nodes::binary(alloc, op, left, right, at)?;
    Ok(over(tree, levels))
}

#[inline(always)]
#[cycle(expression)]
#[tactic(auto, unfolding(crate::specs::ExpressionReaders::unary_at))]
fn unary(alloc: Global, tokens: &mut Tokens<'_>, room: u32, held: bool) -> Result<Part, Fail>
    requires room { (1 ≤ room) × (room ≤ 64) }
    ensures read { Gives part_view result tokens.old tokens.new
        (unary_at (around room held) tokens.old.tokens) }
    ensures fits { IfOk result (λ p. Fits room held p) }
{
    if is_sign(tokens, b"-") {
        let token = any_token(tokens)?;
        minus(alloc, tokens, room, held, token)
    } else {
        atom(alloc, tokens, room, held)
    }
}

// Behind a minus.
#[inline(never)]
#[cycle(expression)]
#[tactic(auto, unfolding(crate::specs::ExpressionReaders::minus_at))]
fn minus(
    alloc: Global,
    tokens: &mut Tokens<'_>,
    room: u32,
    held: bool,
    token: Token<'_>,
) -> Result<Part, Fail>
    requires room { (1 ≤ room) × (room ≤ 64) }
    ensures read { Gives part_view result tokens.old tokens.new
        (minus_at room (lexeme token.entry) (below room 0) tokens.old.tokens) }
    ensures fits { IfOk result (λ p. Fits room held p) }
{
    if is_number(tokens) {
        return Ok(leaf(Expr::Number(negated_number(tokens, token)?)));
    }
    if room < 2 {
        return Err(if begins_unary(tokens) {
            Fail::Deep
        } else {
            Fail::Token
        });
    }
    let part = read(alloc, tokens, room - 1, false, 0)?;
    let levels = 1 + part.levels;
    let tree = nodes::negated(alloc, part, token.at)?;
    Ok(over(tree, levels))
}

// A part that begins with a `not`.
#[inline(never)]
#[cycle(expression)]
#[tactic(auto, unfolding(crate::specs::Parts::not_at))]
fn denial(
    alloc: Global,
    tokens: &mut Tokens<'_>,
    room: u32,
    held: bool,
    tier: u8,
) -> Result<Part, Fail>
    requires room { (1 ≤ room) × (room ≤ 64) }
    requires tier { (4 ≤ tier) × (tier ≤ 7) }
    ensures read { Gives part_view result tokens.old tokens.new
        (within room tokens.old.tokens (not_at room tier tokens.old.tokens)) }
    ensures fits { IfOk result (λ p. Fits room held p) }
{
    if room < 2 {
        return Err(Fail::Deep);
    }
    let left = denied(alloc, tokens, room, held)?;
    climb(alloc, tokens, room, held, 4, tier, left)
}

#[cycle(expression)]
#[tactic(auto, unfolding(crate::specs::ExpressionReaders::denied_at))]
fn denied(alloc: Global, tokens: &mut Tokens<'_>, room: u32, held: bool) -> Result<Part, Fail>
    requires room { (2 ≤ room) × (room ≤ 64) }
    ensures read { Gives part_view result tokens.old tokens.new
        (denied_at (below room 4) tokens.old.tokens) }
    ensures fits { IfOk result (λ p. Fits room held p) }
{
    let at = any_token(tokens)?.at;
    let part = read(alloc, tokens, room - 1, false, 4)?;
    let levels = 1 + part.levels;
    let tree = nodes::denied(alloc, part, at)?;
    Ok(over(tree, levels))
}

// An expression that begins with an `if`.
#[inline(never)]
#[cycle(expression)]
fn choice(alloc: Global, tokens: &mut Tokens<'_>, room: u32, held: bool) -> Result<Part, Fail>
    requires room { (1 ≤ room) × (room ≤ 64) }
    ensures read { Gives part_view result tokens.old tokens.new
        (within room tokens.old.tokens (chosen_at (below room 7) tokens.old.tokens)) }
    ensures fits { IfOk result (λ p. Fits room held p) }
{
    if room < 2 {
        Err(Fail::Deep)
    } else {
        chosen(alloc, tokens, room, held)
    }
}

#[cycle(expression)]
#[tactic(auto, unfolding(crate::specs::ExpressionReaders::chosen_at))]
fn chosen(alloc: Global, tokens: &mut Tokens<'_>, room: u32, held: bool) -> Result<Part, Fail>
    requires room { (2 ≤ room) × (room ≤ 64) }
    ensures read { Gives part_view result tokens.old tokens.new
        (chosen_at (below room 7) tokens.old.tokens) }
    ensures fits { IfOk result (λ p. Fits room held p) }
{
    let at = any_token(tokens)?.at;
    let cond = read(alloc, tokens, room - 1, false, 7)?;
    expect_keyword(tokens, b"then")?;
    let yes = read(alloc, tokens, room - 1, false, 7)?;
    expect_keyword(tokens, b"else")?;
    let no = read(alloc, tokens, room - 1, false, 7)?;
    let levels = 1 + cond.levels.max(yes.levels.max(no.levels));
    let tree = nodes::chosen(alloc, cond, yes, no, at)?;
    Ok(over(tree, levels))
}

#[inline(always)]
#[cycle(expression)]
#[tactic(auto, unfolding(crate::specs::ExpressionReaders::atom_at, crate::specs::ExpressionReaders::atom_from))]
fn atom(alloc: Global, tokens: &mut Tokens<'_>, room: u32, held: bool) -> Result<Part, Fail>
    requires room { (1 ≤ room) × (room ≤ 64) }
    ensures read { Gives part_view result tokens.old tokens.new
        (atom_at (around room held) tokens.old.tokens) }
    ensures fits { IfOk result (λ p. Fits room held p) }
{
    let opening = opening_at(tokens);
    match opening {
        Opening::Number => number_part(tokens),
        Opening::Name => named(alloc, tokens),
        Opening::Truth(value) => truth_part(tokens, value),
        Opening::Group if !held => group(alloc, tokens, room),
        Opening::Other => Err(Fail::Token),
        _ if room < 2 => Err(Fail::Deep),
        Opening::Group => group(alloc, tokens, room - 1),
        Opening::Pair(func) => pair(alloc, tokens, room, func),
        Opening::Abs => absolute(alloc, tokens, room),
        Opening::Clamp => clamp(alloc, tokens, room),
        Opening::Rescale => rescale(alloc, tokens, room),
    }
}

// An expression in parentheses.
#[inline(never)]
#[cycle(expression)]
#[tactic(auto, unfolding(crate::specs::ExpressionReaders::group_at))]
fn group(alloc: Global, tokens: &mut Tokens<'_>, room: u32) -> Result<Part, Fail>
    requires room { (1 ≤ room) × (room ≤ 64) }
    ensures read { Gives part_view result tokens.old tokens.new
        (group_at (part_at room true 7) tokens.old.tokens) }
    ensures fits { IfOk result (λ p. (1 ≤ p.levels) × (p.levels ≤ room)) }
{
    any_token(tokens)?;
    let part = read(alloc, tokens, room, true, 7)?;
    expect_sign(tokens, b")")?;
    let levels = if part.bare {
        1 + part.levels
    } else {
        part.levels
    };
    Ok(Part {
        tree: part.into_tree(),
        levels,
        bare: true,
    })
}

// The first argument of a call.
#[cycle(expression)]
#[tactic(auto, unfolding(crate::specs::ExpressionReaders::opened_at))]
fn opened(alloc: Global, tokens: &mut Tokens<'_>, room: u32) -> Result<Part, Fail>
    requires room { (2 ≤ room) × (room ≤ 64) }
    ensures read { Gives part_view result tokens.old tokens.new
        (opened_at (below room 7) tokens.old.tokens) }
    ensures fits { IfOk result (λ p. (1 ≤ p.levels) × (p.levels < room)) }
{
    expect_sign(tokens, b"(")?;
    read(alloc, tokens, room - 1, false, 7)
}

// A further argument.
#[cycle(expression)]
#[tactic(auto, unfolding(crate::specs::ExpressionReaders::further_at))]
fn further(alloc: Global, tokens: &mut Tokens<'_>, room: u32) -> Result<Part, Fail>
    requires room { (2 ≤ room) × (room ≤ 64) }
    ensures read { Gives part_view result tokens.old tokens.new
        (further_at (below room 7) tokens.old.tokens) }
    ensures fits { IfOk result (λ p. (1 ≤ p.levels) × (p.levels < room)) }
{
    expect_sign(tokens, b",")?;
    read(alloc, tokens, room - 1, false, 7)
}

#[inline(never)]
#[cycle(expression)]
#[tactic(auto, unfolding(crate::specs::ExpressionReaders::abs_at, crate::specs::ExpressionReaders::opened_at))]
fn absolute(alloc: Global, tokens: &mut Tokens<'_>, room: u32) -> Result<Part, Fail>
    requires room { (2 ≤ room) × (room ≤ 64) }
    ensures read { Gives part_view result tokens.old tokens.new
        (abs_at (below room 7) tokens.old.tokens) }
    ensures fits { IfOk result (λ p. Fits room true p) }
{
    let at = any_token(tokens)?.at;
    let part = opened(alloc, tokens, room)?;
    expect_sign(tokens, b")")?;
    let levels = 1 + part.levels;
    let call = nodes::call_of_one(alloc, Func::Abs, part, at)?;
    Ok(over(call, levels))
}

// `min` or `max`.
#[inline(never)]
#[cycle(expression)]
#[tactic(auto, unfolding(crate::specs::ExpressionReaders::pair_at, crate::specs::ExpressionReaders::opened_at, crate::specs::ExpressionReaders::further_at))]
fn pair(alloc: Global, tokens: &mut Tokens<'_>, room: u32, func: Func) -> Result<Part, Fail>
    requires room { (2 ≤ room) × (room ≤ 64) }
    ensures read { Gives part_view result tokens.old tokens.new
        (pair_at func (below room 7) tokens.old.tokens) }
    ensures fits { IfOk result (λ p. Fits room true p) }
{
    let at = any_token(tokens)?.at;
    let first = opened(alloc, tokens, room)?;
    let second = further(alloc, tokens, room)?;
    expect_sign(tokens, b")")?;
    let levels = 1 + first.levels.max(second.levels);
    let call = nodes::call_of_two(alloc, func, first, second, at)?;
    Ok(over(call, levels))
}

// The second and the third argument of a call, and its end.
#[cycle(expression)]
#[tactic(auto, unfolding(crate::specs::ExpressionReaders::limits_at))]
fn limits(alloc: Global, tokens: &mut Tokens<'_>, room: u32) -> Result<(Part, Part), Fail>
    requires room { (2 ≤ room) × (room ≤ 64) }
    ensures read { Gives (λ limits. (part_view limits.0, part_view limits.1)) result tokens.old
        tokens.new (limits_at (below room 7) tokens.old.tokens) }
    ensures low { IfOk result (λ limits. limits.0.levels < room) }
    ensures high { IfOk result (λ limits. limits.1.levels < room) }
{
    let low = further(alloc, tokens, room)?;
    let high = further(alloc, tokens, room)?;
    expect_sign(tokens, b")")?;
    Ok((low, high))
}

#[inline(never)]
#[cycle(expression)]
#[tactic(auto, unfolding(crate::specs::ExpressionReaders::clamp_at, crate::specs::ExpressionReaders::opened_at))]
fn clamp(alloc: Global, tokens: &mut Tokens<'_>, room: u32) -> Result<Part, Fail>
    requires room { (2 ≤ room) × (room ≤ 64) }
    ensures read { Gives part_view result tokens.old tokens.new
        (clamp_at (below room 7) tokens.old.tokens) }
    ensures fits { IfOk result (λ p. Fits room true p) }
{
    let at = any_token(tokens)?.at;
    let value = opened(alloc, tokens, room)?;
    let (low, high) = limits(alloc, tokens, room)?;
    let levels = 1 + value.levels.max(low.levels.max(high.levels));
    let call = nodes::call_of_three(alloc, Func::Clamp, value, low, high, at)?;
    Ok(over(call, levels))
}

#[inline(never)]
#[cycle(expression)]
#[tactic(auto, unfolding(crate::specs::ExpressionReaders::rescale_at, crate::specs::ExpressionReaders::opened_at))]
fn rescale(alloc: Global, tokens: &mut Tokens<'_>, room: u32) -> Result<Part, Fail>
    requires room { (2 ≤ room) × (room ≤ 64) }
    ensures read { Gives part_view result tokens.old tokens.new
        (rescale_at (below room 7) tokens.old.tokens) }
    ensures fits { IfOk result (λ p. Fits room true p) }
{
    let at = any_token(tokens)?.at;
    let part = opened(alloc, tokens, room)?;
    let to = target(tokens)?;
    let levels = 1 + part.levels;
    let tree = nodes::rescaled(alloc, part, to, at)?;
    Ok(over(tree, levels))
}

// The expression at the front of the tokens, with how deep it nests.
#[tactic(auto, unfolding(crate::specs::ExpressionReaders::expression_at))]
fn expression(alloc: Global, tokens: &mut Tokens<'_>, room: u32) -> Result<Part, Fail>
    requires room { (1 ≤ room) × (room ≤ 64) }
    ensures read { Gives part_view result tokens.old tokens.new
        (expression_at room tokens.old.tokens) }
    ensures fits { IfOk result (λ part. (1 ≤ part.levels) × (part.levels ≤ room)) }
{
    read(alloc, tokens, room, false, 7)
}

/// The expression at the front of the tokens, of at most `room` levels.
///
/// # Errors
///
/// `Token` where no expression goes on with the next token, `Deep` where it would nest deeper,
/// `Memory` where there is none.
#[tactic(auto, unfolding(crate::specs::ExpressionReaders::tree_at))]
pub fn tree(alloc: Global, tokens: &mut Tokens<'_>, room: u32) -> Result<Expr, Fail>
    requires room { (1 ≤ room) × (room ≤ 64) }
    ensures { Gives tree_view result tokens.old tokens.new (tree_at room tokens.old.tokens) }
{
    let part = expression(alloc, tokens, room)?;
    Ok(part.into_tree())
}
