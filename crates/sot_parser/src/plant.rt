//! Plants.
ghost use Rattle.std.specs.Prelude.{◌≡◌, ◌≤◌, map, codes};
ghost use Rattle.sot_syntax_tree.specs.TreeViews.{tree_view, next_view, plant_view};
ghost use Rattle.sot_expression.specs.Lexemes.{begins, is_keyword};
ghost use Rattle.sot_expression.specs.Readers.{name_at};
ghost use Rattle.sot_parser.specs.ListReaders.{all_at};
ghost use Rattle.sot_expression.specs.ExpressionReaders.{tree_at};
ghost use Rattle.sot_parser.specs.DeclarationReaders.{next_at, signals_at, plant_at};
ghost use Rattle.sot_expression.specs.Returned.{Gives};

use crate::held::HeldPart;
use crate::items::{clause, optional};
use sot_expression::{Fail, Tokens, expect_keyword, expect_sign, is_keyword, name, tree};
use sot_syntax_tree::{Field, Ident, NextDecl, PlantDecl, StateDecl};
use std::alloc::Global;

#[tactic(auto, unfolding(crate::specs::DeclarationReaders::next_at))]
fn next(alloc: Global, tokens: &mut Tokens<'_>, room: u32) -> Result<NextDecl, Fail>
    requires room { (1 ≤ room) × (room ≤ 64) }
    ensures { Gives next_view result tokens.old tokens.new (next_at room tokens.old.tokens) }
{
    expect_keyword(tokens, b"next")?;
    let name = HeldPart(name(alloc, tokens)?);
    expect_sign(tokens, b"=")?;
    let value = HeldPart(tree(alloc, tokens, room)?);
    expect_sign(tokens, b";")?;
    Ok(NextDecl {
        name: name.take(),
        value: value.take(),
    })
}

fn nexts(alloc: Global, tokens: &mut Tokens<'_>, room: u32) -> Result<Vec<NextDecl>, Fail>
    requires room { (1 ≤ room) × (room ≤ 64) }
    ensures { Gives (λ nexts. map next_view nexts.items) result tokens.old tokens.new
        (all_at (begins (is_keyword (codes "next"))) (next_at room) tokens.old.tokens) }
{
    let mut nexts = Vec::new(alloc);
    while is_keyword(tokens, b"next") {
        let next = next(alloc, tokens, room)?;
        nexts.push(next)?;
    }
    Ok(nexts)
}

type Signals = (Vec<StateDecl>, Vec<Ident>, Vec<Ident>, Vec<Field>);

// What a plant holds and sees: the states, the inputs, the other plants and the noise.
#[tactic(auto, unfolding(crate::specs::DeclarationReaders::signals_at))]
fn signals(alloc: Global, tokens: &mut Tokens<'_>) -> Result<Signals, Fail>
    ensures { Gives (λ signals. (
      signals.0.items,
      signals.1.items,
      signals.2.items,
      signals.3.items,
    )) result tokens.old tokens.new (signals_at tokens.old.tokens) }
{
    let states = clause(alloc, tokens, b"state")?;
    let inputs = optional(alloc, tokens, b"input")?;
    let sees = optional(alloc, tokens, b"sees")?;
    let noise = optional(alloc, tokens, b"noise")?;
    Ok((states, inputs, sees, noise))
}

/// A plant, whose expressions have at most `room` levels.
#[tactic(auto, unfolding(crate::specs::DeclarationReaders::plant_at))]
pub fn plant(alloc: Global, tokens: &mut Tokens<'_>, room: u32) -> Result<PlantDecl, Fail>
    requires room { (1 ≤ room) × (room ≤ 64) }
    ensures { Gives plant_view result tokens.old tokens.new (plant_at room tokens.old.tokens) }
{
    expect_keyword(tokens, b"plant")?;
    let name = HeldPart(name(alloc, tokens)?);
    expect_sign(tokens, b"{")?;
    let (states, inputs, sees, noise) = signals(alloc, tokens)?;
    let next = nexts(alloc, tokens, room)?;
    let end = expect_sign(tokens, b"}")?;
    Ok(PlantDecl {
        name: name.take(),
        states,
        inputs,
        sees,
        noise,
        next,
        end,
    })
}
