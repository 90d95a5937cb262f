//! Declarations, by the word that they begin with. A text may have very many topics, so the others
//! stand apart.
ghost use Rattle.std.specs.Prelude.{◌≡◌, ◌≤◌, ◌||◌, map, codes};
ghost use Rattle.sot_syntax_tree.specs.TreeViews.{declaration_view};
ghost use Rattle.sot_expression.specs.Lexemes.{begins, is_keyword};
ghost use Rattle.sot_parser.specs.DeclarationReaders.{a_topic_at, a_plant_at, a_coded_at};
ghost use Rattle.sot_parser.specs.DeclarationReaders.{an_external_at, a_module_at, declaration_at};
ghost use Rattle.sot_parser.specs.DeclarationReaders.{declarations_at, is_some};
ghost use Rattle.sot_expression.specs.Returned.{Gives};

use crate::node::{coded, external};
use crate::plant::plant;
use crate::regions::mission_module;
use crate::topic::topic;
use sot_expression::{Fail, Tokens, is_keyword};
use sot_syntax_tree::{Apart, Decl};
use std::alloc::Global;

#[inline(always)]
#[tactic(auto, unfolding(crate::specs::DeclarationReaders::a_topic_at))]
fn a_topic(alloc: Global, tokens: &mut Tokens<'_>) -> Result<Decl, Fail>
    ensures { Gives declaration_view result tokens.old tokens.new (a_topic_at tokens.old.tokens) }
{
    let topic = topic(alloc, tokens)?;
    Ok(Decl::Topic(topic))
}

#[inline(never)]
#[tactic(auto, unfolding(crate::specs::DeclarationReaders::a_plant_at))]
fn a_plant(alloc: Global, tokens: &mut Tokens<'_>, room: u32) -> Result<Decl, Fail>
    requires room { (1 ≤ room) × (room ≤ 64) }
    ensures { Gives declaration_view result tokens.old tokens.new
        (a_plant_at room tokens.old.tokens) }
{
    let plant = plant(alloc, tokens, room)?;
    Ok(Decl::Plant(Apart::new(alloc, plant)?))
}

#[inline(never)]
#[tactic(auto, unfolding(crate::specs::DeclarationReaders::a_coded_at))]
fn a_coded_node(alloc: Global, tokens: &mut Tokens<'_>, room: u32) -> Result<Decl, Fail>
    requires room { (1 ≤ room) × (room ≤ 64) }
    ensures { Gives declaration_view result tokens.old tokens.new
        (a_coded_at room tokens.old.tokens) }
{
    let node = coded(alloc, tokens, room)?;
    Ok(Decl::Node(Apart::new(alloc, node)?))
}

#[inline(never)]
#[tactic(auto, unfolding(crate::specs::DeclarationReaders::an_external_at))]
fn an_external_node(alloc: Global, tokens: &mut Tokens<'_>) -> Result<Decl, Fail>
    ensures { Gives declaration_view result tokens.old tokens.new
        (an_external_at tokens.old.tokens) }
{
    let node = external(alloc, tokens)?;
    Ok(Decl::Node(Apart::new(alloc, node)?))
}

#[inline(never)]
#[tactic(auto, unfolding(crate::specs::DeclarationReaders::a_module_at))]
fn a_module(alloc: Global, tokens: &mut Tokens<'_>) -> Result<Decl, Fail>
    ensures { Gives declaration_view result tokens.old tokens.new (a_module_at tokens.old.tokens) }
{
    let last = mission_module(alloc, tokens)?;
    Ok(Decl::Module(Apart::new(alloc, last)?))
}

#[tactic(auto, unfolding(crate::specs::DeclarationReaders::declaration_at))]
fn declaration(alloc: Global, tokens: &mut Tokens<'_>, room: u32) -> Result<Decl, Fail>
    requires room { (1 ≤ room) × (room ≤ 64) }
    ensures { Gives declaration_view result tokens.old tokens.new
        (declaration_at room tokens.old.tokens) }
{
    if is_keyword(tokens, b"topic") || is_keyword(tokens, b"environment") {
        a_topic(alloc, tokens)
    } else if is_keyword(tokens, b"plant") {
        a_plant(alloc, tokens, room)
    } else if is_keyword(tokens, b"node") {
        a_coded_node(alloc, tokens, room)
    } else if is_keyword(tokens, b"external") {
        an_external_node(alloc, tokens)
    } else {
        a_module(alloc, tokens)
    }
}

fn is_some(tokens: &Tokens<'_>) -> bool
    ensures { result ≡ is_some tokens.now.tokens }
{
    tokens.peek().is_some()
}

/// Declarations to the end of the tokens, of at most `room` levels.
#[tactic(auto, unfolding(crate::specs::DeclarationReaders::declarations_at))]
pub fn declarations(alloc: Global, tokens: &mut Tokens<'_>, room: u32) -> Result<Vec<Decl>, Fail>
    requires room { (1 ≤ room) × (room ≤ 64) }
    ensures { Gives (λ decls. map declaration_view decls.items) result tokens.old tokens.new
        (declarations_at room tokens.old.tokens) }
{
    let mut decls = Vec::new(alloc);
    while is_some(tokens) {
        let next = declaration(alloc, tokens, room)?;
        decls.push(next)?;
    }
    Ok(decls)
}
