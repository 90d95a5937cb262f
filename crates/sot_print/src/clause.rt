//! Clauses of declarations.
ghost use Rattle.std.specs.Prelude.{◌≡◌, ◌∷◌, ◌++◌, [], codes, OnOk};
ghost use Rattle.std.specs.String.{string_bytes};
ghost use Rattle.sot_syntax_tree.specs.TreeViews.{tree_view, next_view, local_view, shape_view};
ghost use Rattle.sot_syntax_tree.specs.TreeViews.{init_view};
ghost use Rattle.sot_print.specs.declared.gap.Gap.TheVariants.{Touching, Space, Line};
ghost use Rattle.sot_print.specs.Words.{laid, keyword};
ghost use Rattle.sot_print.specs.Leaves.{listed, ident_words, constant_words, bounds_words};
ghost use Rattle.sot_print.specs.Leaves.{field_words};
ghost use Rattle.sot_print.specs.Canonical.{shape_words, start_words, state_type_words};
ghost use Rattle.sot_print.specs.Canonical.{state_words, names_clause, noise_clause, next_clause};
ghost use Rattle.sot_print.specs.Canonical.{timing_words, local_name_words, local_clause, clause};

use crate::expression::push_expression;
use crate::gap::{Gap, push_comma, push_word};
use crate::leaf::{
    push_bounds, push_constant, push_field, push_fixed, push_ident, push_literal, push_scalar,
};
use crate::statement::push_semicolon;
use sot_syntax_tree::{
    Bounds, Const, Field, Ident, Init, Lit, LocalDecl, NextDecl, Shape, StateDecl,
};
use std::alloc::AllocError;

/// Names, with commas.
fn push_idents(out: &mut String, gap: Gap, idents: &[Ident]) -> Result<(), AllocError>
    ensures { OnOk result (string_bytes out.new
        ≡ string_bytes out.old ++ laid (listed ident_words gap idents.now)) }
{
    for (place, ident) in idents.iter().enumerate() {
        let own = push_comma(out, place, gap)?;
        push_ident(out, own, ident)?;
    }
    Ok(())
}

/// Fields, with commas.
fn push_fields(out: &mut String, gap: Gap, fields: &[Field]) -> Result<(), AllocError>
    ensures { OnOk result (string_bytes out.new
        ≡ string_bytes out.old ++ laid (listed field_words gap fields.now)) }
{
    for (place, field) in fields.iter().enumerate() {
        let own = push_comma(out, place, gap)?;
        push_field(out, own, field)?;
    }
    Ok(())
}

/// Constants, with commas.
fn push_constants(out: &mut String, gap: Gap, constants: &[Const]) -> Result<(), AllocError>
    ensures { OnOk result (string_bytes out.new
        ≡ string_bytes out.old ++ laid (listed constant_words gap constants.now)) }
{
    for (place, constant) in constants.iter().enumerate() {
        let own = push_comma(out, place, gap)?;
        push_constant(out, own, constant)?;
    }
    Ok(())
}

/// The sides of a box, with commas.
pub fn push_sides(out: &mut String, gap: Gap, sides: &[Bounds]) -> Result<(), AllocError>
    ensures { OnOk result (string_bytes out.new
        ≡ string_bytes out.old ++ laid (listed bounds_words gap sides.now)) }
{
    for (place, side) in sides.iter().enumerate() {
        let own = push_comma(out, place, gap)?;
        push_bounds(out, own, side)?;
    }
    Ok(())
}

fn push_state_type(out: &mut String, scale: &Option<Lit>) -> Result<(), AllocError>
    ensures { OnOk result (string_bytes out.new
        ≡ string_bytes out.old ++ laid (state_type_words scale.now)) }
{
    match scale {
        None => push_word(out, Gap::Space, "int"),
        Some(literal) => push_fixed(out, *literal),
    }
}

fn push_state(out: &mut String, gap: Gap, state: &StateDecl) -> Result<(), AllocError>
    ensures { OnOk result (string_bytes out.new
        ≡ string_bytes out.old ++ laid (state_words gap state.now)) }
{
    push_ident(out, gap, &state.name)?;
    push_word(out, Gap::Touching, ":")?;
    push_state_type(out, &state.scale)
}

/// State variables, with commas.
fn push_states(out: &mut String, gap: Gap, states: &[StateDecl]) -> Result<(), AllocError>
    ensures { OnOk result (string_bytes out.new
        ≡ string_bytes out.old ++ laid (listed state_words gap states.now)) }
{
    for (place, state) in states.iter().enumerate() {
        let own = push_comma(out, place, gap)?;
        push_state(out, own, state)?;
    }
    Ok(())
}

/// The word that begins a clause in the braces of a declaration.
pub fn push_clause_word(out: &mut String, word: &str) -> Result<(), AllocError>
    ensures { OnOk result (string_bytes out.new
        ≡ string_bytes out.old ++ laid (keyword (Line 2) word.now ∷ [])) }
{
    push_word(out, Gap::Line { indent: 2 }, word)
}

/// The type of a topic.
pub fn push_shape(out: &mut String, shape: &Shape) -> Result<(), AllocError>
    ensures { OnOk result (string_bytes out.new
        ≡ string_bytes out.old ++ laid (shape_words (shape_view shape.now))) }
{
    match shape {
        Shape::One(scalar) => push_scalar(out, scalar),
        Shape::Fields(fields) => {
            push_word(out, Gap::Space, "{")?;
            push_fields(out, Gap::Touching, fields)?;
            push_word(out, Gap::Touching, "}")
        }
    }
}

/// The initial value of a topic.
pub fn push_init(out: &mut String, init: &Init) -> Result<(), AllocError>
    ensures { OnOk result (string_bytes out.new
        ≡ string_bytes out.old ++ laid (start_words (init_view init.now))) }
{
    match init {
        Init::One(constant) => push_constant(out, Gap::Space, constant),
        Init::Fields { items, .. } => {
            push_word(out, Gap::Space, "{")?;
            push_constants(out, Gap::Touching, items)?;
            push_word(out, Gap::Touching, "}")
        }
    }
}

/// The clause of a plant's state variables.
pub fn push_state_clause(out: &mut String, states: &[StateDecl]) -> Result<(), AllocError>
    ensures { OnOk result (string_bytes out.new
        ≡ string_bytes out.old ++ laid (clause (codes "state")
        (listed state_words Space states.now))) }
{
    push_clause_word(out, "state")?;
    push_states(out, Gap::Space, states)?;
    push_semicolon(out)
}

/// A clause of names, if there are any.
pub fn push_names_clause(out: &mut String, word: &str, names: &[Ident]) -> Result<(), AllocError>
    ensures { OnOk result (string_bytes out.new
        ≡ string_bytes out.old ++ laid (names_clause word.now names.now)) }
{
    if names.is_empty() {
        return Ok(());
    }
    push_clause_word(out, word)?;
    push_idents(out, Gap::Space, names)?;
    push_semicolon(out)
}

/// The clause of a plant's disturbances, if there are any.
pub fn push_noise_clause(out: &mut String, noise: &[Field]) -> Result<(), AllocError>
    ensures { OnOk result (string_bytes out.new
        ≡ string_bytes out.old ++ laid (noise_clause noise.now)) }
{
    if noise.is_empty() {
        return Ok(());
    }
    push_clause_word(out, "noise")?;
    push_fields(out, Gap::Space, noise)?;
    push_semicolon(out)
}

/// A `next` clause of a plant.
pub fn push_next_clause(out: &mut String, next: &NextDecl) -> Result<(), AllocError>
    ensures { OnOk result (string_bytes out.new
        ≡ string_bytes out.old ++ laid (next_clause (next_view next.now))) }
{
    push_clause_word(out, "next")?;
    push_ident(out, Gap::Space, &next.name)?;
    push_word(out, Gap::Space, "=")?;
    push_expression(out, Gap::Space, &next.value)?;
    push_semicolon(out)
}

/// The period and the offset of a node or a module.
pub fn push_timing(out: &mut String, gap: Gap, period: Lit, offset: Lit) -> Result<(), AllocError>
    ensures { OnOk result (string_bytes out.new
        ≡ string_bytes out.old ++ laid (timing_words gap period offset)) }
{
    push_word(out, gap, "period")?;
    push_literal(out, Gap::Space, period)?;
    push_word(out, Gap::Space, "offset")?;
    push_literal(out, Gap::Space, offset)
}

// A local and its type.
fn push_local_name(out: &mut String, local: &LocalDecl) -> Result<(), AllocError>
    ensures { OnOk result (string_bytes out.new
        ≡ string_bytes out.old ++ laid (local_name_words (local_view local.now))) }
{
    push_ident(out, Gap::Space, &local.name)?;
    push_word(out, Gap::Touching, ":")?;
    push_scalar(out, &local.scalar)
}

/// The clause of a node's local.
pub fn push_local_clause(out: &mut String, local: &LocalDecl) -> Result<(), AllocError>
    ensures { OnOk result (string_bytes out.new
        ≡ string_bytes out.old ++ laid (local_clause (local_view local.now))) }
{
    push_clause_word(out, "local")?;
    push_local_name(out, local)?;
    push_word(out, Gap::Space, "=")?;
    push_constant(out, Gap::Space, &local.init)?;
    push_semicolon(out)
}

/// A clause of one name.
pub fn push_name_clause(out: &mut String, word: &str, name: &Ident) -> Result<(), AllocError>
    ensures { OnOk result (string_bytes out.new
        ≡ string_bytes out.old ++ laid (clause word.now (ident_words Space name.now))) }
{
    push_clause_word(out, word)?;
    push_ident(out, Gap::Space, name)?;
    push_semicolon(out)
}
