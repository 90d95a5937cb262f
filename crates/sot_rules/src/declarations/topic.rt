//! The faults of a topic.
ghost use Rattle.std.specs.Prelude.{◌≡◌, ◌<◌, map, zip, length, true, slice_get, flat_map, Some};
ghost use Rattle.std.specs.Prelude.{OnOk};
ghost use Rattle.sot_syntax_tree.specs.TreeViews.{shape_view, init_view, topic_view};
ghost use Rattle.sot_rules.specs.Tests.{form_scalars, start_values, start_place};
ghost use Rattle.sot_rules.specs.Faults.{least, together, scalar_faults, start_faults, topic_lists};
ghost use Rattle.sot_rules.specs.Groups.{names_faults, starts_faults};

use crate::declarations::limit::note_past;
use crate::declarations::range::{const_place, note_scalar, note_start};
use crate::fault::{TypeFault, TypeKind, note};
use crate::names::repeats::note_repeats;
use sot_syntax_tree::{Const, Field, Init, Scalar, Shape, TopicDecl};
use sot_text::Span;
use std::alloc::{AllocError, Global};

/// How many scalars a topic has.
pub fn scalar_count(shape: &Shape) -> usize
    ensures { result ≡ length (form_scalars (shape_view shape.now)) }
{
    match shape {
        Shape::One(_) => 1,
        Shape::Fields(fields) => fields.len(),
    }
}

fn scalar_at(shape: &Shape, i: usize) -> Scalar
    requires { i < length (form_scalars (shape_view shape.now)) }
    ensures { slice_get (form_scalars (shape_view shape.now)) i ≡ Some result }
{
    match shape {
        Shape::One(s) => *s,
        Shape::Fields(fields) => fields[i].scalar,
    }
}

fn value_count(init: &Init) -> usize
    ensures { result ≡ length (start_values (init_view init.now)) }
{
    match init {
        Init::One(_) => 1,
        Init::Fields { items, .. } => items.len(),
    }
}

/// The initial value at a place.
pub fn start_value(init: &Init, i: usize) -> Const
    requires { i < length (start_values (init_view init.now)) }
    ensures { slice_get (start_values (init_view init.now)) i ≡ Some result }
{
    match init {
        Init::One(c) => *c,
        Init::Fields { items, .. } => items[i],
    }
}

fn start_place(init: &Init) -> Span
    ensures { result ≡ start_place (init_view init.now) }
{
    match init {
        Init::One(c) => const_place(*c),
        Init::Fields { at, .. } => *at,
    }
}

// The names of the fields.
#[tactic(auto, using(crate::proofs::Least::least_append))]
fn note_names(alloc: Global, shape: &Shape, first: &mut Option<TypeFault>) -> Result<(), AllocError>
    ensures { OnOk result (first.new ≡ least first.old (names_faults (shape_view shape.now))) }
{
    if let Shape::Fields(fields) = shape {
        note_repeats(alloc, fields, first)?;
        note_past(8, fields, first);
    }
    Ok(())
}

fn note_fields(fields: &[Field], first: &mut Option<TypeFault>)
    ensures { first.new ≡ least first.old
        (flat_map (scalar_faults true) (map (λ f. f.scalar) fields.now)) }
{
    for field in fields {
        note_scalar(true, field.scalar, first);
    }
}

fn note_scalars(shape: &Shape, first: &mut Option<TypeFault>)
    ensures { first.new ≡ least first.old
        (flat_map (scalar_faults true) (form_scalars (shape_view shape.now))) }
{
    match shape {
        Shape::One(s) => note_scalar(true, *s, first),
        Shape::Fields(fields) => note_fields(fields, first),
    }
}

// Each scalar with its initial value.
fn note_pairs(shape: &Shape, init: &Init, first: &mut Option<TypeFault>)
    requires { length (form_scalars (shape_view shape.now))
        ≡ length (start_values (init_view init.now)) }
    ensures { first.new ≡ least first.old
        (flat_map (λ x. start_faults x.0 x.1)
        (zip (form_scalars (shape_view shape.now)) (start_values (init_view init.now)))) }
{
    for i in 0..scalar_count(shape) {
        note_start(scalar_at(shape, i), start_value(init, i), first);
    }
}

fn note_starts(t: &TopicDecl, first: &mut Option<TypeFault>)
    ensures { first.new ≡ least first.old (starts_faults (topic_view t.now)) }
{
    if scalar_count(&t.shape) == value_count(&t.init) {
        note_pairs(&t.shape, &t.init, first);
    } else {
        note(first, true, start_place(&t.init), TypeKind::KindDiffers);
    }
}

/// A topic: the names of its fields, its ranges and its initial value.
#[tactic(auto, using(crate::proofs::Least::least_append))]
pub fn note_topic(
    alloc: Global,
    t: &TopicDecl,
    first: &mut Option<TypeFault>,
) -> Result<(), AllocError>
    ensures { OnOk result (first.new
        ≡ least first.old (together (topic_lists (topic_view t.now)))) }
{
    note_names(alloc, &t.shape, first)?;
    note_scalars(&t.shape, first);
    note_starts(t, first);
    Ok(())
}
