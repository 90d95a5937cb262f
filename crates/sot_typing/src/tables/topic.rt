//! The row of a topic, and the rows of its scalars.
ghost use Rattle.std.specs.Prelude.{◌≡◌, ◌<◌, ◌≤◌, ◌++◌, length, Some, IfOk, OnOk};
ghost use Rattle.std.specs.List.{All};
ghost use Rattle.sot_syntax_tree.specs.TreeViews.{init_view, topic_view};
ghost use Rattle.sot_rules.specs.Tests.{start_values};
ghost use Rattle.sot_typing.specs.Resolved.{scalar_count, scalar_info, scalar_scale};
ghost use Rattle.sot_typing.specs.Parts.{FieldFits, TopicFits, field_scalars, scalars_at};

use crate::tables::range::{const_number, greatest, is_truth, lowest, scalar_scale};
use sot_lang::{ScalarInfo, TopicInfo};
use sot_rules::{scalar_count, start_value};
use sot_syntax_tree::{Const, Field, Init, Scalar, Shape, TopicDecl};
use std::alloc::{AllocError, Global};

fn lone_scalar(topic: u32, s: Scalar, c: Const) -> ScalarInfo
    requires { scalar_scale s ≤ 6 }
    ensures { result ≡ scalar_info topic None s c }
{
    ScalarInfo {
        topic,
        field: None,
        scale: scalar_scale(s),
        truth: is_truth(s),
        lo: lowest(s),
        hi: greatest(s),
        init: const_number(c),
    }
}

fn field_scalar(alloc: Global, topic: u32, f: &Field, c: Const) -> Result<ScalarInfo, AllocError>
    requires { FieldFits f.now }
    ensures { IfOk result (λ i. i ≡ scalar_info topic (Some f.now.name.name) f.now.scalar c) }
{
    let name = f.name.name.copy(alloc)?;
    Ok(ScalarInfo {
        topic,
        field: Some(name),
        scale: scalar_scale(f.scalar),
        truth: is_truth(f.scalar),
        lo: lowest(f.scalar),
        hi: greatest(f.scalar),
        init: const_number(c),
    })
}

fn put_fields(
    alloc: Global,
    topic: u32,
    fields: &[Field],
    init: &Init,
    scalars: &mut Vec<ScalarInfo>,
) -> Result<(), AllocError>
    requires fields { All FieldFits fields.now }
    requires starts { length fields.now ≡ length (start_values (init_view init.now)) }
    ensures { OnOk result (scalars.new.items
        ≡ scalars.old.items ++ field_scalars topic fields.now (start_values (init_view init.now))) }
{
    for (k, f) in fields.iter().enumerate() {
        let start = start_value(init, k);
        scalars.push(field_scalar(alloc, topic, f, start)?)?;
    }
    Ok(())
}

/// Puts the scalars of a topic with this number behind the others.
pub fn put_scalars(
    alloc: Global,
    topic: u32,
    t: &TopicDecl,
    scalars: &mut Vec<ScalarInfo>,
) -> Result<(), AllocError>
    requires { TopicFits (topic_view t.now) }
    ensures { OnOk result (scalars.new.items
        ≡ scalars.old.items ++ scalars_at topic (topic_view t.now)) }
{
    match &t.shape {
        Shape::One(s) => {
            let start = start_value(&t.init, 0);
            scalars.push(lone_scalar(topic, *s, start))?;
            Ok(())
        }
        Shape::Fields(fields) => put_fields(alloc, topic, fields, &t.init, scalars),
    }
}

/// A topic whose first scalar stands at this place.
pub fn topic_info(alloc: Global, t: &TopicDecl, first: u32) -> Result<TopicInfo, AllocError>
    requires { TopicFits (topic_view t.now) }
    ensures { IfOk result (λ i. i
        ≡ record {
          name = t.now.name.name;
          outside = t.now.outside;
          first = first;
          count = scalar_count (topic_view t.now);
        }) }
{
    let name = t.name.name.copy(alloc)?;
    Ok(TopicInfo {
        name,
        outside: t.outside,
        first,
        count: scalar_count(&t.shape) as u32,
    })
}
