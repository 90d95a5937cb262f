//! Literals, names, lists and types.
ghost use Rattle.std.specs.Prelude.{◌≡◌, ◌++◌, [], if◌then◌else◌, codes, pos, int_lt, Some, OnOk};
ghost use Rattle.std.specs.String.{string_bytes};
ghost use Rattle.sot_print.specs.Words.{blanks, laid};
ghost use Rattle.sot_print.specs.Leaves.{literal_words, ident_words, reference_words, truth_words};
ghost use Rattle.sot_print.specs.Leaves.{constant_words, bounds_words, range_words, fixed_words};
ghost use Rattle.sot_print.specs.Leaves.{scalar_words, field_words};

use crate::gap::{Gap, push_characters, push_gap, push_word};
use crate::numeral::push_numeral;
use sot_syntax_tree::{Bounds, Const, Field, Ident, Lit, Member, Name, Scalar};
use std::alloc::AllocError;

// A name of more letters, in one piece.
#[inline(never)]
fn push_long(out: &mut String, name: &Name) -> Result<(), AllocError>
    ensures { OnOk result (string_bytes out.new ≡ string_bytes out.old ++ name.now) }
{
    out.push_str(name.as_str())
}

// A name. One or two letters are put one by one, which takes less than to copy so few.
fn push_name(out: &mut String, name: &Name) -> Result<(), AllocError>
    ensures { OnOk result (string_bytes out.new ≡ string_bytes out.old ++ name.now) }
{
    let bytes = name.as_bytes();
    if bytes.len() <= 2 && bytes.is_ascii() {
        push_characters(out, bytes)
    } else {
        push_long(out, name)
    }
}

pub fn push_ident(out: &mut String, gap: Gap, ident: &Ident) -> Result<(), AllocError>
    ensures { OnOk result (string_bytes out.new
        ≡ string_bytes out.old ++ laid (ident_words gap ident.now)) }
{
    push_gap(out, gap)?;
    push_name(out, &ident.name)
}

/// Two names with a point between them.
pub fn push_member(out: &mut String, gap: Gap, member: &Member) -> Result<(), AllocError>
    ensures { OnOk result (string_bytes out.new
        ≡ string_bytes out.old ++ laid (reference_words gap member.now.first
        (Some member.now.field))) }
{
    push_ident(out, gap, &member.first)?;
    push_word(out, Gap::Touching, ".")?;
    push_ident(out, Gap::Touching, &member.field)
}

// The minus of a number below 0, and the gap of its digits.
fn push_minus(out: &mut String, gap: Gap, mantissa: i64) -> Result<(), AllocError>
    ensures { OnOk result (string_bytes out.new
        ≡ string_bytes out.old ++ (blanks gap
        ++ (if int_lt mantissa (pos 0) then codes "-" else []))) }
{
    push_gap(out, gap)?;
    if mantissa < 0 {
        out.push('-')?;
    }
    Ok(())
}

pub fn push_literal(out: &mut String, gap: Gap, literal: Lit) -> Result<(), AllocError>
    ensures { OnOk result (string_bytes out.new
        ≡ string_bytes out.old ++ laid (literal_words gap literal)) }
{
    push_minus(out, gap, literal.mantissa)?;
    push_numeral(out, literal.mantissa.unsigned_abs(), literal.scale)
}

pub fn push_truth(out: &mut String, gap: Gap, value: bool) -> Result<(), AllocError>
    ensures { OnOk result (string_bytes out.new
        ≡ string_bytes out.old ++ laid (truth_words gap value)) }
{
    push_word(out, gap, if value { "true" } else { "false" })
}

pub fn push_constant(out: &mut String, gap: Gap, constant: &Const) -> Result<(), AllocError>
    ensures { OnOk result (string_bytes out.new
        ≡ string_bytes out.old ++ laid (constant_words gap constant.now)) }
{
    match constant {
        Const::Number(literal) => push_literal(out, gap, *literal),
        Const::Truth { value, .. } => push_truth(out, gap, *value),
    }
}

pub fn push_bounds(out: &mut String, gap: Gap, bounds: &Bounds) -> Result<(), AllocError>
    ensures { OnOk result (string_bytes out.new
        ≡ string_bytes out.old ++ laid (bounds_words gap bounds.now)) }
{
    push_literal(out, gap, bounds.lo)?;
    push_word(out, Gap::Touching, "..")?;
    push_literal(out, Gap::Touching, bounds.hi)
}

pub fn push_range(out: &mut String, bounds: &Bounds) -> Result<(), AllocError>
    ensures { OnOk result (string_bytes out.new
        ≡ string_bytes out.old ++ laid (range_words bounds.now)) }
{
    push_word(out, Gap::Touching, "[")?;
    push_bounds(out, Gap::Touching, bounds)?;
    push_word(out, Gap::Touching, "]")
}

/// `fix` with its count of decimals.
pub fn push_fixed(out: &mut String, scale: Lit) -> Result<(), AllocError>
    ensures { OnOk result
        (string_bytes out.new ≡ string_bytes out.old ++ laid (fixed_words scale)) }
{
    push_word(out, Gap::Space, "fix")?;
    push_word(out, Gap::Touching, "(")?;
    push_literal(out, Gap::Touching, scale)?;
    push_word(out, Gap::Touching, ")")
}

pub fn push_scalar(out: &mut String, scalar: &Scalar) -> Result<(), AllocError>
    ensures { OnOk result (string_bytes out.new
        ≡ string_bytes out.old ++ laid (scalar_words scalar.now)) }
{
    match scalar {
        Scalar::Int(bounds) => {
            push_word(out, Gap::Space, "int")?;
            push_range(out, bounds)
        }
        Scalar::Fix { scale, bounds } => {
            push_fixed(out, *scale)?;
            push_range(out, bounds)
        }
        Scalar::Bool { .. } => push_word(out, Gap::Space, "bool"),
    }
}

pub fn push_field(out: &mut String, gap: Gap, field: &Field) -> Result<(), AllocError>
    ensures { OnOk result (string_bytes out.new
        ≡ string_bytes out.old ++ laid (field_words gap field.now)) }
{
    push_ident(out, gap, &field.name)?;
    push_word(out, Gap::Touching, ":")?;
    push_scalar(out, &field.scalar)
}
