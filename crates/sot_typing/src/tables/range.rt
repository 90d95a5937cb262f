//! The scale, the ends and the initial value of a scalar, as numbers.
ghost use Rattle.std.specs.Prelude.{◌≡◌, ◌≤◌};
ghost use Rattle.sot_rules.specs.Sorts.{scale_sort, state_sort};
ghost use Rattle.sot_typing.specs.Terms.{sort_scale};
ghost use Rattle.sot_typing.specs.Resolved.{lowest, greatest, const_number, scalar_scale, is_truth};

use sot_syntax_tree::{Const, Lit, Scalar, StateDecl};

// A written count of decimals.
fn written(d: Lit) -> u8
    requires { sort_scale (scale_sort d) ≤ 6 }
    ensures { result ≡ sort_scale (scale_sort d) }
{
    if d.scale == 0 {
        d.mantissa.unsigned_abs() as u8
    } else {
        0
    }
}

/// The count of decimals of a state variable.
pub fn state_scale(s: &StateDecl) -> u8
    requires { sort_scale (state_sort s.now) ≤ 6 }
    ensures { result ≡ sort_scale (state_sort s.now) }
{
    match s.scale {
        None => 0,
        Some(d) => written(d),
    }
}

/// The count of decimals of a scalar; of a truth value 0.
pub fn scalar_scale(s: Scalar) -> u8
    requires { scalar_scale s ≤ 6 }
    ensures { result ≡ scalar_scale s }
{
    match s {
        Scalar::Int(_) => 0,
        Scalar::Fix { scale, .. } => written(scale),
        Scalar::Bool { .. } => 0,
    }
}

/// Whether a scalar is a truth value.
pub fn is_truth(s: Scalar) -> bool
    ensures { result ≡ is_truth s }
{
    match s {
        Scalar::Bool { .. } => true,
        _ => false,
    }
}

/// The low end of a scalar's range, as a mantissa; of a truth value 0.
pub fn lowest(s: Scalar) -> i64
    ensures { result ≡ lowest s }
{
    match s {
        Scalar::Int(b) => b.lo.mantissa,
        Scalar::Fix { bounds, .. } => bounds.lo.mantissa,
        Scalar::Bool { .. } => 0,
    }
}

/// The high end of a scalar's range, as a mantissa; of a truth value 1.
pub fn greatest(s: Scalar) -> i64
    ensures { result ≡ greatest s }
{
    match s {
        Scalar::Int(b) => b.hi.mantissa,
        Scalar::Fix { bounds, .. } => bounds.hi.mantissa,
        Scalar::Bool { .. } => 1,
    }
}

/// A written value as a number: its mantissa, or 0 or 1 for a truth value.
pub fn const_number(c: Const) -> i64
    ensures { result ≡ const_number c }
{
    match c {
        Const::Number(l) => l.mantissa,
        Const::Truth { value, .. } => i64::from(value),
    }
}
