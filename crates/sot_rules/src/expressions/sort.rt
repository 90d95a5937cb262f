//! Sorts: when two of them fit, and what the operators make of them.
ghost use Rattle.std.specs.Prelude.{◌≡◌, false};
ghost use Rattle.sot_rules.specs.Sorts.{scale_sort, is_truthful, is_scaled, differ, are_mixed};
ghost use Rattle.sot_rules.specs.Sorts.{kinds_misfit, scales_misfit, operator_sort, unless, given};
ghost use Rattle.sot_rules.specs.Sorts.{branches_misfit};
ghost use Rattle.sot_rules.specs.TreeSorts.{has_decimals, is_no_scale};

use sot_syntax_tree::{Lit, Op};

/// What an expression gives: a number with so many decimals, a truth value, or anything, where a
/// fault is inside it.
#[derive(Clone, Copy, Debug, PartialEq, Eq)]
pub enum Sort {
    Scaled(u64),
    Truthful,
    Anything,
}

pub fn is_truthful(a: Sort) -> bool
    ensures { result ≡ is_truthful a }
{
    match a {
        Sort::Truthful => true,
        _ => false,
    }
}

pub fn is_scaled(a: Sort) -> bool
    ensures { result ≡ is_scaled a }
{
    match a {
        Sort::Scaled(_) => true,
        _ => false,
    }
}

/// Two numbers of different scales.
pub fn differ(a: Sort, b: Sort) -> bool
    ensures { result ≡ differ a b }
{
    match a {
        Sort::Scaled(s) => match b {
            Sort::Scaled(t) => s != t,
            _ => false,
        },
        _ => false,
    }
}

/// A truth value and a number.
pub fn are_mixed(a: Sort, b: Sort) -> bool
    ensures { result ≡ are_mixed a b }
{
    (is_truthful(a) && is_scaled(b)) || (is_scaled(a) && is_truthful(b))
}

/// The sort, or anything where a rule fails.
pub fn unless(fails: bool, s: Sort) -> Sort
    ensures { result ≡ unless fails s }
{
    if fails { Sort::Anything } else { s }
}

/// The second sort, or anything where the first one is.
pub fn given(a: Sort, s: Sort) -> Sort
    ensures { result ≡ given a s }
{
    match a {
        Sort::Anything => Sort::Anything,
        _ => s,
    }
}

pub fn kinds_misfit(op: Op, a: Sort, b: Sort) -> bool
    ensures { result ≡ kinds_misfit op a b }
{
    match op {
        Op::And => is_scaled(a) || is_scaled(b),
        Op::Or => is_scaled(a) || is_scaled(b),
        _ => is_truthful(a) || is_truthful(b),
    }
}

pub fn scales_misfit(op: Op, a: Sort, b: Sort) -> bool
    ensures { result ≡ scales_misfit op a b }
{
    match op {
        Op::And => false,
        Op::Or => false,
        Op::Mul => match a {
            Sort::Scaled(s) => match b {
                Sort::Scaled(t) => s > 6 || t > 6 - s,
                _ => false,
            },
            _ => false,
        },
        Op::Div => match a {
            Sort::Scaled(s) => match b {
                Sort::Scaled(t) => s < t,
                _ => false,
            },
            _ => false,
        },
        _ => differ(a, b),
    }
}

/// What an operator gives, of operands that fit it.
pub fn operator_sort(op: Op, a: Sort, b: Sort) -> Sort
    requires { scales_misfit op a b ≡ false }
    ensures { result ≡ operator_sort op a b }
{
    match op {
        Op::Add => a,
        Op::Sub => a,
        Op::Mul => match a {
            Sort::Scaled(s) => match b {
                Sort::Scaled(t) => Sort::Scaled(s + t),
                _ => Sort::Anything,
            },
            _ => Sort::Anything,
        },
        Op::Div => match a {
            Sort::Scaled(s) => match b {
                Sort::Scaled(t) => Sort::Scaled(s - t),
                _ => Sort::Anything,
            },
            _ => Sort::Anything,
        },
        _ => Sort::Truthful,
    }
}

pub fn branches_misfit(c: Sort, a: Sort, b: Sort) -> bool
    ensures { result ≡ branches_misfit c a b }
{
    is_scaled(c) || are_mixed(a, b)
}

pub fn has_decimals(l: Lit) -> bool
    ensures { result ≡ has_decimals l }
{
    l.scale != 0
}

/// A written count of decimals that is not 0 to 6.
pub fn is_no_scale(d: Lit) -> bool
    ensures { result ≡ is_no_scale d }
{
    has_decimals(d) || d.mantissa.unsigned_abs() > 6
}

/// What a written count of decimals says.
pub fn scale_sort(d: Lit) -> Sort
    ensures { result ≡ scale_sort d }
{
    if has_decimals(d) {
        Sort::Anything
    } else {
        Sort::Scaled(d.mantissa.unsigned_abs())
    }
}
