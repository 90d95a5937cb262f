//! The sort of an expression, and the faults inside it.
ghost use Rattle.std.specs.Prelude.{◌≡◌, ◌||◌, ◌++◌, fold, nat_abs};
ghost use Rattle.sot_syntax_tree.specs.TreeViews.{tree_view, parts_view};
ghost use Rattle.sot_rules.specs.Sorts.{unless, given, kinds_misfit, scales_misfit, operator_sort};
ghost use Rattle.sot_rules.specs.Sorts.{differ, branches_misfit, is_truthful, is_scaled};
ghost use Rattle.sot_rules.specs.Names.{reading_sort};
ghost use Rattle.sot_rules.specs.declared.expressions.sort.Sort.TheVariants.{Scaled};
ghost use Rattle.sot_rules.specs.declared.fault.TypeKind.TheVariants.{KindDiffers, ScaleDiffers};
ghost use Rattle.sot_rules.specs.TreeSorts.{sort, sorts, is_zero, is_no_scale};
ghost use Rattle.sot_rules.specs.Faults.{least, when, misfits, reading_faults, tree_faults};
ghost use Rattle.sot_rules.specs.Faults.{parts_faults};
ghost use Rattle.sot_rules.specs.Scopes.{names_in, answer};
ghost use Rattle.sot_rules.specs.Operands.{no_operand, with_operand};

use crate::expressions::operands::Operands;
use crate::expressions::sort::{
    Sort, branches_misfit, differ, given, is_no_scale, is_scaled, is_truthful, kinds_misfit,
    operator_sort, scales_misfit, unless,
};
use crate::fault::{TypeFault, TypeKind, note};
use crate::names::scope::{Names, reading};
use sot_syntax_tree::{Expr, Lit, Op};
use sot_text::Span;

/// The two rules on operands.
#[tactic(auto, using(crate::proofs::Least::least_append))]
pub fn note_misfits(first: &mut Option<TypeFault>, kind: bool, scale: bool, at: Span)
    ensures { first.new ≡ least first.old (misfits kind scale at) }
{
    note(first, kind, at, TypeKind::KindDiffers);
    note(first, scale, at, TypeKind::ScaleDiffers);
}

/// What a name gives; one that is at fault may be anything.
pub fn note_reading(reading: Result<Sort, Span>, first: &mut Option<TypeFault>) -> Sort
    ensures sort { result ≡ reading_sort (answer reading) }
    ensures noted { first.new ≡ least first.old (reading_faults (answer reading)) }
{
    match reading {
        Ok(s) => s,
        Err(at) => {
            note(first, true, at, TypeKind::Unknown);
            Sort::Anything
        }
    }
}

// An operator at its operands.
fn apply(op: Op, a: Sort, b: Sort, at: Span, first: &mut Option<TypeFault>) -> Sort
    ensures sort { result ≡ unless (kinds_misfit op a b || scales_misfit op a b)
        (given a (given b (operator_sort op a b))) }
    ensures noted { first.new
        ≡ least first.old (misfits (kinds_misfit op a b) (scales_misfit op a b) at) }
{
    let kind = kinds_misfit(op, a, b);
    let scale = scales_misfit(op, a, b);
    note_misfits(first, kind, scale, at);
    if kind || scale {
        return Sort::Anything;
    }
    given(a, given(b, operator_sort(op, a, b)))
}

// `%` at its operand and its number.
#[tactic(auto, using(crate::proofs::Least::least_append))]
fn rest(a: Sort, by: Lit, at: Span, first: &mut Option<TypeFault>) -> Sort
    ensures sort { result ≡ unless (is_truthful a || (differ a (Scaled by.scale) || is_zero by)) a }
    ensures noted { first.new
        ≡ least first.old (misfits (is_truthful a) (differ a (Scaled by.scale)) at
        ++ when (is_zero by) by.at KindDiffers) }
{
    let kind = is_truthful(a);
    let scale = differ(a, Sort::Scaled(by.scale as u64));
    let zero = by.mantissa == 0;
    note_misfits(first, kind, scale, at);
    note(first, zero, by.at, TypeKind::KindDiffers);
    unless(kind || (scale || zero), a)
}

// `rescale` at its operand and its number.
#[tactic(auto, using(crate::proofs::Least::least_append))]
fn rescale(a: Sort, to: Lit, at: Span, first: &mut Option<TypeFault>) -> Sort
    ensures sort { result ≡ unless (is_truthful a || is_no_scale to)
        (given a (Scaled (nat_abs to.mantissa))) }
    ensures noted { first.new
        ≡ least first.old (when (is_truthful a) at KindDiffers
        ++ when (is_no_scale to) to.at ScaleDiffers) }
{
    let kind = is_truthful(a);
    let scale = is_no_scale(to);
    note(first, kind, at, TypeKind::KindDiffers);
    note(first, scale, to.at, TypeKind::ScaleDiffers);
    unless(
        kind || scale,
        given(a, Sort::Scaled(to.mantissa.unsigned_abs())),
    )
}

// A negation at its operand.
fn negate(a: Sort, at: Span, first: &mut Option<TypeFault>) -> Sort
    ensures sort { result ≡ unless (is_truthful a) a }
    ensures noted { first.new ≡ least first.old (when (is_truthful a) at KindDiffers) }
{
    let kind = is_truthful(a);
    note(first, kind, at, TypeKind::KindDiffers);
    unless(kind, a)
}

// `not` at its operand.
fn deny(a: Sort, at: Span, first: &mut Option<TypeFault>) -> Sort
    ensures sort { result ≡ unless (is_scaled a) a }
    ensures noted { first.new ≡ least first.old (when (is_scaled a) at KindDiffers) }
{
    let kind = is_scaled(a);
    note(first, kind, at, TypeKind::KindDiffers);
    unless(kind, a)
}

// A call at its operands.
fn call(o: Operands, at: Span, first: &mut Option<TypeFault>) -> Sort
    ensures sort { result ≡ unless (o.truth || o.differ) o.sort }
    ensures noted { first.new ≡ least first.old (misfits o.truth o.differ at) }
{
    note_misfits(first, o.truth, o.differ, at);
    unless(o.truth || o.differ, o.sort)
}

// An `if` at its condition and its branches.
fn choose(c: Sort, a: Sort, b: Sort, at: Span, first: &mut Option<TypeFault>) -> Sort
    ensures sort { result ≡ unless (branches_misfit c a b || differ a b) (given c (given b a)) }
    ensures noted { first.new ≡ least first.old (misfits (branches_misfit c a b) (differ a b) at) }
{
    let kind = branches_misfit(c, a, b);
    let scale = differ(a, b);
    note_misfits(first, kind, scale, at);
    unless(kind || scale, given(c, given(b, a)))
}

// The operands of a call.
#[cycle(expression)]
fn operands(parts: &[Expr], names: &Names, first: &mut Option<TypeFault>) -> Operands
    ensures sorts { result ≡ fold with_operand no_operand
        (sorts (names_in names.now) (parts_view parts.now)) }
    ensures noted { first.new
        ≡ least first.old (parts_faults (names_in names.now) (parts_view parts.now)) }
{
    let mut o = Operands::none();
    for part in parts {
        let a = expression(part, names, first);
        o = o.with(a);
    }
    o
}

/// The sort of an expression, with its first fault noted.
#[cycle(expression)]
#[tactic(auto, using(crate::proofs::Least::least_append))]
pub fn expression(e: &Expr, names: &Names, first: &mut Option<TypeFault>) -> Sort
    ensures sort { result ≡ sort (names_in names.now) (tree_view e.now) }
    ensures noted { first.new
        ≡ least first.old (tree_faults (names_in names.now) (tree_view e.now)) }
{
    match e {
        Expr::Number(l) => Sort::Scaled(l.scale as u64),
        Expr::Truth { .. } => Sort::Truthful,
        Expr::Name(name) => note_reading(reading(names, name, None), first),
        Expr::Member(member) => {
            let member = member.content();
            note_reading(reading(names, &member.first, Some(&member.field)), first)
        }
        Expr::Binary { op, operands, at } => {
            let a = expression(&operands.left, names, first);
            let b = expression(&operands.right, names, first);
            apply(*op, a, b, *at, first)
        }
        Expr::Rest { left, by, at } => {
            let a = expression(left, names, first);
            rest(a, *by.content(), *at, first)
        }
        Expr::Neg { part, at } => {
            let a = expression(part, names, first);
            negate(a, *at, first)
        }
        Expr::Not { part, at } => {
            let a = expression(part, names, first);
            deny(a, *at, first)
        }
        Expr::Call { parts, at, .. } => {
            let o = operands(parts, names, first);
            call(o, *at, first)
        }
        Expr::Rescale { part, to, at } => {
            let a = expression(part, names, first);
            rescale(a, *to.content(), *at, first)
        }
        Expr::If { choice, at } => {
            let c = expression(&choice.cond, names, first);
            let a = expression(&choice.yes, names, first);
            let b = expression(&choice.no, names, first);
            choose(c, a, b, *at, first)
        }
    }
}
