//! The faults of ranges, scalars, initial values and times.
ghost use Rattle.std.specs.Prelude.{◌≡◌, ◌-ℤ◌, ◌+ℤ◌, pos};
ghost use Rattle.sot_rules.specs.Sorts.{scalar_sort, const_sort};
ghost use Rattle.sot_rules.specs.Tests.{is_empty, is_wide, is_outside, sort_is, starts_outside};
ghost use Rattle.sot_rules.specs.Tests.{const_place, is_late};
ghost use Rattle.sot_rules.specs.Faults.{least, bounds_faults, scalar_faults, start_faults};
ghost use Rattle.sot_rules.specs.Faults.{times_faults};

use crate::expressions::sort::{Sort, differ, has_decimals, is_no_scale, scale_sort};
use crate::fault::{TypeFault, TypeKind, note};
use crate::statements::statement::{is_off, note_target};
use sot_syntax_tree::{Bounds, Const, Lit, Scalar};
use sot_text::Span;

// Ends of one scale, of which the lower is above the upper.
fn is_empty(b: Bounds) -> bool
    ensures { result ≡ is_empty b }
{
    b.lo.scale == b.hi.scale && b.hi.mantissa < b.lo.mantissa
}

// How many numbers there are between two ends, with both of them.
fn width(b: Bounds) -> i128
    ensures { result ≡ (b.hi.mantissa -ℤ b.lo.mantissa) +ℤ pos 1 }
{
    let between = i128::from(b.hi.mantissa) - i128::from(b.lo.mantissa);
    between + 1
}

// Ends of one scale, with more than 2^32 numbers.
fn is_wide(b: Bounds) -> bool
    ensures { result ≡ is_wide b }
{
    b.lo.scale == b.hi.scale && width(b) > 4_294_967_296
}

// A number that is not within ends of its scale.
fn is_outside(b: Bounds, l: Lit) -> bool
    ensures { result ≡ is_outside b l }
{
    (b.lo.scale == l.scale && b.hi.scale == l.scale)
        && (l.mantissa < b.lo.mantissa || b.hi.mantissa < l.mantissa)
}

/// A range of numbers of a sort; where it is limited, its width counts too.
#[tactic(auto, using(crate::proofs::Least::least_append))]
pub fn note_bounds(limited: bool, s: Sort, b: Bounds, first: &mut Option<TypeFault>)
    ensures { first.new ≡ least first.old (bounds_faults limited s b) }
{
    let low = differ(s, Sort::Scaled(b.lo.scale as u64));
    let high = differ(s, Sort::Scaled(b.hi.scale as u64));
    note(first, low, b.lo.at, TypeKind::ScaleDiffers);
    note(first, high, b.hi.at, TypeKind::ScaleDiffers);
    note(first, is_empty(b), b.lo.at, TypeKind::RangeEmpty);
    note(first, limited && is_wide(b), b.lo.at, TypeKind::RangeWide);
}

/// The type of a scalar.
#[tactic(auto, using(crate::proofs::Least::least_append))]
pub fn note_scalar(limited: bool, s: Scalar, first: &mut Option<TypeFault>)
    ensures { first.new ≡ least first.old (scalar_faults limited s) }
{
    match s {
        Scalar::Int(b) => note_bounds(limited, Sort::Scaled(0), b, first),
        Scalar::Fix { scale, bounds } => {
            note(first, is_no_scale(scale), scale.at, TypeKind::ScaleDiffers);
            note_bounds(limited, scale_sort(scale), bounds, first);
        }
        Scalar::Bool { .. } => {}
    }
}

/// What a scalar's type says of its sort.
pub fn scalar_sort(s: Scalar) -> Sort
    ensures { result ≡ scalar_sort s }
{
    match s {
        Scalar::Int(_) => Sort::Scaled(0),
        Scalar::Fix { scale, .. } => scale_sort(scale),
        Scalar::Bool { .. } => Sort::Truthful,
    }
}

fn const_sort(c: Const) -> Sort
    ensures { result ≡ const_sort c }
{
    match c {
        Const::Number(l) => Sort::Scaled(l.scale as u64),
        Const::Truth { .. } => Sort::Truthful,
    }
}

/// Where a written value stands.
pub fn const_place(c: Const) -> Span
    ensures { result ≡ const_place c }
{
    match c {
        Const::Number(l) => l.at,
        Const::Truth { at, .. } => at,
    }
}

fn sort_is(s: Sort, scale: u8) -> bool
    ensures { result ≡ sort_is s scale }
{
    match s {
        Sort::Scaled(t) => t == scale as u64,
        _ => false,
    }
}

// An initial value of its scalar's scale, outside the range.
fn starts_outside(s: Scalar, c: Const) -> bool
    ensures { result ≡ starts_outside s c }
{
    match c {
        Const::Number(l) => match s {
            Scalar::Int(b) => sort_is(Sort::Scaled(0), l.scale) && is_outside(b, l),
            Scalar::Fix { scale, bounds } => {
                sort_is(scale_sort(scale), l.scale) && is_outside(bounds, l)
            }
            Scalar::Bool { .. } => false,
        },
        Const::Truth { .. } => false,
    }
}

/// The initial value of a scalar.
#[tactic(auto, using(crate::proofs::Least::least_append))]
pub fn note_start(s: Scalar, c: Const, first: &mut Option<TypeFault>)
    ensures { first.new ≡ least first.old (start_faults s c) }
{
    let wanted = Ok(scalar_sort(s));
    note_target(wanted, const_sort(c), const_place(c), first);
    note(
        first,
        starts_outside(s, c),
        const_place(c),
        TypeKind::InitOutside,
    );
}

// Whole numbers, of which the offset is not below the period.
fn is_late(period: Lit, offset: Lit) -> bool
    ensures { result ≡ is_late period offset }
{
    period.scale == 0 && (offset.scale == 0 && period.mantissa <= offset.mantissa)
}

/// A period and an offset.
#[tactic(auto, using(crate::proofs::Least::least_append))]
pub fn note_times(period: Lit, offset: Lit, first: &mut Option<TypeFault>)
    ensures { first.new ≡ least first.old (times_faults period offset) }
{
    note(
        first,
        has_decimals(period),
        period.at,
        TypeKind::ScaleDiffers,
    );
    note(
        first,
        has_decimals(offset),
        offset.at,
        TypeKind::ScaleDiffers,
    );
    note(first, is_off(period), period.at, TypeKind::PeriodOutside);
    note(
        first,
        is_late(period, offset),
        offset.at,
        TypeKind::PeriodOutside,
    );
}
