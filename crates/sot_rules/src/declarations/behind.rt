//! What stands behind a place of the text. Once a fault is known, no fault behind it is the first
//! one.
ghost use Rattle.std.specs.Prelude.{◌≡◌, ◌&&◌, map};
ghost use Rattle.sot_syntax_tree.specs.TreeViews.{local_view, next_view};
ghost use Rattle.sot_rules.specs.Behind.{bounds_behind, scalar_behind, local_behind, locals_behind};
ghost use Rattle.sot_rules.specs.Behind.{nexts_behind, noise_behind};

use crate::declarations::range::const_place;
use crate::expressions::behind::is_tree_behind;
use crate::fault::is_behind;
use sot_syntax_tree::{Bounds, Field, LocalDecl, NextDecl, Scalar};
use sot_text::Span;

fn are_bounds_behind(b: Bounds, from: Span) -> bool
    ensures { result ≡ bounds_behind from b }
{
    is_behind(b.lo.at, from) && is_behind(b.hi.at, from)
}

fn is_scalar_behind(s: Scalar, from: Span) -> bool
    ensures { result ≡ scalar_behind from s }
{
    match s {
        Scalar::Int(b) => are_bounds_behind(b, from),
        Scalar::Fix { scale, bounds } => {
            is_behind(scale.at, from) && are_bounds_behind(bounds, from)
        }
        Scalar::Bool { .. } => true,
    }
}

fn is_local_behind(l: &LocalDecl, from: Span) -> bool
    ensures { result ≡ local_behind from (local_view l.now) }
{
    is_behind(l.name.at, from)
        && (is_scalar_behind(l.scalar, from) && is_behind(const_place(l.init), from))
}

/// Whether all locals of a list stand behind a place, with their types and initial values.
pub fn are_locals_behind(locals: &[LocalDecl], from: Span) -> bool
    ensures { result ≡ locals_behind from (map local_view locals.now) }
{
    for l in locals {
        if !is_local_behind(l, from) {
            return false;
        }
    }
    true
}

/// Whether all `next` clauses of a list stand behind a place.
pub fn are_nexts_behind(next: &[NextDecl], from: Span) -> bool
    ensures { result ≡ nexts_behind from (map next_view next.now) }
{
    for n in next {
        if !is_behind(n.name.at, from) {
            return false;
        }
        if !is_tree_behind(&n.value, from) {
            return false;
        }
    }
    true
}

/// Whether all disturbances of a list stand behind a place.
pub fn is_noise_behind(noise: &[Field], from: Span) -> bool
    ensures { result ≡ noise_behind from noise.now }
{
    for f in noise {
        if !is_behind(f.name.at, from) {
            return false;
        }
        if !is_scalar_behind(f.scalar, from) {
            return false;
        }
    }
    true
}
