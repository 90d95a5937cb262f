//! The numbers of declarations among those of their kind.
ghost use Rattle.std.specs.Prelude.{◌≡◌, map, IfOk};
ghost use Rattle.sot_syntax_tree.specs.TreeViews.{declaration_view};
ghost use Rattle.sot_typing.specs.Numbers.{FitLimits, HasRoom, counted, nothing_counted, numbered};
ghost use Rattle.sot_typing.specs.Numbers.{numbers_of};

use sot_rules::scalar_count;
use sot_syntax_tree::Decl;
use std::alloc::{AllocError, Global};

/// The number of a declaration among those of its sort, from 0 on, and of a topic the place of its
/// first scalar.
#[derive(Clone, Copy)]
pub struct Number {
    pub place: u32,
    pub first: u32,
}

/// How many declarations of each sort were met, and how many scalars of topics.
#[derive(Clone, Copy)]
pub struct SlotCounts {
    pub topics: u32,
    pub scalars: u32,
    pub plants: u32,
    pub nodes: u32,
    pub modules: u32,
}

// SlotCounts one more declaration, and gives its number.
fn count(counts: &mut SlotCounts, d: &Decl) -> Number
    requires { HasRoom counts.old (declaration_view d.now) }
    ensures number { result ≡ numbered counts.old (declaration_view d.now) }
    ensures counts { counts.new ≡ counted counts.old (declaration_view d.now) }
{
    match d {
        Decl::Topic(t) => {
            let number = Number {
                place: counts.topics,
                first: counts.scalars,
            };
            counts.topics += 1;
            counts.scalars += scalar_count(&t.shape) as u32;
            number
        }
        Decl::Plant(_) => {
            let place = counts.plants;
            counts.plants += 1;
            Number { place, first: 0 }
        }
        Decl::Node(_) => {
            let place = counts.nodes;
            counts.nodes += 1;
            Number { place, first: 0 }
        }
        Decl::Module(_) => {
            let place = counts.modules;
            counts.modules += 1;
            Number { place, first: 0 }
        }
    }
}

/// The numbers of these declarations, beside them.
pub fn numbers(alloc: Global, decls: &[Decl]) -> Result<Vec<Number>, AllocError>
    requires { FitLimits nothing_counted (map declaration_view decls.now) }
    ensures { IfOk result (λ v. v.items ≡ numbers_of (map declaration_view decls.now)) }
{
    let mut counts = SlotCounts {
        topics: 0,
        scalars: 0,
        plants: 0,
        nodes: 0,
        modules: 0,
    };
    let mut numbers = Vec::new(alloc);
    for d in decls {
        numbers.push(count(&mut counts, d))?;
    }
    Ok(numbers)
}
