//! Expressions with places for names.
ghost use Rattle.std.specs.Prelude.{◌≡◌, ◌≤◌, [], IfOk, false, nat_abs};
ghost use Rattle.sot_syntax_tree.specs.TreeViews.{tree_view, parts_view};
ghost use Rattle.sot_rules.specs.Sorts.{scales_misfit, operator_sort, given, call_sort};
ghost use Rattle.sot_rules.specs.Names.{reading, reading_sort};
ghost use Rattle.sot_rules.specs.Scopes.{field_in};
ghost use Rattle.sot_rules.specs.TreeSorts.{sort, sorts, is_no_scale};
ghost use Rattle.sot_rules.specs.Faults.{reading_faults, tree_faults, parts_faults};
ghost use Rattle.sot_rules.specs.declared.expressions.sort.Sort.TheVariants.{Scaled, Truthful};
ghost use Rattle.sot_typing.specs.Formulas.{formula_view, number, place, binary, rest, negated};
ghost use Rattle.sot_typing.specs.Formulas.{denied, called, rescaled, chosen};
ghost use Rattle.sot_typing.specs.Terms.{place_of, formula_of, formulas_of, sort_scale};
ghost use Rattle.sot_typing.specs.Terms.{truth_number};
ghost use Rattle.sot_typing.specs.Things.{things_in, AreFew};
ghost use Rattle.sot_typing.specs.Sorted.{formulas_view, IsSorted, AreSorted};

use crate::names::things::{Thing, named};
use sot_lang::Term;
use sot_rules::{Sort, given, operator_sort};
use sot_syntax_tree::{Expr, Func, Ident, Lit, Op};
use sot_text::Span;
use std::alloc::{AllocError, Global};

/// An expression with places for names, and its sort.
pub struct Sorted {
    pub term: Term,
    pub sort: Sort,
}

// Written by hand, so that letting one go is one call: a function that holds one over a `?` is
// proved without the variants of its term.
impl Drop for Sorted {
    fn drop(self) {
        let Sorted { term: _, sort: _ } = self;
    }
}

impl Sorted {
    /// The expression alone.
    pub fn into_term(self) -> Term
        ensures { result ≡ self.term }
    {
        let Sorted { term, sort: _ } = self;
        term
    }
}

/// The parts of a call, and the sort that they give it.
#[derive(Drop)]
pub struct SortedList {
    pub terms: Vec<Term>,
    pub sort: Sort,
}

// The count of decimals of a sort, 0 where it has none.
fn decimals(s: Sort) -> u8
    requires { sort_scale s ≤ 255 }
    ensures { result ≡ sort_scale s }
{
    match s {
        Sort::Scaled(scale) => scale as u8,
        _ => 0,
    }
}

fn literal(l: Lit) -> Sorted
    ensures { IsSorted (number l.mantissa) (Scaled l.scale) result }
{
    Sorted {
        term: Term::Number(l.mantissa),
        sort: Sort::Scaled(l.scale as u64),
    }
}

fn truth(value: bool) -> Sorted
    ensures { IsSorted (number (truth_number value)) Truthful result }
{
    Sorted {
        term: Term::Number(if value { 1 } else { 0 }),
        sort: Sort::Truthful,
    }
}

fn placed(things: &[Thing], first: &Ident, field: Option<&Ident>) -> Sorted
    requires few { AreFew (things_in things.now) }
    requires known { reading_faults (reading (things_in things.now) first.now (field_in field))
        ≡ [] }
    ensures { IsSorted (place (place_of (things_in things.now) first.now (field_in field.entry)))
        (reading_sort (reading (things_in things.now) first.now (field_in field.entry))) result }
{
    let found = named(things, first, field);
    Sorted {
        term: Term::Place(found.place as u32),
        sort: found.sort,
    }
}

// An operator at operands that fit it.
fn joined(alloc: Global, op: Op, a: Sorted, b: Sorted, at: Span) -> Result<Sorted, AllocError>
    requires fits { scales_misfit op a.sort b.sort ≡ false }
    requires decimals { sort_scale a.sort ≤ 255 }
    ensures { IfOk result (IsSorted (binary op (formula_view a.term) (formula_view b.term) at)
        (given a.sort (given b.sort (operator_sort op a.sort b.sort)))) }
{
    let sort = given(a.sort, given(b.sort, operator_sort(op, a.sort, b.sort)));
    let left = Box::new(alloc, a.into_term())?;
    let right = Box::new(alloc, b.into_term())?;
    Ok(Sorted {
        term: Term::Binary {
            op,
            left,
            right,
            at,
        },
        sort,
    })
}

fn remainder(alloc: Global, a: Sorted, by: i64, at: Span) -> Result<Sorted, AllocError>
    requires { sort_scale a.sort ≤ 255 }
    ensures { IfOk result (IsSorted (rest (formula_view a.term) by at) a.sort) }
{
    let sort = a.sort;
    let left = Box::new(alloc, a.into_term())?;
    Ok(Sorted {
        term: Term::Rest { left, by, at },
        sort,
    })
}

fn negation(alloc: Global, a: Sorted, at: Span) -> Result<Sorted, AllocError>
    requires { sort_scale a.sort ≤ 255 }
    ensures { IfOk result (IsSorted (negated (formula_view a.term) at) a.sort) }
{
    let sort = a.sort;
    let part = Box::new(alloc, a.into_term())?;
    Ok(Sorted {
        term: Term::Neg { part, at },
        sort,
    })
}

fn denial(alloc: Global, a: Sorted, at: Span) -> Result<Sorted, AllocError>
    requires { sort_scale a.sort ≤ 255 }
    ensures { IfOk result (IsSorted (denied (formula_view a.term) at) a.sort) }
{
    let sort = a.sort;
    let part = Box::new(alloc, a.into_term())?;
    Ok(Sorted {
        term: Term::Not { part, at },
        sort,
    })
}

fn change_of_scale(alloc: Global, a: Sorted, to: Lit, at: Span) -> Result<Sorted, AllocError>
    requires to { is_no_scale to ≡ false }
    requires decimals { sort_scale a.sort ≤ 255 }
    ensures { IfOk result (IsSorted
        (rescaled (formula_view a.term) (sort_scale a.sort) (nat_abs to.mantissa) at)
        (given a.sort (Scaled (nat_abs to.mantissa)))) }
{
    let from = decimals(a.sort);
    let scale = to.mantissa.unsigned_abs();
    let sort = given(a.sort, Sort::Scaled(scale));
    let part = Box::new(alloc, a.into_term())?;
    Ok(Sorted {
        term: Term::Rescale {
            part,
            from,
            to: scale as u8,
            at,
        },
        sort,
    })
}

fn chosen(alloc: Global, c: Sorted, a: Sorted, b: Sorted, at: Span) -> Result<Sorted, AllocError>
    requires { sort_scale a.sort ≤ 255 }
    ensures { IfOk result (IsSorted
        (chosen (formula_view c.term) (formula_view a.term) (formula_view b.term) at)
        (given c.sort (given b.sort a.sort))) }
{
    let sort = given(c.sort, given(b.sort, a.sort));
    let cond = Box::new(alloc, c.into_term())?;
    let yes = Box::new(alloc, a.into_term())?;
    let no = Box::new(alloc, b.into_term())?;
    Ok(Sorted {
        term: Term::If { cond, yes, no, at },
        sort,
    })
}

fn call(func: Func, parts: SortedList, at: Span) -> Sorted
    requires { sort_scale parts.sort ≤ 255 }
    ensures { IsSorted (called func (formulas_view parts.terms.items) at) parts.sort result }
{
    Sorted {
        term: Term::Call {
            func,
            parts: parts.terms,
            at,
        },
        sort: parts.sort,
    }
}

// The parts of a call.
#[cycle(term)]
fn terms(alloc: Global, things: &[Thing], parts: &[Expr]) -> Result<SortedList, AllocError>
    requires few { AreFew (things_in things.now) }
    requires faultless { parts_faults (things_in things.now) (parts_view parts.now) ≡ [] }
    ensures { IfOk result (AreSorted (formulas_of (things_in things.now) (parts_view parts.now))
        (call_sort (sorts (things_in things.now) (parts_view parts.now)))) }
{
    let mut made = SortedList {
        terms: Vec::new(alloc),
        sort: Sort::Truthful,
    };
    for part in parts {
        let a = term(alloc, things, part)?;
        made.sort = given(made.sort, a.sort);
        made.terms.push(a.into_term())?;
    }
    Ok(made)
}

/// An expression without faults, with places for the names of its owner. The sort goes along, since
/// `rescale` tells the scale that its operand has.
#[cycle(term)]
pub fn term(alloc: Global, things: &[Thing], e: &Expr) -> Result<Sorted, AllocError>
    requires few { AreFew (things_in things.now) }
    requires faultless { tree_faults (things_in things.now) (tree_view e.now) ≡ [] }
    ensures { IfOk result (IsSorted (formula_of (things_in things.now) (tree_view e.now))
        (sort (things_in things.now) (tree_view e.now))) }
{
    match e {
        Expr::Number(l) => Ok(literal(*l)),
        Expr::Truth { value, .. } => Ok(truth(*value)),
        Expr::Name(name) => Ok(placed(things, name, None)),
        Expr::Member(member) => {
            let member = member.content();
            Ok(placed(things, &member.first, Some(&member.field)))
        }
        Expr::Binary { op, operands, at } => {
            let a = term(alloc, things, &operands.left)?;
            let b = term(alloc, things, &operands.right)?;
            joined(alloc, *op, a, b, *at)
        }
        Expr::Rest { left, by, at } => {
            let a = term(alloc, things, left)?;
            remainder(alloc, a, by.content().mantissa, *at)
        }
        Expr::Neg { part, at } => {
            let a = term(alloc, things, part)?;
            negation(alloc, a, *at)
        }
        Expr::Not { part, at } => {
            let a = term(alloc, things, part)?;
            denial(alloc, a, *at)
        }
        Expr::Call { func, parts, at } => {
            let made = terms(alloc, things, parts)?;
            Ok(call(*func, made, *at))
        }
        Expr::Rescale { part, to, at } => {
            let a = term(alloc, things, part)?;
            change_of_scale(alloc, a, *to.content(), *at)
        }
        Expr::If { choice, at } => {
            let c = term(alloc, things, &choice.cond)?;
            let a = term(alloc, things, &choice.yes)?;
            let b = term(alloc, things, &choice.no)?;
            chosen(alloc, c, a, b, *at)
        }
    }
}
