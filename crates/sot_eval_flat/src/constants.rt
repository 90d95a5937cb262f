//! The numbers that a body states.

ghost use Rattle.std.specs.Prelude.{◌≡◌, IfOk, IfSome, Some, slice_get};
ghost use Rattle.sot_lists.specs.Places.{At};

use crate::scaling::scale_change;
use sot_lang::{Act, NodeInfo, Term, Typed};
use std::alloc::AllocError;

// Where a number stands in the list.
pub fn find(constants: &[i64], z: i64) -> Option<usize>
    ensures { IfSome result (λ k. slice_get constants.now k ≡ Some z) }
{
    constants.iter().position(|x| *x == z)
}

// Adds a number, if it is a new one.
fn add(constants: &mut Vec<i64>, z: i64) -> Result<(), AllocError> {
    if find(constants, z).is_none() {
        constants.push(z)?;
    }
    Ok(())
}

// Adds the numbers that an expression states or is computed with.
#[cycle(term)]
fn add_term(constants: &mut Vec<i64>, term: &Term) -> Result<(), AllocError> {
    match term {
        Term::Number(z) => add(constants, *z),
        Term::Place(_) => Ok(()),
        Term::Binary { left, right, .. } => {
            add_term(constants, left)?;
            add_term(constants, right)
        }
        Term::Rest { left, by, .. } => {
            add(constants, *by)?;
            add_term(constants, left)
        }
        Term::Neg { part, .. } => add_term(constants, part),
        Term::Not { part, .. } => add_term(constants, part),
        Term::Call { parts, .. } => add_terms(constants, parts),
        Term::Rescale { part, from, to, .. } => {
            add(constants, scale_change(*from, *to).by)?;
            add_term(constants, part)
        }
        Term::If { cond, yes, no, .. } => {
            add_term(constants, cond)?;
            add_term(constants, yes)?;
            add_term(constants, no)
        }
    }
}

#[cycle(term)]
fn add_terms(constants: &mut Vec<i64>, terms: &[Term]) -> Result<(), AllocError> {
    for term in terms {
        add_term(constants, term)?;
    }
    Ok(())
}

/// Adds the numbers that the expressions of statements state or are computed with.
#[cycle(act)]
pub fn add_acts(constants: &mut Vec<i64>, acts: &[Act]) -> Result<(), AllocError> {
    for act in acts {
        add_act(constants, act)?;
    }
    Ok(())
}

#[cycle(act)]
fn add_act(constants: &mut Vec<i64>, act: &Act) -> Result<(), AllocError> {
    match act {
        Act::Assign { value, .. } => add_term(constants, value),
        Act::Publish { value, .. } => add_term(constants, value),
        Act::If { cond, yes, no } => {
            add_term(constants, cond)?;
            add_acts(constants, yes)?;
            add_acts(constants, no)
        }
        Act::Repeat { body, .. } => add_acts(constants, body),
    }
}

/// The ends of the ranges of what a node assigns and writes.
pub fn add_ranges(constants: &mut Vec<i64>, p: &Typed, node: &NodeInfo) -> Result<(), AllocError> {
    for info in &node.locals {
        add(constants, info.lo)?;
        add(constants, info.hi)?;
    }
    for scalar in &node.writes {
        let Some(info) = p.scalars.get(*scalar as usize) else {
            continue;
        };
        add(constants, info.lo)?;
        add(constants, info.hi)?;
    }
    Ok(())
}
