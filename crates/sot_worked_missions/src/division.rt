//! A node that divides by what it reads.
ghost use Rattle.std.specs.Prelude.{◌≡◌, ◌∷◌, [], pos, false, IfOk};
ghost use Rattle.sot_lang.specs.TermRules.{TermFits};
ghost use Rattle.sot_worked_missions.specs.Parts.{one_topic, whole_number};
ghost use Rattle.sot_worked_missions.specs.Divide.{IsWhatIsRead, IsAtLeastOne, IsDivision, IsCalc};
ghost use Rattle.sot_worked_missions.specs.Divide.{IsDivide};

use crate::parts::{binary, node, number, span, topic};
use sot_lang::{Act, NodeInfo, ScalarInfo, Slot, Term, TopicInfo, Typed};
use sot_syntax_tree::{Func, Op};
use std::alloc::{AllocError, Global};

fn topics(alloc: Global) -> Result<Vec<TopicInfo>, AllocError>
    ensures { IfOk result (λ v. v.items ≡ one_topic (110 ∷ []) 0 ∷ one_topic (107 ∷ []) 1 ∷ []) }
{
    let n = topic(alloc, b"n", 0)?;
    let k = topic(alloc, b"k", 1)?;
    Ok(vec![in alloc; n, k]?)
}

fn scalars(alloc: Global) -> Result<Vec<ScalarInfo>, AllocError>
    ensures { IfOk result (λ v. v.items
        ≡ whole_number 0 (pos 0) (pos 5) ∷ whole_number 1 (pos 0) (pos 10) ∷ []) }
{
    Ok(vec![in alloc; number(0, 0, 5), number(1, 0, 10)]?)
}

// publish k = 10 / divisor
fn acts(alloc: Global, divisor: Term) -> Result<Vec<Act>, AllocError>
    ensures { IfOk result (λ v. IsDivision (λ d. d ≡ divisor) v.items) }
{
    let ten = Term::Number(10);
    let value = binary(alloc, Op::Div, ten, divisor, span(7, 20))?;
    let publish = Act::Publish {
        slot: 0,
        value,
        at: span(7, 13),
    };
    Ok(vec![in alloc; publish]?)
}

fn calc(alloc: Global, divisor: Term) -> Result<NodeInfo, AllocError>
    ensures { IfOk result (IsCalc (λ d. d ≡ divisor)) }
{
    let acts = acts(alloc, divisor)?;
    let reads = vec![in alloc; Slot::Scalar(0)]?;
    let node = node(alloc, b"calc", 1, reads, 1, Some(acts))?;
    Ok(node)
}

fn tables(alloc: Global, divisor: Term) -> Result<Typed, AllocError>
    requires { TermFits (false ∷ []) divisor }
    ensures { IfOk result (IsDivide (λ d. d ≡ divisor)) }
{
    let calc = calc(alloc, divisor)?;
    let nodes = vec![in alloc; calc]?;
    let topics = topics(alloc)?;
    let scalars = scalars(alloc)?;
    Ok(Typed {
        topics,
        scalars,
        plants: Vec::new(alloc),
        nodes,
        modules: Vec::new(alloc),
    })
}

/// The tables of a mission with one node, `calc`, that reads the scalar 0 and divides 10 by it: at
/// 0 it traps.
pub fn divide(alloc: Global) -> Result<Typed, AllocError>
    ensures { IfOk result (IsDivide IsWhatIsRead) }
{
    tables(alloc, Term::Place(0))
}

// max(n, 1)
fn at_least_one(alloc: Global) -> Result<Term, AllocError>
    ensures { IfOk result IsAtLeastOne }
{
    Ok(Term::Call {
        func: Func::Max,
        parts: vec![in alloc; Term::Place(0), Term::Number(1)]?,
        at: span(7, 22),
    })
}

/// The tables of a mission with one node, `calc`, that divides 10 by the greater one of the scalar
/// 0 and 1, so that it never traps.
pub fn divide_by_at_least_one(alloc: Global) -> Result<Typed, AllocError>
    ensures { IfOk result (IsDivide IsAtLeastOne) }
{
    let divisor = at_least_one(alloc)?;
    let tables = tables(alloc, divisor)?;
    Ok(tables)
}
