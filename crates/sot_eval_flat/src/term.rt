//! Expressions as instructions.

ghost use Rattle.std.specs.Prelude.{◌≡◌, ◌+◌, ◌<◌, ◌≤◌, [], ◌∷◌, ◌++◌, List, IfOk, length};
ghost use Rattle.sot_syntax_tree.specs.Functions.{arity};
ghost use Rattle.sot_lang.specs.TermPlaces.{HasPlaces, HavePlaces};
ghost use Rattle.sot_eval_flat.specs.declared.instruction.Instruction.{Instruction};
ghost use Rattle.sot_eval_flat.specs.Shapes.{Gives, Reckons, ReckonsCall};

use crate::instruction::{Instruction, Make, make_of};
use crate::scaling::scale_change;
use crate::shape::Shape;
use crate::unfit::Unfit;
use sot_lang::Term;
use sot_syntax_tree::Func;

// One more instruction.
fn emit(
    line: &mut Vec<Instruction>,
    make: Make,
    base: usize,
    a: u8,
    b: u8,
    c: u8,
    counts: u8,
) -> Result<u8, Unfit>
    requires { base ≤ 255 }
    ensures { IfOk result (λ place. (place ≡ base) × (line.new.items ≡ line.old.items
        ++ (record { make = make; to = base; a = a; b = b; c = c; counts = counts }) ∷ [])) }
{
    let to = base as u8;
    line.push(Instruction {
        make,
        to,
        a,
        b,
        c,
        counts,
    })?;
    Ok(to)
}

// Further places are left free above this one.
const MOST_DEEP: usize = 250;

// Both sides of a condition are computed where they are short.
const LONG: usize = 24;

/// Appends instructions for an expression, and answers the place that then holds its value. Places
/// below `base` stay.
pub fn compile_all(
    term: &Term,
    shape: &Shape,
    base: usize,
    line: &mut Vec<Instruction>,
) -> Result<u8, Unfit>
    requires places { HasPlaces shape.now.names term.now }
    requires behind { shape.now.names + length shape.now.constants.items ≤ base }
    ensures { IfOk result (λ place. (added : List Instruction)
        × (line.new.items ≡ line.old.items ++ added)
        × Gives shape.now.names shape.now.constants.items base term.now added place) }
{
    let counts = shape.place_of(1)?;
    compile(term, shape, counts, base, line)
}

// Appends instructions for an expression whose traps count only if the number at the place
// `counts` is true, and answers the place that then holds its value.
#[cycle(compile)]
fn compile(
    term: &Term,
    shape: &Shape,
    counts: u8,
    base: usize,
    line: &mut Vec<Instruction>,
) -> Result<u8, Unfit>
    requires places { HasPlaces shape.now.names term.now }
    requires behind { shape.now.names + length shape.now.constants.items ≤ base }
    requires counts { counts < base }
    ensures { IfOk result (λ place. (added : List Instruction)
        × (line.new.items ≡ line.old.items ++ added)
        × Reckons shape.now.names shape.now.constants.items counts base term.now added place) }
{
    if base > MOST_DEEP {
        return Err(Unfit::Wide);
    }
    match term {
        Term::Number(z) => shape.place_of(*z),
        Term::Place(n) => Ok(*n as u8),
        Term::Binary {
            op,
            left,
            right,
            ..
        } => {
            let a = compile(left, shape, counts, base, line)?;
            let b = compile(right, shape, counts, base + 1, line)?;
            emit(line, make_of(*op), base, a, b, b, counts)
        }
        Term::Rest { left, by, .. } => {
            let a = compile(left, shape, counts, base, line)?;
            let b = shape.place_of(*by)?;
            emit(line, Make::Rest, base, a, b, b, counts)
        }
        Term::Neg { part, .. } => {
            let a = compile(part, shape, counts, base, line)?;
            emit(line, Make::Neg, base, a, a, a, counts)
        }
        Term::Not { part, .. } => {
            let a = compile(part, shape, counts, base, line)?;
            emit(line, Make::Not, base, a, a, a, counts)
        }
        Term::Call { func, parts, .. } => compile_call(*func, parts, shape, counts, base, line),
        Term::Rescale { part, from, to, .. } => {
            let a = compile(part, shape, counts, base, line)?;
            let scaling = scale_change(*from, *to);
            let b = shape.place_of(scaling.by)?;
            emit(line, scaling.make, base, a, b, b, counts)
        }
        Term::If { cond, yes, no, .. } => {
            let a = compile(cond, shape, counts, base, line)?;
            let before = line.len();
            let first = emit(line, Make::And, base + 1, counts, a, a, counts)?;
            let b = compile(yes, shape, first, base + 2, line)?;
            let second = emit(line, Make::Without, base + 3, counts, a, a, counts)?;
            let c = compile(no, shape, second, base + 4, line)?;
            if line.len().saturating_sub(before) > LONG {
                return Err(Unfit::Wide);
            }
            emit(line, Make::Select, base, a, b, c, counts)
        }
    }
}

// Appends instructions for a call of a function whose traps count only if the number at the place
// `counts` is true, and answers the place that then holds its value.
#[cycle(compile)]
fn compile_call(
    func: Func,
    parts: &Vec<Term>,
    shape: &Shape,
    counts: u8,
    base: usize,
    line: &mut Vec<Instruction>,
) -> Result<u8, Unfit>
    requires parts { HavePlaces shape.now.names parts.now.items }
    requires arity { length parts.now.items ≡ arity func }
    requires behind { shape.now.names + length shape.now.constants.items ≤ base }
    requires counts { counts < base }
    requires deep { base ≤ 250 }
    ensures { IfOk result (λ place. (added : List Instruction)
        × (line.new.items ≡ line.old.items ++ added)
        × ReckonsCall shape.now.names shape.now.constants.items counts base func
        parts.now.items added place) }
{
    match func {
        Func::Min => {
            let a = compile(&parts[0], shape, counts, base, line)?;
            let b = compile(&parts[1], shape, counts, base + 1, line)?;
            emit(line, Make::Min, base, a, b, b, counts)
        }
        Func::Max => {
            let a = compile(&parts[0], shape, counts, base, line)?;
            let b = compile(&parts[1], shape, counts, base + 1, line)?;
            emit(line, Make::Max, base, a, b, b, counts)
        }
        Func::Abs => {
            let a = compile(&parts[0], shape, counts, base, line)?;
            emit(line, Make::Abs, base, a, a, a, counts)
        }
        Func::Clamp => {
            let a = compile(&parts[0], shape, counts, base, line)?;
            let b = compile(&parts[1], shape, counts, base + 1, line)?;
            let c = compile(&parts[2], shape, counts, base + 2, line)?;
            emit(line, Make::Clamp, base, a, b, c, counts)
        }
    }
}
