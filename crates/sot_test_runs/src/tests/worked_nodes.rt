//! The nodes and the plant of worked missions, run. What they should do was worked out by hand.
ghost use Rattle.std.specs.Prelude.{◌≡◌, ◌∷◌, []};
ghost use Rattle.sot_code.specs.Recorded.{MayRun};

use super::same;
use super::worlds::at;
use sot_box::Point;
use sot_code::{Locals, Seen, plant_next, run_node};
use sot_lang::{Trap, TrapKind, Typed};
use sot_text::Span;
use sot_worked_missions::{divide, line};
use std::alloc::{AllocError, Global};
use std::process::Abort;

// One number that a node reads.
#[derive(Clone, Copy)]
struct One {
    number: i64,
}

impl Seen for One {
    ghost numbers = { λ s. s.number ∷ [] };

    fn read(&self, i: usize) -> i64 {
        self.number
    }
}

type Drafted = Result<Option<i64>, Trap>;

// What a node with no locals drafts first where it reads this number.
fn drafted(p: &Typed, node: u32, number: i64) -> Drafted
    requires { MayRun p.now node (number ∷ []) [] }
{
    let locals = Locals::of(&[]).unwrap();
    match run_node(p, node, &One { number }, &locals) {
        Ok(fired) => Ok(fired.draft.get(0)),
        Err(trap) => Err(trap),
    }
}

// What `calc` drafts where it reads this number.
fn calc(alloc: Global, n: i64) -> Result<Drafted, AllocError> {
    let p = divide(alloc)?;
    Ok(drafted(&p, 0, n))
}

// What `slow` drafts where the vehicle is here.
fn slow(alloc: Global, x: i64) -> Result<Drafted, AllocError> {
    let p = line(alloc)?;
    Ok(drafted(&p, 1, x))
}

// Where the vehicle is next.
fn moved(alloc: Global, x: i64, cmd: i64, w: i64) -> Result<Result<Point, Trap>, AllocError> {
    let p = line(alloc)?;
    Ok(plant_next(&p, 0, &at(x), &[cmd], &[], &[w]))
}

// Where `calc` divides.
const DIVISION: Span = Span {
    line: 7,
    column: 20,
};

fn calc_drafts(rt: &impl Abort, alloc: Global, n: i64, wanted: Drafted) {
    same(rt, n, calc(alloc, n).expect(rt, "memory"), wanted);
}

fn slow_drafts(rt: &impl Abort, alloc: Global, x: i64, wanted: i64) {
    same(rt, x, slow(alloc, x).expect(rt, "memory"), Ok(Some(wanted)));
}

#[test]
fn nodes_draft_and_trap(rt: HostRuntime) {
    let alloc = rt.alloc();
    let zero = Trap {
        at: DIVISION,
        kind: TrapKind::ZeroDivisor,
    };
    calc_drafts(&rt, alloc, 3, Ok(Some(3)));
    calc_drafts(&rt, alloc, 0, Err(zero));
    slow_drafts(&rt, alloc, 12, -2);
    slow_drafts(&rt, alloc, 0, 0);
    slow_drafts(&rt, alloc, -12, 2);
}

#[test]
fn a_vehicle_moves(rt: HostRuntime) {
    let next = moved(rt.alloc(), 10, 2, 1).expect(&rt, "memory");
    same(&rt, "next", next, Ok(at(13)));
}

#[test]
fn locals_are_at_most_sixteen(rt: HostRuntime) {
    same(&rt, 16, Locals::of(&[7; 16]).is_some(), true);
    same(&rt, 17, Locals::of(&[7; 17]).is_none(), true);
}
