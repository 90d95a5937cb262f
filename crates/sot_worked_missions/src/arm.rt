//! A double integrator, whose safe node stops it in time.
ghost use Rattle.std.specs.Prelude.{false, ◌≡◌, ◌≤◌, ◌<◌, ◌*◌, ◌≤ℤ◌, ◌∷◌, [], pos, negsuc, length};
ghost use Rattle.std.specs.Prelude.{IfOk};
ghost use Rattle.sot_lang.specs.declared.term.Term.{Term};
ghost use Rattle.sot_lang.specs.declared.tables.PlantInfo.{PlantInfo};
ghost use Rattle.sot_lang.specs.declared.tables.NodeInfo.{NodeInfo};
ghost use Rattle.sot_worked_missions.specs.Parts.{one_topic, whole_number};
ghost use Rattle.sot_worked_missions.specs.Double.{u_name, IsNextPlace, IsNextSpeed, IsArm, IsPush};
ghost use Rattle.sot_worked_missions.specs.Double.{IsThrust, IsPilot, IsBrake, IsDouble};
ghost use Rattle.sot_worked_missions.specs.Double.{run as run_of, falling as falling_box};
ghost use Rattle.sot_worked_missions.specs.Double.{rising as rising_box, row as row_box, rows};
ghost use Rattle.sot_worked_missions.specs.Double.{stops};

use crate::parts::{binary, choice, node, noise, number, plant, span, topic};
use sot_box::{BoxN, Interval, Region};
use sot_lang::{
    Act, ModuleInfo, NodeInfo, PlantInfo, ScalarInfo, Slot, StateInfo, Term, TopicInfo, Typed,
};
use sot_syntax_tree::{Func, Name, Op};
use std::alloc::{AllocError, Global};

fn topics(alloc: Global) -> Result<Vec<TopicInfo>, AllocError>
    ensures { IfOk result (λ v. v.items ≡ one_topic u_name 0 ∷ []) }
{
    let u = topic(alloc, b"u", 0)?;
    Ok(vec![in alloc; u]?)
}

fn scalars(alloc: Global) -> Result<Vec<ScalarInfo>, AllocError>
    ensures { IfOk result (λ v. v.items ≡ whole_number 0 (negsuc 1) (pos 2) ∷ []) }
{
    Ok(vec![in alloc; number(0, -2, 2)]?)
}

// x + v
fn next_place(alloc: Global) -> Result<Term, AllocError>
    ensures { IfOk result IsNextPlace }
{
    let plus = span(6, 14);
    binary(alloc, Op::Add, Term::Place(0), Term::Place(1), plus)
}

// (v + u) + w
fn next_speed(alloc: Global) -> Result<Term, AllocError>
    ensures { IfOk result IsNextSpeed }
{
    let (inner, outer) = (span(7, 15), span(7, 20));
    let sum = binary(alloc, Op::Add, Term::Place(1), Term::Place(2), inner)?;
    binary(alloc, Op::Add, sum, Term::Place(3), outer)
}

fn states(alloc: Global) -> Result<Vec<StateInfo>, AllocError>
    ensures { IfOk result (λ v. v.items
        ≡ record { name = 120 ∷ []; scale = 0 } ∷ record { name = 118 ∷ []; scale = 0 } ∷ []) }
{
    let x = StateInfo {
        name: Name::from_bytes(alloc, b"x")?,
        scale: 0,
    };
    let v = StateInfo {
        name: Name::from_bytes(alloc, b"v")?,
        scale: 0,
    };
    Ok(vec![in alloc; x, v]?)
}

fn next(alloc: Global) -> Result<Vec<Term>, AllocError>
    ensures { IfOk result (λ l. (x : Term) × (v : Term) × IsNextPlace x × IsNextSpeed v
        × (l.items ≡ x ∷ v ∷ [])) }
{
    let place = next_place(alloc)?;
    let speed = next_speed(alloc)?;
    Ok(vec![in alloc; place, speed]?)
}

fn arm(alloc: Global) -> Result<PlantInfo, AllocError>
    ensures { IfOk result IsArm }
{
    let states = states(alloc)?;
    let noise = noise(alloc, -1, 1)?;
    let next = next(alloc)?;
    let arm = plant(alloc, b"arm", states, Vec::new(alloc), noise, next, 0)?;
    Ok(arm)
}

fn pilot(alloc: Global) -> Result<NodeInfo, AllocError>
    ensures { IfOk result IsPilot }
{
    let reads = vec![in alloc;
        Slot::State { plant: 0, var: 0 },
        Slot::State { plant: 0, var: 1 },
    ]?;
    let node = node(alloc, b"fast", 2, reads, 0, None)?;
    Ok(node)
}

// clamp((if (arm.x > 0) then -2 else 2) - arm.v, -2, 2)
fn push(alloc: Global) -> Result<Term, AllocError>
    ensures { IfOk result IsPush }
{
    let (greater, if_word) = (span(17, 34), span(17, 24));
    let (minus, clamp) = (span(17, 55), span(17, 17));
    let above = binary(alloc, Op::Greater, Term::Place(0), Term::Number(0), greater)?;
    let aim = choice(alloc, above, Term::Number(-2), Term::Number(2), if_word)?;
    let gap = binary(alloc, Op::Sub, aim, Term::Place(1), minus)?;
    Ok(Term::Call {
        func: Func::Clamp,
        parts: vec![in alloc; gap, Term::Number(-2), Term::Number(2)]?,
        at: clamp,
    })
}

fn acts(alloc: Global) -> Result<Vec<Act>, AllocError>
    ensures { IfOk result (λ v. IsThrust v.items) }
{
    let value = push(alloc)?;
    let publish = Act::Publish {
        slot: 0,
        value,
        at: span(17, 13),
    };
    Ok(vec![in alloc; publish]?)
}

fn brake(alloc: Global) -> Result<NodeInfo, AllocError>
    ensures { IfOk result IsBrake }
{
    let acts = acts(alloc)?;
    let reads = vec![in alloc;
        Slot::State { plant: 0, var: 0 },
        Slot::State { plant: 0, var: 1 },
    ]?;
    let node = node(alloc, b"slow", 2, reads, 0, Some(acts))?;
    Ok(node)
}

// 1 + 2 + .. + s
fn run(s: u32) -> i64
    requires { s ≤ 14 }
    ensures sum { result ≡ pos (run_of s) }
    ensures bound { result ≤ℤ pos (14 * s) }
{
    let mut total = 0;
    for i in 0..s {
        total += i64::from(i + 1);
    }
    total
}

// The places at which the arm can still stop, at the speed -s.
fn falling(s: u32) -> BoxN
    requires { s ≤ 14 }
    ensures is { result ≡ falling_box s }
    ensures sides { length result ≡ 2 }
{
    let places = Interval {
        lo: run(s) - 300,
        hi: 300,
    };
    let speed = -i64::from(s);
    let speeds = Interval {
        lo: speed,
        hi: speed,
    };
    BoxN::of(&[places, speeds]).unwrap()
}

// The places at which it can, at the speed s.
fn rising(s: u32) -> BoxN
    requires { s ≤ 14 }
    ensures is { result ≡ rising_box s }
    ensures sides { length result ≡ 2 }
{
    let places = Interval {
        lo: -300,
        hi: 300 - run(s),
    };
    let speed = i64::from(s);
    let speeds = Interval {
        lo: speed,
        hi: speed,
    };
    BoxN::of(&[places, speeds]).unwrap()
}

// The box of the speed n - 14.
fn row(n: u32) -> BoxN
    requires { n < 29 }
    ensures is { result ≡ row_box n }
    ensures sides { length result ≡ 2 }
{
    if n < 14 {
        falling(14 - n)
    } else {
        rising(n - 14)
    }
}

fn safe(alloc: Global) -> Result<Region, AllocError>
    ensures { IfOk result (λ r. r ≡ record { width = 2; boxes = rows 29; settled = false }) }
{
    let mut region = Region::none(alloc, 2);
    for n in 0..29u32 {
        region.push(row(n)).map_err(|_| AllocError)?;
    }
    Ok(region)
}

// The places from `low` to `high`, at a speed of at most 2.
fn safer(alloc: Global, low: i64, high: i64) -> Result<Region, AllocError>
    requires { low ≤ℤ high }
    ensures { IfOk result (λ r. r ≡ (stops low high).safer) }
{
    let mut region = Region::none(alloc, 2);
    let places = Interval { lo: low, hi: high };
    let speeds = Interval { lo: -2, hi: 2 };
    let b = BoxN::of(&[places, speeds]).unwrap();
    region.push(b).map_err(|_| AllocError)?;
    Ok(region)
}

fn module(alloc: Global, low: i64, high: i64) -> Result<ModuleInfo, AllocError>
    requires { low ≤ℤ high }
    ensures { IfOk result (λ m. m ≡ stops low high) }
{
    Ok(ModuleInfo {
        name: Name::from_bytes(alloc, b"nav")?,
        ac: 0,
        sc: 1,
        period: 2,
        offset: 0,
        plant: 0,
        safe: safe(alloc)?,
        safer: safer(alloc, low, high)?,
    })
}

fn plants(alloc: Global) -> Result<Vec<PlantInfo>, AllocError>
    ensures { IfOk result (λ v. (arm : PlantInfo) × IsArm arm × (v.items ≡ arm ∷ [])) }
{
    let arm = arm(alloc)?;
    Ok(vec![in alloc; arm]?)
}

fn nodes(alloc: Global) -> Result<Vec<NodeInfo>, AllocError>
    ensures { IfOk result (λ v. (fast : NodeInfo) × (slow : NodeInfo) × IsPilot fast × IsBrake slow
        × (v.items ≡ fast ∷ slow ∷ [])) }
{
    let fast = pilot(alloc)?;
    let slow = brake(alloc)?;
    Ok(vec![in alloc; fast, slow]?)
}

fn modules(alloc: Global, low: i64, high: i64) -> Result<Vec<ModuleInfo>, AllocError>
    requires { low ≤ℤ high }
    ensures { IfOk result (λ v. v.items ≡ stops low high ∷ []) }
{
    let nav = module(alloc, low, high)?;
    Ok(vec![in alloc; nav]?)
}

/// The tables of a mission with one plant, an arm with a place and a speed, whose safe region has a
/// box for each of 29 speeds. Node 0, `fast`, is external, and node 1, `slow`, brings the arm back.
/// Its module trusts `fast` where the arm stands between `low` and `high` at a speed of at most 2.
pub fn double(alloc: Global, low: i64, high: i64) -> Result<Typed, AllocError>
    requires { low ≤ℤ high }
    ensures { IfOk result (IsDouble low high) }
{
    let topics = topics(alloc)?;
    let scalars = scalars(alloc)?;
    let plants = plants(alloc)?;
    let nodes = nodes(alloc)?;
    let modules = modules(alloc, low, high)?;
    Ok(Typed {
        topics,
        scalars,
        plants,
        nodes,
        modules,
    })
}
