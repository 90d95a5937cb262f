//! The vehicle beside a battery that is drained faster where it is far away.
ghost use Rattle.std.specs.Prelude.{false, ◌≡◌, ◌≤ℤ◌, ◌∷◌, [], pos, negsuc, IfOk};
ghost use Rattle.sot_lang.specs.declared.term.Term.{Term};
ghost use Rattle.sot_lang.specs.declared.tables.PlantInfo.{PlantInfo};
ghost use Rattle.sot_lang.specs.declared.tables.NodeInfo.{NodeInfo};
ghost use Rattle.sot_lang.specs.Line.{cmd_name};
ghost use Rattle.sot_worked_missions.specs.Parts.{one_topic, whole_number};
ghost use Rattle.sot_worked_missions.specs.Line.{IsMove, IsPos, IsFast, IsSlow, nav};
ghost use Rattle.sot_worked_missions.specs.Pair.{IsHeight, IsAway, IsToll, IsDrain, IsBattery};
ghost use Rattle.sot_worked_missions.specs.Pair.{IsCell, IsUp, IsDown, IsDescent, IsPair, stairs};
ghost use Rattle.sot_worked_missions.specs.Pair.{fly};

use crate::parts::{binary, choice, node, noise, number, plant, span, topic};
use crate::vehicle::{fast, module, moving_plant, slow};
use sot_box::{BoxN, Interval, Region};
use sot_lang::{
    Act, ModuleInfo, NodeInfo, PlantInfo, ScalarInfo, Slot, StateInfo, Term, TopicInfo, Typed,
};
use sot_syntax_tree::{Func, Name, Op};
use std::alloc::{AllocError, Global};

fn topics(alloc: Global) -> Result<Vec<TopicInfo>, AllocError>
    ensures { IfOk result (λ v. v.items ≡ one_topic cmd_name 0 ∷ one_topic (100 ∷ []) 1 ∷ []) }
{
    let cmd = topic(alloc, b"cmd", 0)?;
    let d = topic(alloc, b"d", 1)?;
    Ok(vec![in alloc; cmd, d]?)
}

fn scalars(alloc: Global) -> Result<Vec<ScalarInfo>, AllocError>
    ensures { IfOk result (λ v. v.items
        ≡ whole_number 0 (negsuc 1) (pos 2) ∷ whole_number 1 (negsuc 0) (pos 1) ∷ []) }
{
    Ok(vec![in alloc; number(0, -2, 2), number(1, -1, 1)]?)
}

// clamp(h + d, 0, 10)
fn height(alloc: Global) -> Result<Term, AllocError>
    ensures { IfOk result IsHeight }
{
    let (plus, clamp) = (span(33, 20), span(33, 12));
    let sum = binary(alloc, Op::Add, Term::Place(0), Term::Place(2), plus)?;
    Ok(Term::Call {
        func: Func::Clamp,
        parts: vec![in alloc; sum, Term::Number(0), Term::Number(10)]?,
        at: clamp,
    })
}

// abs(pos.x)
fn away(alloc: Global) -> Result<Term, AllocError>
    ensures { IfOk result IsAway }
{
    Ok(Term::Call {
        func: Func::Abs,
        parts: vec![in alloc; Term::Place(3)]?,
        at: span(34, 45),
    })
}

// if (abs(pos.x) > 20) then 1 else 0
fn toll(alloc: Global) -> Result<Term, AllocError>
    ensures { IfOk result IsToll }
{
    let (greater, outer) = (span(34, 56), span(34, 41));
    let away = away(alloc)?;
    let far = binary(alloc, Op::Greater, away, Term::Number(20), greater)?;
    let value = choice(alloc, far, Term::Number(1), Term::Number(0), outer)?;
    Ok(value)
}

// ((b - 1) - such a number) - w
fn drain(alloc: Global) -> Result<Term, AllocError>
    ensures { IfOk result IsDrain }
{
    let (inner, middle) = (span(34, 33), span(34, 38));
    let outer = span(34, 78);
    let toll = toll(alloc)?;
    let first = binary(alloc, Op::Sub, Term::Place(1), Term::Number(1), inner)?;
    let second = binary(alloc, Op::Sub, first, toll, middle)?;
    let value = binary(alloc, Op::Sub, second, Term::Place(4), outer)?;
    Ok(value)
}

// if (h > 0) then such a number else b
fn battery(alloc: Global) -> Result<Term, AllocError>
    ensures { IfOk result IsBattery }
{
    let (greater, outer) = (span(34, 18), span(34, 12));
    let flies = binary(alloc, Op::Greater, Term::Place(0), Term::Number(0), greater)?;
    let drained = drain(alloc)?;
    let value = choice(alloc, flies, drained, Term::Place(1), outer)?;
    Ok(value)
}

fn states(alloc: Global) -> Result<Vec<StateInfo>, AllocError>
    ensures { IfOk result (λ v. v.items
        ≡ record { name = 104 ∷ []; scale = 0 } ∷ record { name = 98 ∷ []; scale = 0 } ∷ []) }
{
    let h = StateInfo {
        name: Name::from_bytes(alloc, b"h")?,
        scale: 0,
    };
    let b = StateInfo {
        name: Name::from_bytes(alloc, b"b")?,
        scale: 0,
    };
    Ok(vec![in alloc; h, b]?)
}

fn next(alloc: Global) -> Result<Vec<Term>, AllocError>
    ensures { IfOk result (λ v. (height : Term) × (battery : Term)
        × IsHeight height × IsBattery battery
        × (v.items ≡ height ∷ battery ∷ [])) }
{
    let height = height(alloc)?;
    let battery = battery(alloc)?;
    Ok(vec![in alloc; height, battery]?)
}

fn cell(alloc: Global) -> Result<PlantInfo, AllocError>
    ensures { IfOk result IsCell }
{
    let states = states(alloc)?;
    let noise = noise(alloc, 0, 1)?;
    let next = next(alloc)?;
    let sees = vec![in alloc; 0]?;
    let cell = plant(alloc, b"cell", states, sees, noise, next, 1)?;
    Ok(cell)
}

fn up(alloc: Global) -> Result<NodeInfo, AllocError>
    ensures { IfOk result IsUp }
{
    let reads = vec![in alloc;
        Slot::State { plant: 1, var: 0 },
        Slot::State { plant: 1, var: 1 },
    ]?;
    let node = node(alloc, b"up", 2, reads, 1, None)?;
    Ok(node)
}

fn acts(alloc: Global) -> Result<Vec<Act>, AllocError>
    ensures { IfOk result (λ v. IsDescent v.items) }
{
    let publish = Act::Publish {
        slot: 0,
        value: Term::Number(-1),
        at: span(44, 13),
    };
    Ok(vec![in alloc; publish]?)
}

fn down(alloc: Global) -> Result<NodeInfo, AllocError>
    ensures { IfOk result IsDown }
{
    let acts = acts(alloc)?;
    let reads = vec![in alloc;
        Slot::State { plant: 1, var: 0 },
        Slot::State { plant: 1, var: 1 },
    ]?;
    let node = node(alloc, b"down", 1, reads, 1, Some(acts))?;
    Ok(node)
}

// At height h a battery of at least 3h.
fn safe(alloc: Global) -> Result<Region, AllocError>
    ensures { IfOk result (λ r. r ≡ record { width = 2; boxes = stairs 11; settled = false }) }
{
    let mut region = Region::none(alloc, 2);
    for h in 0..11u32 {
        let at = i64::from(h);
        let height = Interval { lo: at, hi: at };
        let battery = Interval {
            lo: 3 * at,
            hi: 1000,
        };
        let b = BoxN::of(&[height, battery]).unwrap();
        region.push(b).map_err(|_| AllocError)?;
    }
    Ok(region)
}

// Any height, with a battery of at least this.
fn safer(alloc: Global, low: i64) -> Result<Region, AllocError>
    requires { low ≤ℤ pos 1000 }
    ensures { IfOk result (λ r. r ≡ (fly low).safer) }
{
    let mut region = Region::none(alloc, 2);
    let height = Interval { lo: 0, hi: 10 };
    let battery = Interval { lo: low, hi: 1000 };
    let b = BoxN::of(&[height, battery]).unwrap();
    region.push(b).map_err(|_| AllocError)?;
    Ok(region)
}

fn flight(alloc: Global, low: i64) -> Result<ModuleInfo, AllocError>
    requires { low ≤ℤ pos 1000 }
    ensures { IfOk result (λ m. m ≡ fly low) }
{
    Ok(ModuleInfo {
        name: Name::from_bytes(alloc, b"fly")?,
        ac: 2,
        sc: 3,
        period: 2,
        offset: 0,
        plant: 1,
        safe: safe(alloc)?,
        safer: safer(alloc, low)?,
    })
}

// The vehicle and the battery.
fn plants(alloc: Global) -> Result<Vec<PlantInfo>, AllocError>
    ensures { IfOk result (λ v. (vehicle : PlantInfo) × (cell : PlantInfo)
        × IsPos IsMove vehicle × IsCell cell
        × (v.items ≡ vehicle ∷ cell ∷ [])) }
{
    let vehicle = moving_plant(alloc)?;
    let cell = cell(alloc)?;
    Ok(vec![in alloc; vehicle, cell]?)
}

// The nodes of the vehicle, and those of the battery.
fn nodes(alloc: Global) -> Result<Vec<NodeInfo>, AllocError>
    ensures { IfOk result (λ v. (fast : NodeInfo) × (slow : NodeInfo)
        × (up : NodeInfo) × (down : NodeInfo)
        × IsFast fast × IsSlow slow × IsUp up × IsDown down
        × (v.items ≡ fast ∷ slow ∷ up ∷ down ∷ [])) }
{
    let fast = fast(alloc)?;
    let slow = slow(alloc)?;
    let up = up(alloc)?;
    let down = down(alloc)?;
    Ok(vec![in alloc; fast, slow, up, down]?)
}

fn modules(alloc: Global, low: i64) -> Result<Vec<ModuleInfo>, AllocError>
    requires { low ≤ℤ pos 1000 }
    ensures { IfOk result (λ v. v.items ≡ nav ∷ fly low ∷ []) }
{
    let nav = module(alloc)?;
    let fly = flight(alloc, low)?;
    Ok(vec![in alloc; nav, fly]?)
}

/// The tables of a mission with two plants: the vehicle on a line, and a battery, plant 1, that is
/// drained in the air, and more where the vehicle, which it sees, is more than 20 away from 0. Node
/// 2, `up`, is external, and node 3, `down`, lets it sink. Module 1 trusts `up` where the battery
/// is at least at `low`.
pub fn pair(alloc: Global, low: i64) -> Result<Typed, AllocError>
    requires { low ≤ℤ pos 1000 }
    ensures { IfOk result (IsPair low) }
{
    let topics = topics(alloc)?;
    let scalars = scalars(alloc)?;
    let plants = plants(alloc)?;
    let nodes = nodes(alloc)?;
    let modules = modules(alloc, low)?;
    Ok(Typed {
        topics,
        scalars,
        plants,
        nodes,
        modules,
    })
}
