//! A vehicle on a line, with an advanced and a safe node.
ghost use Rattle.std.specs.Prelude.{◌≡◌, ◌∷◌, [], pos, negsuc, false, IfOk};
ghost use Rattle.sot_lang.specs.declared.tables.PlantInfo.{PlantInfo};
ghost use Rattle.sot_lang.specs.declared.tables.NodeInfo.{NodeInfo};
ghost use Rattle.sot_lang.specs.Line.{cmd_name};
ghost use Rattle.sot_lang.specs.TermRules.{TermFits};
ghost use Rattle.sot_syntax_tree.specs.declared.operator.Op.TheVariants.{Less};
ghost use Rattle.sot_lang.specs.declared.term.Term.{Term};
ghost use Rattle.sot_lang.specs.declared.term.Term.TheVariants.{Number, Place};
ghost use Rattle.sot_worked_missions.specs.Parts.{one_topic, whole_number, place, IsBinary};
ghost use Rattle.sot_worked_missions.specs.Parts.{IsChoice};
ghost use Rattle.sot_worked_missions.specs.Line.{IsMove, IsDrift, IsPos, IsReturn, IsCommand};
ghost use Rattle.sot_worked_missions.specs.Line.{IsFast};
ghost use Rattle.sot_worked_missions.specs.Line.{IsSlow, IsLine, nav};

use crate::parts::{binary, choice, interval, node, noise, number, span, topic};
use sot_lang::{
    Act, ModuleInfo, NodeInfo, PlantInfo, ScalarInfo, Slot, StateInfo, Term, TopicInfo, Typed,
};
use sot_syntax_tree::{Name, Op};
use std::alloc::{AllocError, Global};

fn topics(alloc: Global) -> Result<Vec<TopicInfo>, AllocError>
    ensures { IfOk result (λ v. v.items ≡ one_topic cmd_name 0 ∷ []) }
{
    let cmd = topic(alloc, b"cmd", 0)?;
    Ok(vec![in alloc; cmd]?)
}

fn scalars(alloc: Global) -> Result<Vec<ScalarInfo>, AllocError>
    ensures { IfOk result (λ v. v.items ≡ whole_number 0 (negsuc 1) (pos 2) ∷ []) }
{
    Ok(vec![in alloc; number(0, -2, 2)]?)
}

// (x + cmd) + w
fn moved(alloc: Global) -> Result<Term, AllocError>
    ensures { IfOk result IsMove }
{
    let (inner, outer) = (span(6, 15), span(6, 22));
    let sum = binary(alloc, Op::Add, Term::Place(0), Term::Place(1), inner)?;
    binary(alloc, Op::Add, sum, Term::Place(2), outer)
}

// (x + cmd) + (w / (x - 5))
fn drifted(alloc: Global) -> Result<Term, AllocError>
    ensures { IfOk result IsDrift }
{
    let (inner, outer) = (span(6, 15), span(6, 22));
    let (minus, by) = (span(6, 32), span(6, 27));
    let sum = binary(alloc, Op::Add, Term::Place(0), Term::Place(1), inner)?;
    let gap = binary(alloc, Op::Sub, Term::Place(0), Term::Number(5), minus)?;
    let share = binary(alloc, Op::Div, Term::Place(2), gap, by)?;
    let next = binary(alloc, Op::Add, sum, share, outer)?;
    Ok(next)
}

fn states(alloc: Global) -> Result<Vec<StateInfo>, AllocError>
    ensures { IfOk result (λ v. v.items ≡ record { name = 120 ∷ []; scale = 0 } ∷ []) }
{
    let x = StateInfo {
        name: Name::from_bytes(alloc, b"x")?,
        scale: 0,
    };
    Ok(vec![in alloc; x]?)
}

fn plant(alloc: Global, next: Term) -> Result<PlantInfo, AllocError>
    ensures { IfOk result (IsPos (λ t. t ≡ next)) }
{
    let next = vec![in alloc; next]?;
    let states = states(alloc)?;
    let noise = noise(alloc, -1, 1)?;
    Ok(PlantInfo {
        name: Name::from_bytes(alloc, b"pos")?,
        states,
        inputs: vec![in alloc; 0]?,
        sees: Vec::new(alloc),
        noise,
        next,
    })
}

// The plant of the vehicle that moves by its command and its disturbance.
pub(crate) fn moving_plant(alloc: Global) -> Result<PlantInfo, AllocError>
    ensures { IfOk result (IsPos IsMove) }
{
    let next = moved(alloc)?;
    let plant = plant(alloc, next)?;
    Ok(plant)
}

pub(crate) fn fast(alloc: Global) -> Result<NodeInfo, AllocError>
    ensures { IfOk result IsFast }
{
    let reads = vec![in alloc; Slot::State { plant: 0, var: 0 }]?;
    let node = node(alloc, b"fast", 4, reads, 0, None)?;
    Ok(node)
}

// if (pos.x < -10) then 2 else 0
fn raised(alloc: Global) -> Result<Term, AllocError>
    ensures { IfOk result (λ t. (below : Term)
        × IsBinary Less (Place 0) (Number (negsuc 9)) (place 16 59) below
        × IsChoice below (Number (pos 2)) (Number (pos 0)) (place 16 49) t) }
{
    let (less, inner) = (span(16, 59), span(16, 49));
    let below = binary(alloc, Op::Less, Term::Place(0), Term::Number(-10), less)?;
    let value = choice(alloc, below, Term::Number(2), Term::Number(0), inner)?;
    Ok(value)
}

// if (pos.x > 10) then -2 else (if (pos.x < -10) then 2 else 0)
fn returned(alloc: Global) -> Result<Term, AllocError>
    ensures { IfOk result IsReturn }
{
    let (greater, outer) = (span(16, 29), span(16, 19));
    let rest = raised(alloc)?;
    let above = binary(
        alloc,
        Op::Greater,
        Term::Place(0),
        Term::Number(10),
        greater,
    )?;
    let value = choice(alloc, above, Term::Number(-2), rest, outer)?;
    Ok(value)
}

fn acts(alloc: Global) -> Result<Vec<Act>, AllocError>
    ensures { IfOk result (λ v. IsCommand v.items) }
{
    let value = returned(alloc)?;
    let publish = Act::Publish {
        slot: 0,
        value,
        at: span(16, 13),
    };
    Ok(vec![in alloc; publish]?)
}

pub(crate) fn slow(alloc: Global) -> Result<NodeInfo, AllocError>
    ensures { IfOk result IsSlow }
{
    let acts = acts(alloc)?;
    let reads = vec![in alloc; Slot::State { plant: 0, var: 0 }]?;
    let node = node(alloc, b"slow", 2, reads, 0, Some(acts))?;
    Ok(node)
}

pub(crate) fn module(alloc: Global) -> Result<ModuleInfo, AllocError>
    ensures { IfOk result (λ m. m ≡ nav) }
{
    Ok(ModuleInfo {
        name: Name::from_bytes(alloc, b"nav")?,
        ac: 0,
        sc: 1,
        period: 4,
        offset: 0,
        plant: 0,
        safe: interval(alloc, -40, 40)?,
        safer: interval(alloc, -10, 10)?,
    })
}

fn plants(alloc: Global, next: Term) -> Result<Vec<PlantInfo>, AllocError>
    ensures { IfOk result (λ v. (plant : PlantInfo) × IsPos (λ t. t ≡ next) plant
        × (v.items ≡ plant ∷ [])) }
{
    let plant = plant(alloc, next)?;
    Ok(vec![in alloc; plant]?)
}

fn nodes(alloc: Global) -> Result<Vec<NodeInfo>, AllocError>
    ensures { IfOk result (λ v. (fast : NodeInfo) × (slow : NodeInfo) × IsFast fast × IsSlow slow
        × (v.items ≡ fast ∷ slow ∷ [])) }
{
    let fast = fast(alloc)?;
    let slow = slow(alloc)?;
    Ok(vec![in alloc; fast, slow]?)
}

fn modules(alloc: Global) -> Result<Vec<ModuleInfo>, AllocError>
    ensures { IfOk result (λ v. v.items ≡ nav ∷ []) }
{
    let module = module(alloc)?;
    Ok(vec![in alloc; module]?)
}

fn tables(alloc: Global, next: Term) -> Result<Typed, AllocError>
    requires { TermFits (false ∷ false ∷ false ∷ []) next }
    ensures { IfOk result (IsLine (λ t. t ≡ next)) }
{
    let plants = plants(alloc, next)?;
    let topics = topics(alloc)?;
    let scalars = scalars(alloc)?;
    let nodes = nodes(alloc)?;
    let modules = modules(alloc)?;
    Ok(Typed {
        topics,
        scalars,
        plants,
        nodes,
        modules,
    })
}

/// The tables of a mission with one plant, a vehicle on a line, whose node 1, `slow`, commands it
/// back once it is more than 10 away from 0. Node 0, `fast`, is external.
pub fn line(alloc: Global) -> Result<Typed, AllocError>
    ensures { IfOk result (IsLine IsMove) }
{
    let next = moved(alloc)?;
    let tables = tables(alloc, next)?;
    Ok(tables)
}

/// The tables of the mission of `line` with a vehicle that divides its disturbance by how far it
/// is past 5: there its tick traps.
pub fn drifting_line(alloc: Global) -> Result<Typed, AllocError>
    ensures { IfOk result (IsLine IsDrift) }
{
    let next = drifted(alloc)?;
    let tables = tables(alloc, next)?;
    Ok(tables)
}
