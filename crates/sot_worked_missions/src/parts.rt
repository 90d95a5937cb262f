//! Parts that the missions share: operators, choices, topics, numbers and regions.
ghost use Rattle.std.specs.Prelude.{false, ◌≡◌, ◌≤ℤ◌, ◌∷◌, [], IfOk};
ghost use Rattle.sot_text.specs.declared.token.Kind.TheVariants.{Name as NameKind};
ghost use Rattle.sot_text.specs.Lexeme.{IsTokenText};
ghost use Rattle.sot_worked_missions.specs.Parts.{one_topic, whole_number, place, IsBinary};
ghost use Rattle.sot_worked_missions.specs.Parts.{IsChoice};

use sot_box::{BoxN, Interval, Region};
use sot_lang::{Act, NodeInfo, NoiseInfo, PlantInfo, ScalarInfo, Slot, StateInfo, Term, TopicInfo};
use sot_syntax_tree::{Name, Op};
use sot_text::Span;
use std::alloc::{AllocError, Global};

// A place in a text.
pub(crate) fn span(line: u32, column: u32) -> Span
    ensures { result ≡ place line column }
{
    Span { line, column }
}

// A topic that nodes write, with one scalar.
pub(crate) fn topic(alloc: Global, name: &[u8], first: u32) -> Result<TopicInfo, AllocError>
    requires { IsTokenText NameKind name.now }
    ensures { IfOk result (λ t. t ≡ one_topic name.now first) }
{
    Ok(TopicInfo {
        name: Name::from_bytes(alloc, name)?,
        outside: false,
        first,
        count: 1,
    })
}

// The scalar of such a topic.
pub(crate) fn number(topic: u32, lo: i64, hi: i64) -> ScalarInfo
    ensures { result ≡ whole_number topic lo hi }
{
    ScalarInfo {
        topic,
        field: None,
        scale: 0,
        truth: false,
        lo,
        hi,
        init: 0,
    }
}

// The one disturbance of a plant, `w`, a whole number.
pub(crate) fn noise(alloc: Global, lo: i64, hi: i64) -> Result<Vec<NoiseInfo>, AllocError>
    ensures { IfOk result (λ v. v.items
        ≡ record { name = 119 ∷ []; scale = 0; lo = lo; hi = hi } ∷ []) }
{
    let w = NoiseInfo {
        name: Name::from_bytes(alloc, b"w")?,
        scale: 0,
        lo,
        hi,
    };
    Ok(vec![in alloc; w]?)
}

// A plant with one input, which sees these plants.
pub(crate) fn plant(
    alloc: Global,
    name: &[u8],
    states: Vec<StateInfo>,
    sees: Vec<u32>,
    noise: Vec<NoiseInfo>,
    next: Vec<Term>,
    input: u32,
) -> Result<PlantInfo, AllocError>
    requires { IsTokenText NameKind name.now }
    ensures name { IfOk result (λ p. p.name ≡ name.now) }
    ensures states { IfOk result (λ p. p.states ≡ states) }
    ensures inputs { IfOk result (λ p. p.inputs.items ≡ input ∷ []) }
    ensures sees { IfOk result (λ p. p.sees ≡ sees) }
    ensures noise { IfOk result (λ p. p.noise ≡ noise) }
    ensures next { IfOk result (λ p. p.next ≡ next) }
{
    Ok(PlantInfo {
        name: Name::from_bytes(alloc, name)?,
        states,
        inputs: vec![in alloc; input]?,
        sees,
        noise,
        next,
    })
}

// A node that starts at 0, writes one scalar and has no locals.
pub(crate) fn node(
    alloc: Global,
    name: &[u8],
    period: u32,
    reads: Vec<Slot>,
    write: u32,
    body: Option<Vec<Act>>,
) -> Result<NodeInfo, AllocError>
    requires { IsTokenText NameKind name.now }
    ensures name { IfOk result (λ n. n.name ≡ name.now) }
    ensures period { IfOk result (λ n. n.period ≡ period) }
    ensures offset { IfOk result (λ n. n.offset ≡ 0) }
    ensures reads { IfOk result (λ n. n.reads ≡ reads) }
    ensures writes { IfOk result (λ n. n.writes.items ≡ write ∷ []) }
    ensures locals { IfOk result (λ n. n.locals.items ≡ []) }
    ensures body { IfOk result (λ n. n.body ≡ body) }
{
    Ok(NodeInfo {
        name: Name::from_bytes(alloc, name)?,
        period,
        offset: 0,
        reads,
        writes: vec![in alloc; write]?,
        locals: Vec::new(alloc),
        body,
    })
}

// An operator between two expressions.
pub(crate) fn binary(
    alloc: Global,
    op: Op,
    left: Term,
    right: Term,
    at: Span,
) -> Result<Term, AllocError>
    ensures { IfOk result (IsBinary op left right at) }
{
    Ok(Term::Binary {
        op,
        left: Box::new(alloc, left)?,
        right: Box::new(alloc, right)?,
        at,
    })
}

// A condition and its two branches.
pub(crate) fn choice(
    alloc: Global,
    cond: Term,
    yes: Term,
    no: Term,
    at: Span,
) -> Result<Term, AllocError>
    ensures { IfOk result (IsChoice cond yes no at) }
{
    Ok(Term::If {
        cond: Box::new(alloc, cond)?,
        yes: Box::new(alloc, yes)?,
        no: Box::new(alloc, no)?,
        at,
    })
}

// The region of one interval.
pub(crate) fn interval(alloc: Global, lo: i64, hi: i64) -> Result<Region, AllocError>
    requires { lo ≤ℤ hi }
    ensures { IfOk result (λ r. r
        ≡ record { width = 1; boxes = (record { lo = lo; hi = hi } ∷ []) ∷ []; settled = false }) }
{
    let mut region = Region::none(alloc, 1);
    let b = BoxN::of(&[Interval { lo, hi }]).unwrap();
    region.push(b).map_err(|_| AllocError)?;
    Ok(region)
}
