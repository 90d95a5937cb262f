//! Bodies in flat form: each statement and each operator. What is wanted comes from another program
//! of the language.

ghost use Rattle.std.specs.Prelude.{◌≡◌, ◌∷◌, [], None, true, replicate};
ghost use Rattle.sot_code.specs.Recorded.{MayRun};

use super::*;
use sot_code::{Locals, Seen, run_node_over};
use sot_eval_flat::{Flat, Unfit};
use sot_lang::{Draft, Trap, Typed};

// Nodes that read two numbers and a truth value.
const PROGRAM: &str = "environment topic i:
  {a: int[-2147483648..2147483647], b: int[-2147483648..2147483647], c: bool} = {0, 0, false};
topic s: {p: int[-2147483648..2147483647], q: int[-99..99], r: int[-2147483648..2147483647],
  u: int[-9..9], v: int[0..6], w: int[-99..99]} = {0, 0, 0, 0, 0, 0};
topic b: {lt: bool, le: bool, gt: bool, ge: bool, eq: bool, ne: bool, both: bool, one: bool}
  = {false, false, false, false, false, false, false, false};
node sums period 1 offset 0 { reads i; writes s; do {
  repeat 2 {
    publish s.p = i.a + i.b;
    publish s.q = i.a - i.b;
    publish s.r = i.a * i.b;
    publish s.u = i.a / i.b;
    publish s.v = i.a % 7;
    publish s.w = -i.a;
  }
} }
node orders period 1 offset 0 { reads i; writes b; do {
  repeat 1 {
    publish b.lt = i.a < i.b;
    publish b.le = i.a <= i.b;
    publish b.gt = i.a > i.b;
    publish b.ge = i.a >= i.b;
    publish b.eq = i.a == i.b;
    publish b.ne = i.a != i.b;
    publish b.both = i.c and i.a < 3;
    publish b.one = not i.c or i.b < 0;
  }
} }
node calls period 1 offset 0 { reads i; writes s; do {
  repeat 1 {
    publish s.p = min(i.a, i.b);
    publish s.q = clamp(i.a, -5, i.b);
    publish s.r = max(i.a, i.b);
    publish s.w = if i.c then i.a else -i.b;
  }
} }
node flow period 1 offset 0 { reads i; writes s; local n: int[0..9] = 0; local t: bool = false; do {
  repeat 3 {
    if n < 4 { n := n + 2; publish s.p = n; } else { publish s.q = n; t := not t; }
    repeat 2 { n := min(n + 1, 9); }
  }
  publish s.w = if t then n else -n;
  if i.a > 0 { } else { publish s.u = i.a; publish s.u = i.b; }
} }
node powers period 1 offset 0 { reads i; writes s; local n: int[-2147483648..2147483647] = 0; do {
  repeat 2 {
    n := i.a;
    publish s.p = (((i.a * i.a) * i.a) / (i.a * i.a)) - n;
  }
  if i.c { n := n + i.b; }
  publish s.v = n;
} }
node sizes period 1 offset 0 { reads i; writes s; do { repeat 2 { publish s.p = abs(i.a); } } }
node short period 1 offset 0 { reads i; writes s; do {
  publish s.p = i.a;
  if i.c { publish s.w = i.b; }
} }
%certificate
{\"format\":1,\"modules\":{}}
";

// A node by its place, what it reads, and its locals; then what it drafts by slots, and the locals
// afterwards, or the kind and the place of its trap.
const ROWS: &str = "0 12 5 0 => 0:17 1:7 2:60 3:2 4:5 5:-12
0 -13 5 1 => 0:-8 1:-18 2:-65 3:-3 4:1 5:13
0 7 -2 0 => 0:5 1:9 2:-14 3:-4 4:0 5:-7
0 0 9 0 => 0:9 1:-9 2:0 3:0 4:0 5:0
0 5 0 0 => trap ZeroDivisor 12 23
0 2147483647 1 0 => trap OutsideRange 9 13
0 45 -60 0 => trap OutsideRange 10 13
0 90 9 0 => trap OutsideRange 12 13
0 2147483647 2147483647 0 => trap OutsideRange 9 13
0 -2147483648 -2147483648 0 => trap OutsideRange 9 13
1 2 3 1 => 0:1 1:1 2:0 3:0 4:0 5:1 6:1 7:0
1 3 3 1 => 0:0 1:1 2:0 3:1 4:1 5:0 6:0 7:0
1 4 3 0 => 0:0 1:0 2:1 3:1 4:0 5:1 6:0 7:1
1 -4 -5 1 => 0:0 1:0 2:1 3:1 4:0 5:1 6:1 7:1
2 4 -7 0 => 0:-7 1:-5 2:4 5:7
2 -9 3 1 => 0:-9 1:-5 2:3 5:-9
2 50 60 1 => 0:50 1:50 2:60 5:50
2 99 100 0 => trap OutsideRange 34 13
2 1 99 0 => 0:1 1:1 2:99 5:-99
2 1 -100 0 => trap OutsideRange 34 13
3 1 5 0 0 0 => 0:2 1:6 5:-8 locals 8 0
3 0 7 1 3 1 => 0:5 1:9 3:7 5:9 locals 9 1
3 -2 -9 0 9 0 => 1:9 3:-9 5:9 locals 9 1
3 -10 0 0 5 1 => trap OutsideRange 43 33
3 -9 10 0 5 1 => trap OutsideRange 43 52
4 2 1 0 0 => 0:0 4:2 locals 2
4 -5 9 1 0 => 0:0 4:4 locals 4
4 5 1 1 9 => 0:0 4:6 locals 6
4 2 5 1 0 => trap OutsideRange 51 11
4 2147483647 0 0 0 => trap Wide 48 33
4 0 0 0 0 => trap ZeroDivisor 48 40
4 7 0 0 0 => trap OutsideRange 51 11
5 -4 0 0 => 0:4
6 3 4 1 => 0:3 5:4
6 3 100 1 => trap OutsideRange 56 20";

// What a node reads.
#[derive(Clone, Copy)]
struct Three {
    a: i64,
    b: i64,
    c: i64,
}

impl Seen for Three {
    ghost numbers = { λ s. s.a ∷ s.b ∷ s.c ∷ [] };

    fn read(&self, i: usize) -> i64 {
        match i {
            0 => self.a,
            1 => self.b,
            _ => self.c,
        }
    }
}

// The number in a column of a row, from 0.
fn signed(row: &str, place: usize) -> Option<i64> {
    row.split(' ').nth(place).and_then(|word| word.parse().ok())
}

// Adds what a body gave: its draft by slots and its locals, or its trap.
fn push_given(
    given: Result<(), Trap>,
    draft: &Draft,
    locals: &Locals,
    text: &mut String,
) -> Result<(), AllocError> {
    if let Err(Trap { at, kind }) = given {
        return write!(text, "trap {kind:?} {} {}", at.line, at.column);
    }
    let mut lead = "";
    for i in 0..8 {
        if let Some(number) = draft.get(i) {
            write!(text, "{lead}{i}:{number}")?;
            lead = " ";
        }
    }
    if locals.len() > 0 {
        text.push_str(" locals")?;
    }
    for i in 0..locals.len() {
        write!(text, " {}", locals.at(i))?;
    }
    Ok(())
}

// How a body is run.
#[derive(Clone, Copy, Debug, PartialEq)]
enum Way {
    Walked,
    Flat,
}

// Runs a node's body.
fn run(
    alloc: Global,
    p: &Typed,
    way: Way,
    node: u32,
    seen: &Three,
    locals: &mut Locals,
    draft: &mut Draft,
) -> Result<Result<(), Trap>, Unfit>
    requires run { MayRun p.now node (seen.now.a ∷ seen.now.b ∷ seen.now.c ∷ []) locals.old }
    requires blank { draft.old ≡ replicate 8 None }
{
    match way {
        Way::Walked => Ok(run_node_over(p, node, seen, locals, draft)),
        Way::Flat => {
            let flat = Flat::of(alloc, p, node)?;
            Ok(flat.run(p, node, seen, locals, draft))
        }
    }
}

// Whether a node has a body that reads three numbers, and so many locals.
fn may_run(p: &Typed, node: u32, seen: &Three, locals: &Locals) -> bool
    ensures { result ≡ true
        → MayRun p.now node (seen.now.a ∷ seen.now.b ∷ seen.now.c ∷ []) locals.now }
{
    let Some(info) = p.nodes.get(node as usize) else {
        return false;
    };
    let Some(_) = &info.body else {
        return false;
    };
    info.reads.len() == 3 && info.locals.len() == locals.len()
}

// The locals in the last columns of a row.
fn locals_of(row: &str) -> Option<Locals> {
    match (signed(row, 4), signed(row, 5)) {
        (Some(one), Some(two)) => Locals::of(&[one, two]),
        (Some(one), None) => Locals::of(&[one]),
        _ => Locals::of(&[]),
    }
}

// What a body gives in a row.
fn said_of(alloc: Global, p: &Typed, way: Way, row: &str) -> Result<String, AllocError> {
    let mut text = String::new(alloc);
    let node = number(row, 0);
    let seen = Three {
        a: signed(row, 1).unwrap_or(0),
        b: signed(row, 2).unwrap_or(0),
        c: signed(row, 3).unwrap_or(0),
    };
    let Some(mut locals) = locals_of(row) else {
        return Ok(text);
    };
    if !may_run(p, node, &seen, &locals) {
        return Ok(text);
    }
    let mut draft = Draft::blank();
    match run(alloc, p, way, node, &seen, &mut locals, &mut draft) {
        Ok(given) => push_given(given, &draft, &locals, &mut text)?,
        Err(Unfit::Wide) => text.push_str("wide")?,
        Err(Unfit::Memory) => return Err(AllocError),
    }
    Ok(text)
}

#[test]
fn bodies_run_in_flat_form(rt: HostRuntime) {
    let alloc = rt.alloc();
    let loaded = loaded(&rt, alloc, PROGRAM);
    for row in ROWS.lines() {
        let (given, want) = halves(row);
        for way in [Way::Walked, Way::Flat] {
            let said = said_of(alloc, &loaded.program, way, given).expect(&rt, "memory");
            same(&rt, (way, row), said.as_str(), want);
        }
    }
}
