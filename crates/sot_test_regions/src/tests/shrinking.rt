//! Tubes beside sets of atoms, and the greatest sets of which the held tubes stay in the set. The
//! tubes were worked by hand, and the counts come from a program of others over single states.

ghost use Rattle.std.specs.Prelude.{◌≡◌, length};

use super::parts::{box_text, interval_of};
use super::{cut, same};
use sot_atoms::{Grid, Sums};
use sot_box::BoxN;
use sot_invariant_atoms::{
    Among, ModuleAsk, any_stays, atoms_of, closed_atoms, greatest, held_boxes, held_stays,
    held_tube,
};
use sot_lang::Typed;
use sot_parser::parse;
use sot_text::Lexer;
use sot_typing::resolve;
use std::alloc::Global;
use std::process::Abort;

// A double integrator with a disturbance, which is asked to stay in one box.
const DOUBLE: &str = "topic u: int[-2..2] = 0;
plant arm { state x: int, v: int; input u; noise w: int[-1..1];
  next x = x + v; next v = (v + u) + w; }
external fast period 2 offset 0 { reads arm; writes u; }
node slow period 2 offset 0 { reads arm; writes u;
  do { publish u = clamp((if (arm.x > 0) then -2 else 2) - arm.v, -2, 2); } }
module nav { ac fast; sc slow; period 2 offset 0; plant arm;
  safe [-300..300, -40..40]; safer [0..0, 0..0]; }
";

// A double integrator with a disturbance, which is asked to stay in one box of lower speeds.
const SLOW: &str = "topic u: int[-2..2] = 0;
plant arm { state x: int, v: int; input u; noise w: int[-1..1];
  next x = x + v; next v = (v + u) + w; }
external fast period 2 offset 0 { reads arm; writes u; }
node slow period 2 offset 0 { reads arm; writes u;
  do { publish u = clamp((if (arm.x > 0) then -2 else 2) - arm.v, -2, 2); } }
module nav { ac fast; sc slow; period 2 offset 0; plant arm;
  safe [-300..300, -14..14]; safer [0..0, 0..0]; }
";

// A vehicle that no command stops.
const RUNNER: &str = "topic u: int[-1..1] = 0;
plant run { state x: int; input u; next x = x + 1; }
external fast period 1 offset 0 { reads run; writes u; }
node slow period 1 offset 0 { reads run; writes u; do { publish u = 0; } }
module nav { ac fast; sc slow; period 1 offset 0; plant run; safe [0..1000]; safer [0..0]; }
";

// A vehicle on a line, which its safe node commands back once it is more than 10 away from 0.
const LINE: &str = "topic cmd: int[-2..2] = 0;
plant pos { state x: int; input cmd; noise w: int[-1..1]; next x = (x + cmd) + w; }
external fast period 4 offset 0 { reads pos; writes cmd; }
node slow period 2 offset 0 { reads pos; writes cmd;
  do { publish cmd = if (pos.x > 10) then -2 else (if (pos.x < -10) then 2 else 0); } }
module nav { ac fast; sc slow; period 4 offset 0; plant pos; safe [-40..40]; safer [-10..10]; }
";

// The same that divides its disturbance by how far it is past 5: there its tick traps.
const DRIFTING: &str = "topic cmd: int[-2..2] = 0;
plant pos { state x: int; input cmd; noise w: int[-1..1]; next x = (x + cmd) + (w / (x - 5)); }
external fast period 4 offset 0 { reads pos; writes cmd; }
node slow period 2 offset 0 { reads pos; writes cmd;
  do { publish cmd = if (pos.x > 10) then -2 else (if (pos.x < -10) then 2 else 0); } }
module nav { ac fast; sc slow; period 4 offset 0; plant pos; safe [-40..40]; safer [-10..10]; }
";

// A program, a jitter, what is asked, and the answer. `atoms`: how many the safe region has, how
// many the greatest set in it, and how many are closed. `tube`: how the held tube of an interval
// lies to all atoms of the safe region, and whether its held tube and that of any commands stay
// among them, and in the region. `boxes`: the held tube, a box each tick.
//
// The safe node holds 0 from -10 to 10, and the disturbance moves the vehicle by 1 a tick, for 2
// ticks. Any commands move it by 3 a tick, for 8 ticks, and what is held then for 2. Which command
// is held from -40 to 40 is not sure, and from 100 on the vehicle is outside of the hull.
const ROWS: &str = "line 0 atoms => 81 81 81
line 1 atoms => 81 81 81
double 0 atoms => 48681 27189 27189
slow 0 atoms => 17429 16309 16309
slow 1 atoms => 17429 0 0
runner 0 atoms => 1001 0 0
line 0 tube -10..10 => Inside, true true, true true
line 0 tube -16..16 => Inside, true true, true true
line 0 tube -17..16 => Inside, true false, true false
line 0 tube 11..40 => Inside, true false, true false
line 0 tube -10..38 => Inside, true false, true false
line 0 tube -10..39 => Leaves, false false, false false
line 0 tube -40..40 => Leaves, false false, false false
line 0 tube 100..110 => Apart, false false, false false
line 0 boxes 0..0 => -1..1; -2..2;
line 0 boxes 11..40 => 8..39; 5..38;
line 1 boxes 11..40 => 8..39; 5..38; 2..37;
line 0 boxes -40..40 => -43..43; -46..46;
drifting 0 boxes 0..10 => none";

fn program_of(name: &str) -> &'static str {
    match name {
        "line" => LINE,
        "drifting" => DRIFTING,
        "double" => DOUBLE,
        "slow" => SLOW,
        _ => RUNNER,
    }
}

#[tactic(auto, using(sot_law_print_parse::proofs::FormedPrograms::spelled_formed))]
fn typed(rt: &impl Abort, alloc: Global, text: &str) -> Typed {
    if text.len() > 10_000 {
        panic!(rt; "a text that is too long");
    }
    let Ok(program) = parse(alloc, &Lexer::new(text.as_bytes())) else {
        panic!(rt; "no program: {text}");
    };
    match resolve(alloc, &program) {
        Ok(typed) => typed,
        Err(_) => panic!(rt; "no types: {text}"),
    }
}

// How many atoms the safe region has, how many of them the greatest set, and how many are closed.
fn atoms_text(rt: &impl Abort, alloc: Global, ask: &ModuleAsk<'_>, grid: &Grid) -> String {
    let safe = &ask.info().safe;
    if grid.width() != ask.width() || safe.len() == 0 || safe.at(0).len() != grid.width() {
        panic!(rt; "another width");
    }
    let mut set = atoms_of(alloc, grid, safe).expect(rt, "memory");
    let asked = set.members();
    greatest(alloc, ask, grid, &mut set).expect(rt, "memory");
    let closed = closed_atoms(alloc, ask, grid).expect(rt, "memory");
    format!(in alloc; "{asked} {} {}", set.members(), closed.members()).expect(rt, "memory")
}

fn side(rt: &impl Abort, text: &str) -> BoxN
    ensures { length result ≡ 1 }
{
    BoxN::of(&[interval_of(rt, text)]).expect(rt, "a box")
}

// Whether the held tube of an interval stays, and the tube of any commands.
fn stays_text(
    rt: &impl Abort,
    alloc: Global,
    ask: &ModuleAsk<'_>,
    area: &BoxN,
    among: Among<'_>,
) -> String {
    if ask.width() != area.len() {
        panic!(rt; "another width");
    }
    let (held, any) = (held_stays(ask, area, among), any_stays(ask, area, among));
    format!(in alloc; "{held} {any}").expect(rt, "memory")
}

// How the tubes of an interval lie to all atoms of a vehicle's safe region, and to the region.
fn tube_text(
    rt: &impl Abort,
    alloc: Global,
    ask: &ModuleAsk<'_>,
    grid: &Grid,
    from: &str,
) -> String {
    let safe = &ask.info().safe;
    let area = side(rt, from);
    if ask.width() != 1 || grid.width() != 1 || safe.len() == 0 || safe.at(0).len() != 1 {
        panic!(rt; "another width");
    }
    let set = atoms_of(alloc, grid, safe).expect(rt, "memory");
    let sums = Sums::of(alloc, grid, &set).expect(rt, "memory");
    let held = held_tube(ask, &area, grid, &set);
    let atoms = stays_text(rt, alloc, ask, &area, Among::Atoms(grid, &sums));
    let region = stays_text(rt, alloc, ask, &area, Among::Region(safe));
    format!(in alloc; "{held:?}, {atoms}, {region}").expect(rt, "memory")
}

// The boxes of the held tube of an interval, with a sign behind each, or `none`.
fn boxes_text(rt: &impl Abort, alloc: Global, ask: &ModuleAsk<'_>, from: &str) -> String {
    if ask.width() != 1 {
        panic!(rt; "another width");
    }
    let found = held_boxes(alloc, ask, &side(rt, from)).expect(rt, "memory");
    let Some(boxes) = found else {
        return String::from_str(alloc, "none").expect(rt, "memory");
    };
    let mut text = String::new(alloc);
    let mut blank = "";
    for b in &boxes {
        let ends = box_text(rt, alloc, b);
        let piece = format!(in alloc; "{blank}{};", ends.as_str()).expect(rt, "memory");
        text.push_str(piece.as_str()).expect(rt, "memory");
        blank = " ";
    }
    text
}

// What is asked of the finest grid of the first module's safe region.
fn told(rt: &impl Abort, alloc: Global, p: &Typed, jitter: u32, asked: &str) -> String {
    let ask = ModuleAsk::new(p, 0, jitter).expect(rt, "a module");
    let hull = ask.info().safe.hull().expect(rt, "a hull");
    let grid = Grid::of(&hull, 33_554_432, 0).expect(rt, "a grid");
    let (word, text) = asked.split_once(' ').unwrap_or((asked, ""));
    match word {
        "atoms" => atoms_text(rt, alloc, &ask, &grid),
        "tube" => tube_text(rt, alloc, &ask, &grid, text),
        _ => boxes_text(rt, alloc, &ask, text),
    }
}

#[test]
fn tubes_and_greatest_sets_are_as_worked_out(rt: HostRuntime) {
    for row in ROWS.lines() {
        let (question, want) = cut(&rt, row, " => ");
        let (name, behind) = cut(&rt, question, " ");
        let (jitter, asked) = cut(&rt, behind, " ");
        let p = typed(&rt, rt.alloc(), program_of(name));
        let jitter = jitter.parse().ok().expect(&rt, "a jitter");
        let got = told(&rt, rt.alloc(), &p, jitter, asked);
        same(&rt, question, got.as_str(), want);
    }
}
