//! What a robot says in a line, and what is none of its lines.

ghost use Rattle.sot_trace.specs.Words.{AreWords};

use super::*;
use sot_guard_lines::{Said, numbers_of_lines, read_said};
use sot_lang::{Draft, Typed};

// An environment topic and one that nodes write, both records, a topic of one number, a plant of
// two state variables, and one of one.
const MISSION: &str = "environment topic wind: {east: int[0..9], north: int[-9..9]} = {0, 0};
topic cmd: int[-2..2] = 0;
topic lamp: {level: int[0..9], warn: bool} = {0, false};
plant pos { state x: int, v: int; input cmd; next x = x + v; next v = v + cmd; }
plant still { state y: int; next y = y; }
external fast period 4 offset 0 { reads pos; writes lamp, cmd; }
node slow period 2 offset 0 { reads pos; writes cmd; do { publish cmd = 0; } }
module nav {
  ac fast; sc slow; period 4 offset 0; plant pos; safe [-40..40, -9..9]; safer [-10..10, -9..9];
}
module hold { ac fast; sc slow; period 4 offset 0; plant still; safe [-9..9]; safer [-9..9]; }
%certificate
{\"format\":1,
\"modules\":{\"hold\":{\"closed\":[],\"reach\":[]},\"nav\":{\"closed\":[],\"reach\":[]}}}
";

// A line, and what it says by places: of a draft each number behind its slot, which are in the
// order in which the node writes.
const ROWS: &str = "start pos(3,-4) => start 0: 3 -4
start still(0) => start 1: 0
start still(9223372036854775807) => start 1: 9223372036854775807
start still(9223372036854775808) => start 1: large
start pos(-9223372036854775809,1) => start 0: large
input wind=5,-1 => input 0: 5 -1
input wind=0,99999999999999999999999999 => input 0: large
draft fast => draft 0
draft fast lamp.level=3 lamp.warn=1 cmd=-2 => draft 0 0:3 1:1 2:-2
draft fast lamp.level!30 cmd=7 => draft 0 0:30 2:7
draft fast cmd=9223372036854775808 => draft 0 large
draft slow cmd=1 => draft 1 0:1
go => go
resume => resume
tick pos(0,0) still(7) => tick: 0 0 7
tick pos(0,-9223372036854775808) still(1) => tick: 0 -9223372036854775808 1
tick pos(0,1) still(-99999999999999999999) => tick: large
 => nothing
start => nothing
start pos => nothing
start pos() => nothing
start pos(3) => nothing
start pos(3,4,5) => nothing
start pos(3, 4) => nothing
start pos(3,4 => nothing
start pos(3,4)) => nothing
start pos(03,4) => nothing
start pos(+3,4) => nothing
start pos(-0,4) => nothing
start pos(3.0,4) => nothing
start pos 3,4 => nothing
start still(1) still(1) => nothing
start wind(1,2) => nothing
start Still(1) => nothing
Start still(1) => nothing
 start still(1) => nothing
start  still(1) => nothing
input wind=5 => nothing
input wind=5,1,2 => nothing
input wind.east=5 => nothing
input wind 5,1 => nothing
input cmd=1 => nothing
input lamp=1,0 => nothing
input pos=1,0 => nothing
0 input wind=5,-1 => nothing
draft => nothing
draft none cmd=1 => nothing
draft nav cmd=1 => nothing
draft fast cmd => nothing
draft fast cmd= => nothing
draft fast  cmd=1 => nothing
draft fast cmd=1 lamp.level=3 => nothing
draft fast cmd=1 cmd=1 => nothing
draft fast lamp=3,1 => nothing
draft slow lamp.level=3 => nothing
0 fire fast cmd=1 => nothing
go now => nothing
going => nothing
GO => nothing
resume now => nothing
resume  => nothing
 resume => nothing
resumed => nothing
resum => nothing
Resume => nothing
0 resume => nothing
tick => nothing
tick pos(0,0) => nothing
tick still(7) pos(0,0) => nothing
tick pos(0) still(7) => nothing
tick pos(0,0)  still(7) => nothing
tick pos(0,0)still(7) => nothing
tick pos(0,0) still(7) still(7) => nothing
0 tick pos(0,0) still(7) => nothing
end 3 events 4 => nothing
halt => nothing";

// Adds the numbers of a list, or that some of them is large.
fn push_numbers(numbers: &[i64], whole: bool, text: &mut String) -> Result<(), AllocError> {
    text.push(':')?;
    if !whole {
        return text.push_str(" large");
    }
    for number in numbers {
        write!(text, " {number}")?;
    }
    Ok(())
}

// Adds the numbers of a draft, each behind its slot, or that some of them is large.
fn push_draft(draft: &Option<Draft>, text: &mut String) -> Result<(), AllocError> {
    let Some(draft) = draft else {
        return text.push_str(" large");
    };
    for i in 0..8 {
        if let Some(number) = draft.get(i) {
            write!(text, " {i}:{number}")?;
        }
    }
    Ok(())
}

// Adds what is said.
fn push_said(said: Option<Said>, numbers: &[i64], text: &mut String) -> Result<(), AllocError> {
    match said {
        None => text.push_str("nothing"),
        Some(Said::Start { plant, whole }) => {
            write!(text, "start {plant}")?;
            push_numbers(numbers, whole, text)
        }
        Some(Said::Input { topic, whole }) => {
            write!(text, "input {topic}")?;
            push_numbers(numbers, whole, text)
        }
        Some(Said::Draft { node, draft }) => {
            write!(text, "draft {node}")?;
            push_draft(&draft, text)
        }
        Some(Said::Go) => text.push_str("go"),
        Some(Said::Resume) => text.push_str("resume"),
        Some(Said::Tick { whole }) => {
            text.push_str("tick")?;
            push_numbers(numbers, whole, text)
        }
    }
}

// What a line says.
fn said_of(rt: &impl Abort, alloc: Global, p: &Typed, line: &str) -> String
    requires { AreWords p.now }
{
    let mut numbers = numbers_of_lines(alloc, p).expect(rt, "memory");
    let mut text = String::new(alloc);
    let said = read_said(p, line.as_bytes(), &mut numbers);
    push_said(said, numbers.as_slice(), &mut text).expect(rt, "memory");
    text
}

// A row is so.
fn is_said(rt: &impl Abort, alloc: Global, p: &Typed, row: &str)
    requires { AreWords p.now }
{
    let (line, want) = halves(row);
    let said = said_of(rt, alloc, p, line);
    same(rt, row, said.as_str(), want);
}

#[test]
fn lines_say_one_thing_or_nothing(rt: HostRuntime) {
    let alloc = rt.alloc();
    let loaded = loaded(&rt, alloc, MISSION);
    for row in ROWS.lines() {
        is_said(&rt, alloc, &loaded.program, row);
    }
}

#[test]
fn a_list_has_room_for_any_line(rt: HostRuntime) {
    let alloc = rt.alloc();
    let loaded = loaded(&rt, alloc, MISSION);
    let numbers = numbers_of_lines(alloc, &loaded.program).expect(&rt, "memory");
    same(&rt, "numbers", numbers.len(), 0);
    // Two plants, and five scalars: two of the wind, one command and two of the lamp.
    same(&rt, "room", numbers.capacity() >= 4 * 2 + 5, true);
}
