//! Flights of a vehicle whose advanced node is flown by a guest. Expected texts and numbers are
//! those of an independent program.

ghost use Rattle.std.specs.Prelude.{◌≡◌, ◌<◌, ◌^◌, vec_len};

mod long;
mod told;

use sot_commands::soter;
use sot_ports::{MemSink, Process, PureSource};
use sot_test_workers::Keeper;
use std::alloc::Global;
use std::fmt::Debug;
use std::process::Abort;
use std::sync::Wait;
use std::thread::Threads;

// At most one node of the vehicle is due in any instant, so that a flight has one trace.
const VEHICLE: &str = "topic cmd: int[-2..2] = 0;
plant pos { state x: int; input cmd; noise w: int[-1..1]; next x = (x + cmd) + w; }
external fast period 4 offset 2 { reads pos; writes cmd; }
node slow period 4 offset 1 {
  reads pos;
  writes cmd;
  do { publish cmd = if pos.x > 10 then -2 else if pos.x < -10 then 2 else 0; }
}
module nav { ac fast; sc slow; period 4 offset 0; plant pos; safe [-40..40]; safer [-10..10]; }
%certificate
{\"format\":1,\"modules\":{\"nav\":{\"closed\":[[[-40,-11]],[[-10,10]],[[11,40]]],\"reach\":[[[-10,10]]]}}}
%flight
";

const CALM: &str = "{\"kind\":\"list\",\"values\":[[0]]}";

const HIGH: &str = "{\"kind\":\"high\"}";

const SEED: &str = "{\"kind\":\"seed\",\"seed\":42,\"stream\":54}";

// Ends the test, with what was asked, where the answer is not the one that is wanted.
fn same<A: Debug + Drop, T: PartialEq + Debug + Drop>(
    rt: &impl Abort,
    asked: A,
    got: T,
    wanted: T,
) {
    assert_eq!(rt; got, wanted, "{asked:?}");
}

// The vehicle with a flight in which the first guest flies the advanced node.
fn mission(rt: &impl Abort, alloc: Global, start: i64, horizon: u32, sway: &str) -> String {
    format!(in alloc;
        "{VEHICLE}{{\"crew\":{{\"fast\":{{\"index\":0,\"kind\":\"guest\"}}}},\"format\":1,\"horizon\":{horizon},\"inputs\":[],\"start\":{{\"pos\":[{start}]}},\"sway\":{{\"pos\":{sway}}}}}\n"
    ).expect(rt, "memory")
}

// The only guest of a flight, which drafts these two by turns.
fn keeper(rt: &impl Abort, alloc: Global, number: Option<i64>, other: Option<i64>) -> Vec<Keeper>
    ensures { vec_len result ≡ 1 }
{
    let mut guests = Vec::new(alloc);
    guests
        .push(Keeper::new(alloc, number, other))
        .expect(rt, "memory");
    guests
}

// The words that are one word.
fn words_of(rt: &impl Abort, alloc: Global, word: &str) -> Vec<String> {
    let mut words = Vec::new(alloc);
    words
        .push(String::from_str(alloc, word).expect(rt, "memory"))
        .expect(rt, "memory");
    words
}

fn source_of(rt: &impl Abort, alloc: Global, input: &str) -> PureSource {
    PureSource::new(Vec::from_slice(alloc, input.as_bytes()).expect(rt, "memory"))
}

fn sink(rt: &impl Abort, alloc: Global) -> MemSink {
    MemSink::new(alloc, 50_000, 50_000, Vec::new(alloc)).expect(rt, "memory")
}

fn written(rt: &impl Abort, alloc: Global, sink: &MemSink) -> String {
    let text = str::from_utf8(sink.bytes()).expect(rt, "a text");
    String::from_str(alloc, text).expect(rt, "memory")
}

// What a command writes on an input, with status 0.
fn answered<R: Abort + Threads + Wait + Sync>(
    rt: &R,
    alloc: Global,
    word: &str,
    input: &str,
    guests: &mut Vec<Keeper>,
) -> String
    requires { vec_len guests.old < 2 ^ 32 }
    ensures { vec_len guests.new ≡ vec_len guests.old }
{
    let words = words_of(rt, alloc, word);
    let mut source = source_of(rt, alloc, input);
    let mut sink = sink(rt, alloc);
    let ended = soter(
        rt,
        alloc,
        &words,
        guests,
        &mut source,
        &mut sink,
        Process::GoesOn,
    );
    same(rt, word, ended.0, 0);
    written(rt, alloc, &sink)
}
