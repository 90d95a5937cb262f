//! What no text can ask of the top calls: outsides of which one call fails, guests that are handed
//! in, words behind which nothing is read, and a formula that no system hands over as a word.
//! Expected texts were worked by hand, or come from an independent program.
mod devices;
mod guests;

ghost use Rattle.std.specs.Prelude.{◌<◌};

use sot_bridge::bridge;
use sot_commands::{Controller, soter};
use sot_ports::{MemSink, Process, PureSource, Sink, Source};
use sot_regions_program::regions;
use std::alloc::{AllocError, Global};
use std::fmt::Debug;
use std::process::Abort;
use std::sync::Wait;
use std::thread::Threads;

// A vehicle on a line.
const LINE: &str = "topic cmd: int[-2..2] = 0;
plant pos {
  state x: int;
  input cmd;
  noise w: int[-1..1];
  next x = (x + cmd) + w;
}
external fast period 4 offset 0 { reads pos; writes cmd; }
node slow period 2 offset 0 {
  reads pos;
  writes cmd;
  do { publish cmd = if pos.x > 10 then -2 else if pos.x < -10 then 2 else 0; }
}
module nav {
  ac fast; sc slow; period 4 offset 0;
  plant pos; safe [-40..40]; safer [-10..10];
}
";

// A certificate of the vehicle on a line.
const CERTIFICATE: &str = "%certificate
{\"format\":1,\"modules\":{\"nav\":{\"closed\":[[[-40,-11]],[[-10,10]],[[11,40]]],\"reach\":[[[-10,10]]]}}}
";

// Which of the top calls is asked.
#[derive(Clone, Copy, Debug)]
enum Top {
    Soter,
    Bridge,
    Regions,
}

// Ends the test, with what was asked, where the answer is not the one that is wanted.
fn same<A: Debug + Drop, T: PartialEq + Debug + Drop>(
    rt: &impl Abort,
    asked: A,
    got: T,
    wanted: T,
) {
    assert_eq!(rt; got, wanted, "{asked:?}");
}

// The column of a row with this number, from 0, where signs like these stand between columns;
// nothing where there is none.
fn column<'a>(row: &'a str, signs: &str, number: usize) -> &'a str {
    row.split(signs).nth(number).unwrap_or("")
}

// Words that are divided by blanks.
fn words_of(rt: &impl Abort, alloc: Global, words: &str) -> Vec<String> {
    let mut owned = Vec::new(alloc);
    for word in words.split(' ') {
        owned
            .push(String::from_str(alloc, word).expect(rt, "memory"))
            .expect(rt, "memory");
    }
    owned
}

// Does what the words ask of a top call, with no guest handed in, and tells how it ends.
fn alone<R: Threads + Wait + Sync, S: Source, K: Sink>(
    rt: &R,
    alloc: Global,
    top: Top,
    words: &[String],
    source: &mut S,
    sink: &mut K,
) -> u8 {
    let mut guests: Vec<Box<dyn Controller + Send>> = Vec::new(alloc);
    match top {
        Top::Soter => { soter(rt, alloc, words, &mut guests, source, sink, Process::GoesOn).0 }
        Top::Bridge => bridge(rt, alloc, words, source, sink, Process::GoesOn).0,
        Top::Regions => regions(rt, alloc, words, source, sink, Process::GoesOn).0,
    }
}

// The status and the text that the sink holds.
fn told(rt: &impl Abort, alloc: Global, status: u8, sink: &MemSink) -> String {
    let said = str::from_utf8(sink.bytes()).expect(rt, "a text");
    format!(in alloc; "{status} {said}").expect(rt, "memory")
}

fn source_of(rt: &impl Abort, alloc: Global, text: &str) -> PureSource {
    PureSource::new(Vec::from_slice(alloc, text.as_bytes()).expect(rt, "memory"))
}

fn sink_for(rt: &impl Abort, alloc: Global, room: usize) -> MemSink
    requires { 0 < room }
{
    MemSink::new(alloc, room, room, Vec::new(alloc)).expect(rt, "memory")
}
