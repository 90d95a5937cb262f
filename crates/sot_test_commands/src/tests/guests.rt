//! Guests that are handed in, words behind which nothing is read, each beginning of a mission, and a
//! formula of 16 MiB.

ghost use Rattle.std.specs.Prelude.{None};

use super::*;
use sot_commands::{Draft, View};

// A vehicle on a line, at most one of whose nodes is due in any instant.
const VEHICLE: &str = "topic cmd: int[-2..2] = 0;
plant pos { state x: int; input cmd; noise w: int[-1..1]; next x = (x + cmd) + w; }
external fast period 4 offset 2 { reads pos; writes cmd; }
node slow period 4 offset 1 {
  reads pos;
  writes cmd;
  do { publish cmd = if pos.x > 10 then -2 else if pos.x < -10 then 2 else 0; }
}
module nav { ac fast; sc slow; period 4 offset 0; plant pos; safe [-40..40]; safer [-10..10]; }
";

const CELLS: &str = "%certificate
{\"format\":1,\"modules\":{\"nav\":{\"closed\":[[[-40,-11]],[[-10,10]],[[11,40]]],\"reach\":[[[-10,10]]]}}}
";

// The vehicle with a calm flight of so many ticks: who flies its advanced node.
fn flown(alloc: Global, crew: &str, horizon: u32) -> Result<String, AllocError> {
    format!(in alloc;
        "{VEHICLE}{CELLS}%flight\n{{\"crew\":{{\"fast\":{{{crew}}}}},\"format\":1,\"horizon\":{horizon},\"inputs\":[],\"start\":{{\"pos\":[0]}},\"sway\":{{\"pos\":{{\"kind\":\"list\",\"values\":[[0]]}}}}}}\n"
    )
}

// A guest that drafts one number, and tells nothing of its askings.
#[derive(Drop)]
struct Stubborn {
    number: i64,
}

impl Controller for Stubborn {
    ghost asked = { λ _. None };

    fn decide(&mut self, _view: &View, draft: &mut Draft) {
        draft.set(0, self.number);
    }
}

// What these words over a flight of three ticks are answered, where a guest that drafts this number
// is handed in.
fn guided(
    rt: &(impl Abort + Threads + Wait + Sync),
    alloc: Global,
    words: &[String],
    number: i64,
) -> String {
    let mut guests = Vec::new(alloc);
    guests.push(Stubborn { number }).expect(rt, "memory");
    let text = flown(alloc, "\"index\":0,\"kind\":\"guest\"", 3).expect(rt, "memory");
    let mut source = source_of(rt, alloc, &text);
    let mut sink = sink_for(rt, alloc, 2000);
    let ended = soter(
        rt,
        alloc,
        words,
        &mut guests,
        &mut source,
        &mut sink,
        Process::GoesOn,
    );
    told(rt, alloc, ended.0, &sink)
}

// The words, the number that the guest drafts, and the answer.
const GUIDED: [(&str, i64, &str); 2] = [
    (
        "fly",
        7,
        "0 soter trace 1\nstart pos 0\n0 decide nav ac\n0 tick pos(0)=0\n1 idle slow cmd=0\n1 tick pos(0)=0\n2 fire fast cmd!7\n2 tick pos(0)=0\nend 3 events 6 refused 1\n",
    ),
    (
        "watch not(once(cmd==1))",
        1,
        "1 soter trace 1\nstart pos 0\n0 decide nav ac\n0 tick pos(0)=0\n1 idle slow cmd=0\n1 tick pos(0)=0\n2 fire fast cmd=1\n2 tick pos(0)=1\nend 3 events 6 refused 0\nrefused watch time 2\n",
    ),
];

#[test]
fn asks_the_guest_that_a_flight_names(rt: HostRuntime) {
    let alloc = rt.alloc();
    for (words, number, want) in GUIDED {
        let owned = words_of(&rt, alloc, words);
        let said = guided(&rt, alloc, &owned, number);
        same(&rt, words, said.as_str(), want);
    }
}

// The status and the text of these words over a text, and between them how many bytes of the text
// are left.
fn answer(
    rt: &(impl Abort + Threads + Wait + Sync),
    alloc: Global,
    top: Top,
    words: &[String],
    text: &str,
) -> String {
    let mut source = source_of(rt, alloc, text);
    let mut sink = sink_for(rt, alloc, 2000);
    let ended = alone(rt, alloc, top, words, &mut source, &mut sink);
    let mut room = [0; 9];
    let left = source.read(&mut room).unwrap_or(0);
    let said = str::from_utf8(sink.bytes()).expect(rt, "a text");
    format!(in alloc; "{ended} {left} {said}").expect(rt, "memory")
}

const USAGE: &str =
    "usage: soter check | fly | replay | format | make N SEED | soak N SEED | recover | certify | watch FORMULA\n";

// Words that ask for nothing, and what is written; `make` reads nothing either.
#[test]
fn reads_nothing_at_other_words(rt: HostRuntime) {
    let alloc = rt.alloc();
    for (top, words, usage) in [
        (Top::Soter, "checks", USAGE),
        (Top::Soter, "make 0 1", USAGE),
        (Top::Soter, "watch", USAGE),
        (
            Top::Bridge,
            "n e 01",
            "usage: soter_bridge TOPIC_A TOPIC_B DELAY\n",
        ),
        (Top::Regions, "01", "usage: soter_regions [JITTER]\n"),
    ] {
        let owned = words_of(&rt, alloc, words);
        let said = answer(&rt, alloc, top, &owned, "topic");
        let want = format!(in alloc; "2 5 {usage}").expect(&rt, "memory");
        same(&rt, words, said.as_str(), want.as_str());
    }
    let made = answer(
        &rt,
        alloc,
        Top::Soter,
        &words_of(&rt, alloc, "soak 1 42"),
        "topic",
    );
    same(&rt, "soak", made.starts_with("0 5 soak modules 1 "), true);
}

// Each beginning of a mission is rejected.
#[test]
fn rejects_each_beginning_of_a_mission(rt: HostRuntime) {
    let alloc = rt.alloc();
    let words = words_of(&rt, alloc, "check");
    let text = format!(in alloc; "{LINE}{CERTIFICATE}").expect(&rt, "memory");
    let mut beginning = String::new(alloc);
    for letter in text.trim_end().chars() {
        let said = answer(&rt, alloc, Top::Soter, &words, &beginning);
        same(&rt, beginning.as_str(), said.starts_with("3 "), true);
        beginning.push(letter).expect(&rt, "memory");
    }
}

// A formula that holds, with so many blanks behind it.
fn long(rt: &impl Abort, alloc: Global, blanks: usize) -> String {
    let mut text = String::from_str(alloc, "true").expect(rt, "memory");
    let behind = " ".repeat(alloc, blanks).expect(rt, "memory");
    text.push_str(&behind).expect(rt, "memory");
    text
}

#[test]
fn formulas_have_sixteen_mebibytes(rt: HostRuntime) {
    let alloc = rt.alloc();
    let text = flown(alloc, "\"drafts\":[[2]],\"kind\":\"script\"", 0).expect(&rt, "memory");
    for (blanks, want) in [
        (
            16_777_212,
            "0 0 soter trace 1\nstart pos 0\n0 decide nav ac\nend 0 events 1 refused 0\nwatch holds moments 1\n",
        ),
        (16_777_213, "3 0 fault formula Form\n"),
    ] {
        let mut words = words_of(&rt, alloc, "watch");
        words.push(long(&rt, alloc, blanks)).expect(&rt, "memory");
        let said = answer(&rt, alloc, Top::Soter, &words, &text);
        same(&rt, blanks, said.as_str(), want);
    }
}
