//! Failing reads, which end with status 4 and nothing written, and failing writes, which end with
//! status 5 and leave what the calls before took.

ghost use Rattle.std.specs.Prelude.{◌<◌};

use super::*;
use sot_ports::MemSource;

const FLIGHT: &str = "%flight
{\"crew\":{\"fast\":{\"drafts\":[[2]],\"kind\":\"script\"}},\"format\":1,\"horizon\":3,\"inputs\":[],\"start\":{\"pos\":[10]},\"sway\":{\"pos\":{\"kind\":\"high\"}}}
";

const TRACE: &str = "soter trace 1
start pos 10
0 decide nav ac
0 fire fast cmd=2
0 idle slow cmd=0
0 tick pos(1)=13
1 tick pos(1)=16
2 idle slow cmd=-2
2 tick pos(1)=19
end 3 events 7 refused 0
";

// A node that counts.
const COUNTER: &str = "topic n: int[0..9] = 0;
node up period 2 offset 0 {
  writes n;
  local i: int[0..9] = 0;
  do {
    i := min(i + 1, 9);
    publish n = i;
  }
}
";

// A node that copies what comes from outside.
const RELAY: &str = "environment topic e: int[0..9] = 0;
topic m: int[0..9] = 0;
node copy period 6 offset 0 { reads e; writes m; do { publish m = e; } }
";

// The certificate of a program without modules.
const NOTHING: &str = "%certificate
{\"format\":1,\"modules\":{}}
";

// The traces of the counter and the relay, where what is counted comes over a tick later.
const TRACES: &str = "soter trace 1
0 fire up n=1
0 tick
1 tick
2 fire up n=2
2 tick
3 tick
4 fire up n=3
end 4 events 7 refused 0
soter trace 1
0 fire copy m=0
0 tick
1 input e=1
1 tick
2 tick
3 input e=2
3 tick
4 tick
5 input e=3
end 5 events 9 refused 0
";

// The counter flies four ticks, and behind it the relay five.
fn counted_over(alloc: Global) -> Result<String, AllocError> {
    let (front, behind) = (
        "%flight\n{\"crew\":{},\"format\":1,\"horizon\":",
        ",\"inputs\":[],\"start\":{},\"sway\":{}}\n",
    );
    format!(in alloc; "{COUNTER}{NOTHING}{front}4{behind}%bridge\n{RELAY}{NOTHING}{front}5{behind}")
}

// The text that is read where these words are asked.
fn text_of(alloc: Global, words: &str) -> Result<String, AllocError> {
    match words {
        "check" => format!(in alloc; "{LINE}{CERTIFICATE}"),
        "fly" => format!(in alloc; "{LINE}{CERTIFICATE}{FLIGHT}"),
        "replay" => format!(in alloc; "{LINE}{CERTIFICATE}{FLIGHT}%trace\n{TRACE}"),
        "n e 1" => counted_over(alloc),
        _ => String::from_str(alloc, "topic c:int[0..1]=0;"),
    }
}

// What is written then, with status 0.
fn answer_of(words: &str) -> &'static str {
    match words {
        "check" => "accepted\nmodules 1 nodes 2 cells 4\n",
        "fly" => TRACE,
        "replay" => "legal events 7\n",
        "n e 1" => TRACES,
        _ => "topic c: int[0..1] = 0;\n%certificate\n{\"format\":2,\"jitter\":3,\"modules\":{}}\n",
    }
}

// The numbers of the read and of the write that fail, from 1; 0 is none.
#[derive(Clone, Copy, Debug)]
struct Failing {
    read: u32,
    write: u32,
}

// Where a call fails so, a top call over a source and a sink whose calls move so many bytes at the
// most ends with this status, and its sink holds this.
fn ends(
    rt: &(impl Abort + Threads + Wait + Sync),
    alloc: Global,
    asked: (Top, &str),
    piece: usize,
    failing: Failing,
    status: &str,
    held: &str,
)
    requires { 0 < piece }
{
    let (top, words) = asked;
    let owned = words_of(rt, alloc, words);
    let text = text_of(alloc, words).expect(rt, "memory").into_bytes();
    let reads = vec![in alloc; failing.read].expect(rt, "memory");
    let writes = vec![in alloc; failing.write].expect(rt, "memory");
    let mut source = MemSource::new(text, piece, reads);
    let mut sink = MemSink::new(alloc, 1000, piece, writes).expect(rt, "memory");
    let ended = alone(rt, alloc, top, &owned, &mut source, &mut sink);
    let said = told(rt, alloc, ended, &sink);
    let want = format!(in alloc; "{status} {held}").expect(rt, "memory");
    same(rt, (words, failing, piece), said.as_str(), want.as_str());
}

// How many reads bring so many bytes and the end behind them.
fn reads_of(bytes: &[u8], piece: usize) -> u32
    requires { 0 < piece }
{
    let mut count: u32 = 1;
    for _ in bytes.chunks(piece) {
        count = count.saturating_add(1);
    }
    count
}

// Each read fails in turn, that which finds the end as well; and one after it, which never comes.
fn reads_fail(
    rt: &(impl Abort + Threads + Wait + Sync),
    alloc: Global,
    asked: (Top, &str),
    piece: usize,
)
    requires { 0 < piece }
{
    let text = text_of(alloc, asked.1).expect(rt, "memory");
    let last = reads_of(text.as_bytes(), piece);
    for read in 1..last.saturating_add(1) {
        let failing = Failing { read, write: 0 };
        ends(rt, alloc, asked, piece, failing, "4", "");
    }
    let past = Failing {
        read: last.saturating_add(1),
        write: 0,
    };
    ends(rt, alloc, asked, piece, past, "0", answer_of(asked.1))
}

// Each write fails in turn; and one after the last, which never comes.
fn writes_fail(
    rt: &(impl Abort + Threads + Wait + Sync),
    alloc: Global,
    asked: (Top, &str),
    piece: usize,
)
    requires { 0 < piece }
{
    let mut write: u32 = 1;
    let mut sent = String::new(alloc);
    for chunk in answer_of(asked.1).as_bytes().chunks(piece) {
        let failing = Failing { read: 0, write };
        ends(rt, alloc, asked, piece, failing, "5", &sent);
        sent.push_str(str::from_utf8(chunk).expect(rt, "memory"))
            .expect(rt, "memory");
        write = write.saturating_add(1);
    }
    let past = Failing { read: 0, write };
    ends(rt, alloc, asked, piece, past, "0", answer_of(asked.1))
}

// The top calls that are asked, each with its words.
const ASKED: [(Top, &str); 5] = [
    (Top::Soter, "check"),
    (Top::Soter, "fly"),
    (Top::Soter, "replay"),
    (Top::Bridge, "n e 1"),
    (Top::Regions, "3"),
];

// A failed read comes before a failed write.
#[test]
fn tells_of_each_failed_read(rt: HostRuntime) {
    let alloc = rt.alloc();
    let both = Failing { read: 2, write: 1 };
    for asked in ASKED {
        for piece in [1, 16, 4096] {
            reads_fail(&rt, alloc, asked, piece);
        }
        ends(&rt, alloc, asked, 16, both, "4", "");
    }
}

#[test]
fn tells_of_each_failed_write(rt: HostRuntime) {
    for asked in ASKED {
        for piece in [1, 16, 4096] {
            writes_fail(&rt, rt.alloc(), asked, piece);
        }
    }
}
