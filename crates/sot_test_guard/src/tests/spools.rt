//! Texts that go to a sink through a spool, and the sink may fail.

use super::*;
use sot_ports::MemSink;
use sot_text_output::{Out, Spool, room};

// The room of the sink, the most bytes of a write, the write that fails (0: none), how many `x` are
// put first as one text, and what is put behind them, one by one; then whether all came, how many
// bytes the sink has, and the last five of them.
const ROWS: &str = "9 9 0 0 ab c de => all 5 abcde
9 2 0 0 ab c de => all 5 abcde
4 9 0 0 ab c de => failed 4 abcd
9 2 2 0 ab c de => failed 2 ab
9 9 1 0 ab => failed 0
9 9 1 0 => all 0
70000 70000 0 65536 a b => all 65538 xxxab
70000 70000 0 65537 ab c => all 65540 xxabc
70000 70000 0 65535 ab c => all 65538 xxabc
70000 1000 66 65535 ab c => failed 65000 xxxxx
65535 70000 0 65535 ab c => failed 65535 xxxxx
70000 70000 2 65537 ab c => failed 65537 xxxxx
70000 70000 1 65537 ab c => failed 0";

// Puts a text, one of a single byte by itself.
fn put<O: Out>(out: &mut O, text: &str) {
    match text.as_bytes() {
        [byte] if *byte < 128 => out.put_byte(*byte),
        _ => out.put(text),
    }
}

// Puts what a row says, and tells whether all came.
fn is_all_put(alloc: Global, row: &str, sink: &mut MemSink) -> Result<bool, AllocError> {
    let many = behind_many(alloc, number(row, 3) as usize, "")?;
    let mut waiting = room(alloc)?;
    let mut spool = Spool::new(&mut waiting, sink);
    spool.put(many.as_str());
    for text in row.split(' ').skip(4) {
        put(&mut spool, text);
    }
    Ok(spool.end().is_ok())
}

// What comes of a row.
fn said_of(alloc: Global, row: &str) -> Result<String, AllocError> {
    let fails = vec![in alloc; number(row, 2)]?;
    let piece = number(row, 1).max(1) as usize;
    let mut sink = MemSink::new(alloc, number(row, 0) as usize, piece, fails)?;
    let all = is_all_put(alloc, row, &mut sink)?;
    let bytes = sink.bytes();
    let word = if all { "all" } else { "failed" };
    let mut text = String::new(alloc);
    write!(text, "{word} {}", bytes.len())?;
    if !bytes.is_empty() {
        text.push(' ')?;
    }
    for byte in &bytes[bytes.len().saturating_sub(5)..] {
        text.push(char::from(*byte))?;
    }
    Ok(text)
}

#[test]
fn texts_arrive_or_a_front_of_them(rt: HostRuntime) {
    let alloc = rt.alloc();
    for row in ROWS.lines() {
        let (given, want) = halves(row);
        let said = said_of(alloc, given).expect(&rt, "memory");
        same(&rt, row, said.as_str(), want);
    }
}
