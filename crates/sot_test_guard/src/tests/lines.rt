//! Lines of a source that gives them in pieces.

use super::*;
use sot_guard_input::{LineBuffer, Waited};
use sot_ports::{Failed, MemSource};

// How many `x` the source has in front, the most bytes of a read, the read that fails (0: none),
// and what comes behind the `x`; then what each waiting gives, with the line or with all that
// waits: of more than nine bytes their count. A whole line is passed, and so is what waits without
// a line end.
const ROWS: &str = "0 1 0 ab|c => line ab|, last c
0 9 0 ab|c => line ab|, last c
0 9 0 a||b| => line a|, line |, line b|, last
0 2 0 abc|d| => line abc|, line d|, last
0 3 0 abc|d| => line abc|, line d|, last
0 9 0 => last
0 9 0 | => line |, last
0 2 2 abcd| => failed ab, line abcd|, last
0 9 2 a|b| => line a|, line b|, failed, last
0 9 1 a| => failed, line a|, last
0 2 3 abc => failed abc, last abc
65535 4096 0 |a => line 65536, last a
65536 65536 0 |a => long 65536, line |, last a
65536 5000 0 => long 65536, last
65537 700 0 | => long 65536, line x|, last
65535 900 0 => last 65535
65534 65536 0 |bc|d => line 65535, line bc|, last d";

// Adds a word and bytes.
fn push_bytes(word: &str, bytes: &[u8], text: &mut String) -> Result<(), AllocError> {
    text.push_str(word)?;
    if bytes.len() > 9 {
        return write!(text, " {}", bytes.len());
    }
    if !bytes.is_empty() {
        text.push(' ')?;
    }
    for byte in bytes {
        text.push(if *byte == b'\n' {
            '|'
        } else {
            char::from(*byte)
        })?;
    }
    Ok(())
}

// A word for what came, of how many bytes it is told where so many wait, and how many are passed.
fn told(waited: Result<Waited, Failed>, waiting: usize) -> (&'static str, usize, usize) {
    match waited {
        Ok(Waited::Line(len)) => ("line", len, len),
        Ok(Waited::TooLong) => ("long", waiting, waiting),
        Ok(Waited::Last) => ("last", waiting, 0),
        Err(_) => ("failed", waiting, 0),
    }
}

// Passes so many bytes, where they wait.
fn pass(buffer: &mut LineBuffer, count: usize) {
    if count <= buffer.bytes().len() {
        buffer.pass(count);
    }
}

// Waits once, adds what came, and passes it. The answer is whether more may come.
fn push_waited(
    buffer: &mut LineBuffer,
    source: &mut MemSource,
    text: &mut String,
) -> Result<bool, AllocError> {
    let waited = buffer.wait(source);
    let bytes = buffer.bytes();
    let (word, count, passed) = told(waited, bytes.len());
    push_bytes(word, bytes.get(..count).unwrap_or(b"none"), text)?;
    pass(buffer, passed);
    Ok(word != "last")
}

// What comes of a row.
fn said_of(alloc: Global, row: &str) -> Result<String, AllocError> {
    let behind = unescaped(alloc, row.split(' ').nth(3).unwrap_or(""))?;
    let bytes = behind_many(alloc, number(row, 0) as usize, behind.as_str())?;
    let fails = vec![in alloc; number(row, 2)]?;
    let piece = number(row, 1).max(1) as usize;
    let mut source = MemSource::new(bytes.into_bytes(), piece, fails);
    let mut buffer = LineBuffer::new(alloc)?;
    let mut text = String::new(alloc);
    for _ in 0..9 {
        if !push_waited(&mut buffer, &mut source, &mut text)? {
            break;
        }
        text.push_str(", ")?;
    }
    Ok(text)
}

#[test]
fn lines_come_one_by_one(rt: HostRuntime) {
    let alloc = rt.alloc();
    for row in ROWS.lines() {
        let (given, want) = halves(row);
        let said = said_of(alloc, given).expect(&rt, "memory");
        same(&rt, row, said.as_str(), want);
    }
}
