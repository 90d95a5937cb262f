//! Tests of sources and sinks.

ghost use Rattle.std.specs.Prelude.{◌≤◌, IfOk};

use super::same;
use sot_ports::*;
use std::alloc::Global;
use std::io;
use std::io::{Read, Write};
use std::process::Abort;

/// How five letters are read: the room of a piece, the read that fails (0: none) and the limit; then
/// what `read_all` gives, and what the next read gives.
#[derive(Clone, Copy)]
struct Reading {
    room: usize,
    fails: u32,
    limit: usize,
    want: &'static str,
}

fn read_by(room: usize, fails: u32, limit: usize, want: &'static str) -> Reading {
    Reading {
        room,
        fails,
        limit,
        want,
    }
}

fn put(rt: &impl Abort, said: &mut String, text: &str) {
    said.push_str(text).expect(rt, "memory");
}

fn put_bytes(rt: &impl Abort, said: &mut String, bytes: &[u8]) {
    put(rt, said, str::from_utf8(bytes).expect(rt, "a text"));
}

/// What the next read gives.
fn put_next(rt: &impl Abort, source: &mut MemSource, said: &mut String) {
    let mut room = [0; 9];
    match source.read(&mut room) {
        Ok(0) => put(rt, said, ", then nothing"),
        Ok(count) => {
            put(rt, said, ", then ");
            put_bytes(rt, said, &room[..count]);
        }
        Err(Failed) => put(rt, said, ", then a fault"),
    }
}

/// What a reading gives.
fn read_as(rt: &impl Abort, alloc: Global, reading: &Reading) -> String {
    let bytes = Vec::from_slice(alloc, b"abcde").expect(rt, "memory");
    let fails = vec![in alloc; reading.fails].expect(rt, "memory");
    let mut source = MemSource::new(bytes, reading.room.max(1), fails);
    let mut said = match read_all(alloc, &mut source, reading.limit.min(9)) {
        Ok(all) => String::from_utf8(all).ok().expect(rt, "a text"),
        Err(fail) => format!(in alloc; "{fail:?}").expect(rt, "memory"),
    };
    put_next(rt, &mut source, &mut said);
    said
}

#[test]
fn reads_to_the_end_or_says_why_not(rt: HostRuntime) {
    let alloc = rt.alloc();
    for row in [
        read_by(2, 0, 5, "abcde, then nothing"),
        read_by(9, 0, 6, "abcde, then nothing"),
        read_by(9, 0, 4, "TooLong, then nothing"),
        read_by(9, 0, 3, "TooLong, then e"),
        read_by(2, 2, 5, "Fault, then cd"),
        read_by(2, 4, 5, "Fault, then nothing"),
    ] {
        let said = read_as(&rt, alloc, &row);
        same(
            &rt,
            (row.room, row.fails, row.limit),
            said.as_str(),
            row.want,
        );
    }
    let bytes = Vec::from_slice(alloc, b"abcde").expect(&rt, "memory");
    let all = read_all(alloc, &mut PureSource::new(bytes), 5);
    same(&rt, "pure", all.ok().as_deref(), Some(b"abcde".as_slice()));
}

/// How five letters are written: the room of a sink, that of a piece and the write that fails
/// (0: none); then how the write ends, and what the sink holds.
#[derive(Clone, Copy)]
struct Writing {
    room: usize,
    piece: usize,
    fails: u32,
    want: &'static str,
}

fn write_by(room: usize, piece: usize, fails: u32, want: &'static str) -> Writing {
    Writing {
        room,
        piece,
        fails,
        want,
    }
}

/// What a writing gives.
fn written_as(rt: &impl Abort, alloc: Global, writing: &Writing) -> String {
    let fails = vec![in alloc; writing.fails].expect(rt, "memory");
    let (room, piece) = (writing.room.min(9), writing.piece.max(1));
    let mut sink = MemSink::new(alloc, room, piece, fails).expect(rt, "memory");
    let mut said = String::new(alloc);
    match write_whole(&mut sink, b"abcde") {
        Ok(()) => put(rt, &mut said, "whole: "),
        Err(fault) => write!(said, "{}: ", fault.sent).expect(rt, "memory"),
    }
    put_bytes(rt, &mut said, sink.bytes());
    said
}

#[test]
fn writes_whole_or_says_how_much(rt: HostRuntime) {
    for row in [
        write_by(9, 2, 0, "whole: abcde"),
        write_by(5, 9, 0, "whole: abcde"),
        write_by(9, 2, 2, "2: ab"),
        write_by(4, 3, 0, "4: abcd"),
    ] {
        let said = written_as(&rt, rt.alloc(), &row);
        same(
            &rt,
            (row.room, row.piece, row.fails),
            said.as_str(),
            row.want,
        );
    }
}

#[test]
fn writes_to_nowhere_and_to_the_standard_output(rt: HostRuntime) {
    let nowhere = write_whole(&mut NullSink::new(), b"abcde");
    same(&rt, "nowhere", nowhere.is_ok(), true);
    let out = write_whole(&mut StdSink::new(rt.stdout()), b"standard output\n");
    same(&rt, "the standard output", out.is_ok(), true);
}

// An outside of which nothing is known: each call answers by the next letter, `e` with an error,
// `z` with 0 and `o` with 1. Flushes go by the same letters.
#[derive(Drop)]
struct Script<'a> {
    letters: &'a [u8],
}

impl Script<'_> {
    fn next(&mut self, most: usize) -> io::Result<usize>
        ensures { IfOk result (λ n. n ≤ most) }
    {
        match self.letters {
            [b'o', rest @ ..] if most > 0 => {
                self.letters = rest;
                Ok(1)
            }
            [b'z', rest @ ..] => {
                self.letters = rest;
                Ok(0)
            }
            [_, rest @ ..] => {
                self.letters = rest;
                Err(io::Error::from(io::ErrorKind::Other))
            }
            [] => Err(io::Error::from(io::ErrorKind::Other)),
        }
    }
}

impl Read for Script<'_> {
    fn read(&mut self, buf: &mut [u8]) -> io::Result<usize> {
        self.next(buf.len())
    }
}

impl Write for Script<'_> {
    fn write(&mut self, buf: &[u8]) -> io::Result<usize> {
        self.next(buf.len())
    }

    fn flush(&mut self) -> io::Result<()> {
        self.next(1)?;
        Ok(())
    }
}

/// A counted call.
fn counted(script: &mut Script<'_>, is_read: bool, faults: &mut u64) -> Result<usize, Failed> {
    if is_read {
        counted_read(script, &mut [0; 3], faults)
    } else {
        counted_write(script, b"abc", faults)
    }
}

/// What two counted calls of an outside say that answers by these letters, and what they count.
fn counted_as(rt: &impl Abort, alloc: Global, is_read: bool, letters: &str) -> String {
    let mut script = Script {
        letters: letters.as_bytes(),
    };
    let mut faults = 0;
    let first = counted(&mut script, is_read, &mut faults);
    let second = counted(&mut script, is_read, &mut faults);
    format!(in alloc; "{first:?} {second:?} {faults}").expect(rt, "memory")
}

/// A write that took a byte is flushed, and only such a one.
#[test]
fn counts_the_faults_of_the_standard_ends(rt: HostRuntime) {
    for (is_read, letters, want) in [
        (true, "oo", "Ok(1) Ok(1) 0"),
        (true, "ze", "Ok(0) Err(Failed) 1"),
        (true, "ee", "Err(Failed) Err(Failed) 2"),
        (false, "ozoz", "Ok(1) Ok(1) 0"),
        (false, "oeoz", "Err(Failed) Ok(1) 1"),
        (false, "zoz", "Err(Failed) Ok(1) 1"),
        (false, "eoz", "Err(Failed) Ok(1) 1"),
    ] {
        let said = counted_as(&rt, rt.alloc(), is_read, letters);
        same(&rt, (is_read, letters), said.as_str(), want);
    }
}

#[test]
fn counts_no_further_than_there_are_numbers(rt: HostRuntime) {
    let mut script = Script { letters: b"e" };
    let mut last = u64::MAX;
    let read = counted_read(&mut script, &mut [0], &mut last);
    same(&rt, "fails", read.is_err(), true);
    same(&rt, "faults", last, u64::MAX);
}
