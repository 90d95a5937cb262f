//! A room of fixed size, filled from its front.

ghost use Rattle.std.specs.Prelude.{◌≡◌, ◌+◌, ◌<◌, ◌≤◌, [], ◌++◌, List, ℕ, true, false, length};
ghost use Rattle.std.specs.Prelude.{drop, take, IfOk, IfErr, OnOk};
ghost use Rattle.std.specs.Io.KnownBytes.{Consumes, Keeps, IsAtEnd};
ghost use Rattle.sot_ports.specs.Faults.{HasCause, Rose};
ghost use Rattle.sot_guard_input.specs.Waiting.{longest, has_end, Waits, Comes, Arrives};

use crate::first::first_line;
use crate::waited::Waited;
use sot_ports::{Failed, Source};
use std::alloc::{AllocError, Global};
use std::marker::Model;

/// The most bytes of a line, with its line end.
const LONGEST: usize = 65536;

/// The bytes at the front of a room.
#[derive(Drop)]
pub struct Room {
    bytes: Vec<u8>,
    end: usize,
}

impl Model for Room {
    ghost use Rattle.std.specs.Prelude.{List, ℕ, ◌≡◌, ◌≤◌, take, vec_len};

    ghost Value = { List ℕ };

    ghost view = { λ r. take r.end r.bytes.items };

    ghost invariant = { λ r. (vec_len r.bytes ≡ 65536) × (r.end ≤ 65536) };
}

// Puts bytes of a source behind the first ones, which stay. A source is asked only where no line
// end has come: who speaks may wait for the answer to a whole line.
fn read_behind<S: Source>(bytes: &mut [u8], end: usize, source: &mut S) -> Result<usize, Failed>
    requires room { length bytes.old ≡ 65536 }
    requires some { end < 65536 }
    requires open { has_end (take end bytes.old) ≡ false }
    ensures room { length bytes.new ≡ 65536 }
    ensures more { IfOk result (λ n. (end + n ≤ 65536)
        × ((more : List ℕ) × (length more ≡ n)
        × Consumes (S.left source.old) (S.left source.new) more
        × (take (end + n) bytes.new ≡ take end bytes.old ++ more))) }
    ensures last { IfOk result (λ n. n ≡ 0 → IsAtEnd (S.left source.new)) }
    ensures same { take end bytes.new ≡ take end bytes.old }
    ensures kept { IfErr result (λ _. Keeps (S.left source.old) (S.left source.new)) }
    ensures cause { HasCause (S.faults source.old) (S.faults source.new) result }
{
    match source.read(&mut bytes[end..]) {
        Ok(count) => Ok(count),
        Err(Failed) => Err(Failed),
    }
}

impl Room {
    pub fn new(alloc: Global) -> Result<Room, AllocError>
        ensures { IfOk result (λ r. r ≡ []) }
    {
        let bytes = vec![in alloc; 0u8; LONGEST]?;
        Ok(Room { bytes, end: 0 })
    }

    /// The bytes.
    pub fn bytes(&self) -> &[u8]
        ensures value { result.now ≡ self.now }
        ensures few { length result.now ≤ longest }
    {
        &self.bytes[..self.end]
    }

    /// Leaves the first bytes out, so many.
    pub fn leave_out(&mut self, count: usize)
        requires { count ≤ length self.old }
        ensures { self.new ≡ drop count self.old }
    {
        self.bytes.copy_within(count..self.end, 0);
        self.end -= count;
    }

    // Reads more bytes behind those that are there, and tells how many came: none only at the end
    // of the source.
    fn read_more<S: Source>(&mut self, source: &mut S) -> Result<usize, Failed>
        requires room { length self.old < longest }
        requires open { has_end self.old ≡ false }
        ensures arrives { IfOk result (λ n.
            Arrives (S.left source.old) (S.left source.new) self.old self.new n) }
        ensures same { IfErr result (λ _. self.new ≡ self.old) }
        ensures kept { IfErr result (λ _. Keeps (S.left source.old) (S.left source.new)) }
        ensures cause { HasCause (S.faults source.old) (S.faults source.new) result }
    {
        let count = read_behind(&mut self.bytes, self.end, source)?;
        self.end += count;
        Ok(count)
    }

    /// Reads until a line end comes, where there is none.
    pub fn fill<S: Source>(&mut self, source: &mut S) -> Result<Waited, Failed>
        requires { has_end self.old ≡ false }
        ensures comes { Comes (S.left source.old) (S.left source.new) self.old self.new }
        ensures waits { IfOk result (λ w. Waits w self.new (S.left source.new)) }
        ensures few { length self.new ≤ longest }
        ensures fault { IfErr result (λ _. Rose (S.faults source.old) (S.faults source.new)) }
        ensures well { OnOk result (S.faults source.new ≡ S.faults source.old) }
        ensures later { S.faults source.old ≤ S.faults source.new }
    {
        while self.bytes().len() < LONGEST {
            let before = self.bytes().len();
            if self.read_more(source)? == 0 {
                return Ok(Waited::Last);
            }
            if let Some(len) = first_line(&self.bytes()[before..]) {
                return Ok(Waited::Line(before + len));
            }
        }
        Ok(Waited::TooLong)
    }
}
