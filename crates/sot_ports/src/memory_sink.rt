//! Sinks into memory, and one that tells nothing.

ghost use Rattle.std.specs.Prelude.{◌≡◌, ℕ, ◌<◌, ◌≤◌, [], ◌⊎◌, ◌↔◌, None, Some, Ok, length, is_err};
ghost use Rattle.std.specs.Prelude.{IsTrue, Contains, IfOk, MatchResult};
ghost use Rattle.std.specs.Io.KnownBytes.{WriteAppends};
ghost use Rattle.sot_ports.specs.Faults.{HasCause};

use crate::memory_source::is_listed;
use crate::port::{Failed, Sink, one_more_fault};
use std::alloc::{AllocError, Global};
use std::marker::Model;

/// A sink into memory of a fixed room, which fails at stated calls.
#[derive(Drop)]
pub struct MemSink {
    bytes: Vec<u8>,
    room: usize,
    piece: usize,
    fails: Vec<u32>,
    calls: u64,
    faults: u64,
}

impl Model for MemSink {
    ghost use Rattle.std.specs.Prelude.{◌<◌, ◌≤◌, vec_len, vec_capacity};
    ghost use Rattle.sot_ports.specs.MemorySink.{SinkState};

    ghost Value = { SinkState };

    ghost view = { λ s. record {
      held = s.bytes.items;
      room = s.room;
      piece = s.piece;
      fails = s.fails.items;
      calls = s.calls;
      faults = s.faults;
    } };

    ghost invariant = { λ s.
        (vec_len s.bytes ≤ s.room) × (s.room ≤ vec_capacity s.bytes) × (0 < s.piece) };
}

impl MemSink {
    /// An empty sink with room for `room` bytes, which is taken here and never again. It takes at
    /// most `piece` bytes at a call, and fails the calls with these numbers, from 1, and each call
    /// when its room is full.
    pub fn new(
        alloc: Global,
        room: usize,
        piece: usize,
        fails: Vec<u32>,
    ) -> Result<MemSink, AllocError>
        requires { 0 < piece }
        ensures { IfOk result (λ sink. sink ≡ record {
          held = [];
          room = room;
          piece = piece;
          fails = fails.items;
          calls = 0;
          faults = 0;
        }) }
    {
        let bytes = Vec::with_capacity(alloc, room)?;
        Ok(MemSink {
            bytes,
            room,
            piece,
            fails,
            calls: 0,
            faults: 0,
        })
    }

    /// The bytes that it has taken.
    pub fn bytes(&self) -> &[u8]
        ensures { result.now ≡ self.now.held }
    {
        &self.bytes
    }
}

// Whether a call fails: its number is listed, or the room is full.
fn is_refused(fails: &[u32], call: u64, room: usize, len: usize) -> bool
    ensures { IsTrue result ↔ (Contains fails.now call ⊎ (room ≤ len)) }
{
    room <= len || is_listed(fails, call)
}

impl Sink for MemSink {
    ghost use Rattle.sot_ports.specs.MemorySink.{NextFails, Takes, failed_sink};

    ghost held = { λ s. Some s.held };

    ghost faults = { λ s. s.faults };

    fn write(&mut self, bytes: &[u8]) -> Result<usize, Failed>
        requires { 0 < length bytes.now }
        ensures some { IfOk result (λ count. 0 < count) }
        ensures bound { IfOk result (λ count. count ≤ length bytes.now) }
        ensures bytes { WriteAppends (Some self.old.held) (Some self.new.held) result bytes.now }
        ensures cause { HasCause self.old.faults self.new.faults result }

        ensures fails { IsTrue (is_err result) ↔ NextFails self.old }
        ensures outcome { MatchResult result
            (Takes self.old self.new bytes.now) (λ _. self.new ≡ failed_sink self.old) }
    {
        self.calls = self.calls.saturating_add(1);
        let free = self.room - self.bytes.len();
        let count = self.piece.min(bytes.len().min(free));
        if is_refused(&self.fails, self.calls, self.room, self.bytes.len()) {
            return Err(one_more_fault(&mut self.faults));
        }
        match self.bytes.extend_from_slice(&bytes[..count]) {
            Ok(()) => Ok(count),
            Err(_) => Err(one_more_fault(&mut self.faults)),
        }
    }
}

/// A sink that takes everything, tells nothing and never fails.
#[derive(Clone, Copy, Debug)]
pub struct NullSink;

impl NullSink {
    /// A sink for texts that nobody reads.
    pub fn new() -> NullSink {
        NullSink
    }
}

impl Sink for NullSink {
    ghost held = { λ _. None };

    ghost faults = { λ _. 0 };

    fn write(&mut self, bytes: &[u8]) -> Result<usize, Failed>
        requires { 0 < length bytes.now }
        ensures some { IfOk result (λ count. 0 < count) }
        ensures bound { IfOk result (λ count. count ≤ length bytes.now) }
        ensures bytes { WriteAppends None None result bytes.now }
        ensures cause { HasCause 0 0 result }

        ensures takes_all { result ≡ Ok (length bytes.now) }
    {
        Ok(bytes.len())
    }
}
