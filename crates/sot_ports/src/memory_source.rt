//! Sources from memory.

ghost use Rattle.std.specs.Prelude.{◌≡◌, ℕ, ◌<◌, ◌≤◌, [], ◌+◌, ◌++◌, ◌↔◌, Some, take, drop, length};
ghost use Rattle.std.specs.Prelude.{min, vec_len, is_err, IsTrue, Contains, IfOk, IsOk};
ghost use Rattle.std.specs.Prelude.{MatchResult};
ghost use Rattle.std.specs.Io.{ReadsAtMost};
ghost use Rattle.std.specs.Io.KnownBytes.{ReadConsumes};
ghost use Rattle.sot_ports.specs.Faults.{HasCause, counted};

use crate::port::{Failed, Source, one_more_fault};
use std::marker::Model;

/// A source over bytes in memory, which fails at stated calls.
#[derive(Drop)]
pub struct MemSource {
    bytes: Vec<u8>,
    at: usize,
    piece: usize,
    fails: Vec<u32>,
    calls: u64,
    faults: u64,
}

impl Model for MemSource {
    ghost use Rattle.std.specs.Prelude.{◌<◌, ◌≤◌, drop, vec_len};
    ghost use Rattle.sot_ports.specs.MemorySource.{SourceState};

    ghost Value = { SourceState };

    ghost view = { λ s. record {
      left = drop s.at s.bytes.items;
      piece = s.piece;
      fails = s.fails.items;
      calls = s.calls;
      faults = s.faults;
    } };

    ghost invariant = { λ s. (s.at ≤ vec_len s.bytes) × (0 < s.piece) };
}

impl MemSource {
    /// Gives at most `piece` bytes at a call, and fails the calls with these numbers, from 1.
    pub fn new(bytes: Vec<u8>, piece: usize, fails: Vec<u32>) -> MemSource
        requires { 0 < piece }
        ensures { result ≡ record {
          left = bytes.items;
          piece = piece;
          fails = fails.items;
          calls = 0;
          faults = 0;
        } }
    {
        MemSource {
            bytes,
            at: 0,
            piece,
            fails,
            calls: 0,
            faults: 0,
        }
    }
}

/// Whether a call stands among the numbers of those that fail.
pub fn is_listed(fails: &[u32], call: u64) -> bool
    ensures { IsTrue result ↔ Contains fails.now call }
{
    fails.iter().any(|n| u64::from(*n) == call)
}

// Copies what fits to the front of a buffer, and at most so many bytes.
fn give(bytes: &[u8], most: usize, buf: &mut [u8]) -> usize
    ensures count { result ≡ min most (min (length buf.old) (length bytes.now)) }
    ensures bytes { buf.new ≡ take result bytes.now ++ drop result buf.old }
{
    let count = most.min(buf.len().min(bytes.len()));
    buf[..count].copy_from_slice(&bytes[..count]);
    count
}

// Copies what fits, from a place on, to the front of a buffer, and at most so many bytes. No byte
// comes only where none is left.
fn give_from(bytes: &[u8], at: usize, most: usize, buf: &mut [u8]) -> usize
    requires within { at ≤ length bytes.now }
    requires some { 0 < most }
    requires room { 0 < length buf.old }
    ensures count { result ≡ min most (min (length buf.old) (length (drop at bytes.now))) }
    ensures bytes { buf.new ≡ take result (drop at bytes.now) ++ drop result buf.old }
    ensures next { drop at bytes.now ≡ take result buf.new ++ drop (at + result) bytes.now }
    ensures end { result ≡ 0 → drop (at + result) bytes.now ≡ [] }
    ensures inside { at + result ≤ length bytes.now }
{
    give(&bytes[at..], most, buf)
}

impl Source for MemSource {
    ghost use Rattle.sot_ports.specs.MemorySource.{Gives, failed_source};

    ghost left = { λ s. Some s.left };

    ghost faults = { λ s. s.faults };

    fn read(&mut self, buf: &mut [u8]) -> Result<usize, Failed>
        requires { 0 < length buf.old }
        ensures bound { ReadsAtMost result buf.new }
        ensures bytes { ReadConsumes (Some self.old.left) (Some self.new.left) result buf.new }
        ensures cause { HasCause self.old.faults self.new.faults result }

        ensures listed { IsTrue (is_err result) ↔ Contains self.old.fails (counted self.old.calls) }
        ensures outcome { MatchResult result
            (Gives self.old self.new buf.old buf.new) (λ _. self.new ≡ failed_source self.old) }
    {
        self.calls = self.calls.saturating_add(1);
        if is_listed(&self.fails, self.calls) {
            return Err(one_more_fault(&mut self.faults));
        }
        let count = give_from(&self.bytes, self.at, self.piece, buf);
        self.at += count;
        Ok(count)
    }
}

/// A source over bytes in memory, which never fails.
#[derive(Drop)]
pub struct PureSource {
    bytes: Vec<u8>,
    at: usize,
}

impl Model for PureSource {
    ghost use Rattle.std.specs.Prelude.{ℕ, ◌≤◌, List, drop, vec_len};

    // the bytes still to come
    ghost Value = { List ℕ };

    ghost view = { λ s. drop s.at s.bytes.items };

    ghost invariant = { λ s. s.at ≤ vec_len s.bytes };
}

impl PureSource {
    /// Gives these bytes.
    pub fn new(bytes: Vec<u8>) -> PureSource
        ensures { result ≡ bytes.items }
    {
        PureSource { bytes, at: 0 }
    }
}

impl Source for PureSource {
    ghost left = { λ s. Some s };

    ghost faults = { λ _. 0 };

    fn read(&mut self, buf: &mut [u8]) -> Result<usize, Failed>
        requires { 0 < length buf.old }
        ensures bound { ReadsAtMost result buf.new }
        ensures bytes { ReadConsumes (Some self.old) (Some self.new) result buf.new }
        ensures cause { HasCause 0 0 result }

        ensures never_fails { IsOk result }
        ensures count { IfOk result (λ n. n ≡ min (length buf.old) (length self.old)) }
        ensures rest { IfOk result (λ n. self.new ≡ drop n self.old) }
    {
        let count = give_from(&self.bytes, self.at, buf.len(), buf);
        self.at += count;
        Ok(count)
    }
}
