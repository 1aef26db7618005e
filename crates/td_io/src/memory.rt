//! A source and a sink in memory, which fail at listed calls.

ghost use Rattle.std.specs.Prelude.{◌≡◌, ◌≤◌, ◌<◌, ◌↔◌, ◌+◌, ◌++◌, [], Some, IfOk, IsOk, IsTrue, length, vec_len, vec_capacity};
ghost use Rattle.std.specs.List.{Contains};
ghost use Rattle.std.specs.Io.{ReadsAtMost, WritesAtMost};
ghost use Rattle.std.specs.Io.KnownBytes.{ReadConsumes, WriteAppends};
ghost use Rattle.td_io.specs.Faults.{HasCause, none_yet};
ghost use Rattle.td_io.specs.Memory.{ReadsNext, WritesNext};

use crate::faults::Faults;
use crate::slices::{copy_prefix, rest_at};
use crate::traits::{Failed, Sink, Source};
use std::alloc::{AllocError, Global};
use std::marker::Model;

fn is_listed(calls: &[u64], call: u64) -> bool
    ensures { IsTrue result ↔ Contains calls.now call }
{
    calls.contains(&call)
}

/// Bytes in memory, read from the first on, of which listed reads fail. A contract sees the bytes that are left, the
/// list, how many reads were made, modulo 2^64, and their faults.
#[derive(Drop)]
pub struct MemorySource {
    bytes: Vec<u8>,
    at: usize,
    fails: Vec<u64>,
    calls: u64,
    faults: Faults,
}

impl Model for MemorySource {
    ghost use Rattle.std.specs.Prelude.{drop, length, ◌≤◌};
    ghost use Rattle.td_io.specs.Memory.{Reading};

    ghost Value = { Reading };

    ghost view = { λ s. record { left = drop s.at s.bytes.items; fails = s.fails.items; calls = s.calls; faults = s.faults } };

    ghost invariant = { λ s. s.at ≤ length s.bytes.items };
}

impl MemorySource {
    /// All of these bytes are left to be read. The reads whose numbers are in `fails`, counted from 1, will fail. Takes
    /// no memory.
    pub fn over(bytes: Vec<u8>, fails: Vec<u64>) -> MemorySource
        ensures { result ≡ record { left = bytes.items; fails = fails.items; calls = 0; faults = none_yet } }
    {
        MemorySource {
            bytes,
            at: 0,
            fails,
            calls: 0,
            faults: Faults::none_yet(),
        }
    }

    /// The bytes that are left to be read.
    pub fn left(&self) -> &[u8]
        ensures { result.now ≡ self.now.left }
    {
        rest_at(&self.bytes, self.at)
    }
}

impl Source for MemorySource {
    ghost state = { λ s. record { left = Some s.left; faults = s.faults } };

    /// Reads as many bytes as are left and fit. Takes no memory.
    fn read(&mut self, buf: &mut [u8]) -> Result<usize, Failed>
        ensures next { ReadsNext self.old self.new buf.old buf.new result }
        ensures bound { ReadsAtMost result buf.new }
        ensures bytes { ReadConsumes (Some self.old.left) (Some self.new.left) result buf.new }
        ensures cause { HasCause self.old.faults self.new.faults result }
    {
        self.calls = self.calls.wrapping_add(1);
        if is_listed(&self.fails, self.calls) {
            self.faults.note_fault();
            return Err(Failed);
        }
        let n = copy_prefix(rest_at(&self.bytes, self.at), buf);
        self.at += n;
        self.faults.note_work();
        Ok(n)
    }
}

/// A sink in memory, of which listed writes fail, and those that find no room. A contract sees the bytes that were
/// written, for how many more there is room, the list, how many writes were made, modulo 2^64, and their faults.
#[derive(Drop)]
pub struct MemorySink {
    bytes: Vec<u8>,
    room: usize,
    fails: Vec<u64>,
    calls: u64,
    faults: Faults,
}

impl Model for MemorySink {
    ghost use Rattle.std.specs.Prelude.{◌+◌, ◌≤◌, vec_len, vec_capacity};
    ghost use Rattle.td_io.specs.Memory.{Writing};

    ghost Value = { Writing };

    ghost view = { λ s. record { written = s.bytes.items; room = s.room; fails = s.fails.items; calls = s.calls; faults = s.faults } };

    ghost invariant = { λ s. vec_len s.bytes + s.room ≤ vec_capacity s.bytes };
}

impl MemorySink {
    /// Nothing is written yet, and there is room for `n` bytes. The writes whose numbers are in `fails`, counted from 1,
    /// will fail. `AllocError`: there was no memory for the room; never for no room.
    pub fn with_room(alloc: Global, n: usize, fails: Vec<u64>) -> Result<MemorySink, AllocError>
        ensures empty { IfOk result (λ s. s ≡ record { written = []; room = n; fails = fails.items; calls = 0; faults = none_yet }) }
        ensures memory { n ≡ 0 → IsOk result }
    {
        let bytes = match n {
            0 => Vec::new(alloc),
            _ => Vec::with_capacity(alloc, n)?,
        };
        Ok(MemorySink {
            bytes,
            room: n,
            fails,
            calls: 0,
            faults: Faults::none_yet(),
        })
    }

    /// The bytes that were written.
    pub fn written(&self) -> &[u8]
        ensures { result.now ≡ self.now.written }
    {
        self.bytes.as_slice()
    }
}

fn push_within(bytes: &mut Vec<u8>, piece: &[u8])
    requires { vec_len bytes.old + length piece.now ≤ vec_capacity bytes.old }
    ensures items { bytes.new.items ≡ bytes.old.items ++ piece.now }
    ensures len { vec_len bytes.new ≡ vec_len bytes.old + length piece.now }
    ensures capacity { vec_capacity bytes.old ≤ vec_capacity bytes.new }
{
    let Ok(()) = bytes.extend_from_slice(piece) else {
        unreachable!()
    };
}

impl Sink for MemorySink {
    ghost state = { λ s. record { written = Some s.written; faults = s.faults } };

    /// Writes as many bytes as there is room for. Takes no memory.
    fn write(&mut self, piece: &[u8]) -> Result<usize, Failed>
        ensures next { WritesNext self.old self.new piece.now result }
        ensures bound { WritesAtMost result piece.now }
        ensures some { IfOk result (λ n. 0 < length piece.now → 0 < n) }
        ensures bytes { WriteAppends (Some self.old.written) (Some self.new.written) result piece.now }
        ensures cause { HasCause self.old.faults self.new.faults result }
    {
        self.calls = self.calls.wrapping_add(1);
        let is_full = self.room == 0 && !piece.is_empty();
        if is_full || is_listed(&self.fails, self.calls) {
            self.faults.note_fault();
            return Err(Failed);
        }
        let n = piece.len().min(self.room);
        push_within(&mut self.bytes, &piece[..n]);
        self.room -= n;
        self.faults.note_work();
        Ok(n)
    }
}
