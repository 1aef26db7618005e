//! A source and a sink that never fail.

ghost use Rattle.std.specs.Prelude.{◌≡◌, Ok, Some, None, length};
ghost use Rattle.std.specs.Io.{ReadsAtMost};
ghost use Rattle.std.specs.Io.KnownBytes.{ReadConsumes};
ghost use Rattle.td_io.specs.Faults.{HasCause, none_yet};
ghost use Rattle.td_io.specs.Quiet.{HandsOver};

use crate::slices::{copy_prefix, rest_at};
use crate::traits::{Failed, Sink, Source};
use std::marker::Model;

/// Bytes in memory, read from the first on. A contract sees those that are left.
#[derive(Drop)]
pub struct QuietSource {
    bytes: Vec<u8>,
    at: usize,
}

impl Model for QuietSource {
    ghost use Rattle.std.specs.Prelude.{List, ℕ, drop, length, ◌≤◌};

    ghost Value = { List ℕ };

    ghost view = { λ s. drop s.at s.bytes.items };

    ghost invariant = { λ s. s.at ≤ length s.bytes.items };
}

impl QuietSource {
    /// All of these bytes are left to be read. Takes no memory.
    pub fn over(bytes: Vec<u8>) -> QuietSource
        ensures { result ≡ bytes.items }
    {
        QuietSource { bytes, at: 0 }
    }
}

impl Source for QuietSource {
    ghost state = { λ s. record { left = Some s; faults = none_yet } };

    /// Reads as many bytes as are left and fit. Takes no memory.
    fn read(&mut self, buf: &mut [u8]) -> Result<usize, Failed>
        ensures next { HandsOver self.old self.new buf.old buf.new result }
        ensures bound { ReadsAtMost result buf.new }
        ensures bytes { ReadConsumes (Some self.old) (Some self.new) result buf.new }
        ensures cause { HasCause none_yet none_yet result }
    {
        let n = copy_prefix(rest_at(&self.bytes, self.at), buf);
        self.at += n;
        Ok(n)
    }
}

/// A sink that drops what it takes, and tells nothing of it.
#[derive(Clone, Copy, PartialEq, Eq)]
pub struct QuietSink;

impl Sink for QuietSink {
    ghost state = { λ _. record { written = None; faults = none_yet } };

    /// Takes all that it is given.
    fn write(&mut self, piece: &[u8]) -> Result<usize, Failed>
        ensures { result ≡ Ok (length piece.now) }
    {
        Ok(piece.len())
    }
}
