//! What a source and a sink of bytes are.

ghost use Rattle.std.specs.Prelude.{◌<◌, length, IfOk};
ghost use Rattle.std.specs.Io.{ReadsAtMost, WritesAtMost};
ghost use Rattle.std.specs.Io.KnownBytes.{ReadConsumes, WriteAppends};
ghost use Rattle.td_io.specs.Faults.{HasCause};
ghost use Rattle.td_io.specs.States.{SourceState, SinkState};

use thiserror::Error;

/// A read or a write failed. It is the next fault of the source or the sink.
#[derive(Clone, Copy, PartialEq, Eq, Debug, Error)]
#[error("a read or a write failed")]
pub struct Failed;

/// Where bytes come from.
pub trait Source {
    /// The bytes that are left to be read, where the source tells them, and its faults so far: how many of its reads
    /// failed, modulo 2^64, and whether the latest did.
    ghost state: { Self → SourceState };

    /// Reads bytes to the beginning of a buffer, and says how many. None, where the buffer isn't empty, are the end.
    ///
    /// `Failed`: the read failed and took nothing. It is the next fault.
    fn read(&mut self, buf: &mut [u8]) -> Result<usize, Failed>
        ensures bound { ReadsAtMost result buf.new }
        ensures bytes { ReadConsumes (state self.old).left (state self.new).left result buf.new }
        ensures cause { HasCause (state self.old).faults (state self.new).faults result };
}

/// Where bytes go.
pub trait Sink {
    /// The bytes that were written, where the sink tells them, and its faults so far: how many of its writes failed,
    /// modulo 2^64, and whether the latest did.
    ghost state: { Self → SinkState };

    /// Writes bytes from the beginning of a piece, and says how many: at least one, where the piece isn't empty.
    ///
    /// `Failed`: the write failed and wrote nothing. It is the next fault.
    fn write(&mut self, piece: &[u8]) -> Result<usize, Failed>
        ensures bound { WritesAtMost result piece.now }
        ensures some { IfOk result (λ n. 0 < length piece.now → 0 < n) }
        ensures bytes { WriteAppends (state self.old).written (state self.new).written result piece.now }
        ensures cause { HasCause (state self.old).faults (state self.new).faults result };
}
