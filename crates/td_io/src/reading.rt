//! Reading all of a source, up to a limit.

ghost use Rattle.std.specs.Prelude.{◌≤◌, ◌+◌, length, IfOk, OnOk, IsErrOf};
ghost use Rattle.std.specs.Io.KnownBytes.{IsAtEnd};
ghost use Rattle.td_io.specs.Causes.{HasMore, ReadWhole, TookAtMost, TookSome};
ghost use Rattle.td_io.specs.States.{ReadFails, ReadWorks, NoReadFails};

use crate::traits::Source;
use std::alloc::Global;
use thiserror::Error;

/// How many bytes are read at a time, at most.
pub const PIECE: usize = 4096;

/// Why a source wasn't read to its end.
#[derive(Clone, Copy, PartialEq, Eq, Debug, Error)]
pub enum ReadError {
    /// A read failed: the source's next fault.
    #[error("a read failed")]
    Fault,
    /// The source has more bytes than the limit.
    #[error("the source has more bytes than the limit")]
    TooLong,
    /// There was no memory for the bytes.
    #[error("out of memory")]
    NoMemory,
}

/// Reads a source to its end, at most `limit` bytes. It stops as soon as one byte past the limit was read, so it also
/// ends over a source that never does, and takes at most [`PIECE`] bytes more than the limit.
///
/// `Fault`: a read failed, and nothing was read after it; at each other end the latest read worked, and the source's count of
/// faults is as before.
/// `TooLong`: the source has more bytes than the limit; that is told whether there is memory or not, so at each other end
/// at most `limit` bytes were taken. `NoMemory`: there was no memory for bytes that were read, so at least one was; a source
/// that has none needs no memory.
pub fn read_whole<S: Source>(alloc: Global, src: &mut S, limit: usize) -> Result<Vec<u8>, ReadError>
    ensures whole { IfOk result (λ bytes. ReadWhole (S.state src.old).left bytes.items) }
    ensures end { OnOk result (IsAtEnd (S.state src.new).left) }
    ensures short { IfOk result (λ bytes. length bytes.items ≤ limit) }
    ensures long { IsErrOf result ReadError.TooLong → HasMore (S.state src.old).left limit }
    ensures fault { IsErrOf result ReadError.Fault → ReadFails (S.state src.old) (S.state src.new) }
    ensures quiet { (IsErrOf result ReadError.Fault → ⊥) → NoReadFails (S.state src.old) (S.state src.new) }
    ensures worked { (IsErrOf result ReadError.Fault → ⊥) → ReadWorks (S.state src.old) (S.state src.new) }
    ensures memory { IsErrOf result ReadError.NoMemory → TookSome (S.state src.old).left (S.state src.new).left limit }
    ensures taken { TookAtMost (S.state src.old).left (S.state src.new).left (limit + PIECE) }
    ensures within { (IsErrOf result ReadError.TooLong → ⊥) → TookAtMost (S.state src.old).left (S.state src.new).left limit }
{
    let mut bytes = Vec::new(alloc);
    let mut piece = [0u8; PIECE];
    'pieces: loop {
        let Ok(count) = src.read(&mut piece) else {
            return Err(ReadError::Fault);
        };
        if count == 0 {
            return Ok(bytes);
        }
        if count > limit - bytes.len() {
            return Err(ReadError::TooLong);
        }
        if bytes.extend_from_slice(&piece[..count]).is_err() {
            return Err(ReadError::NoMemory);
        }
    }
}
