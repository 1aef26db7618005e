//! The first field of bytes that is wrong, and why reading them ended.

use std::alloc::{AllocError, AllocFailed};

/// Which field has a value that isn't allowed: the first four bytes, the version, or another.
#[derive(Clone, Copy, Drop)]
pub enum Cause {
    Magic,
    Version,
    Field,
}

/// The first field that is wrong.
#[derive(Clone, Copy, Drop)]
pub enum Fault {
    /// It isn't whole.
    Short,
    /// Its value isn't allowed. `left`: how many bytes there are from its first one on.
    Wrong { cause: Cause, left: usize },
}

/// Why reading ended.
#[derive(Clone, Copy, Drop)]
pub enum ReadError {
    /// There was no memory for what was read.
    NoMemory,
    /// A field is wrong.
    Fault(Fault),
}

impl From<AllocError> for ReadError {
    ghost use Rattle.std.specs.Prelude.{◌≡◌};
    ghost use Rattle.td_image.specs.declared.fault.ReadError.TheVariants.{NoMemory};

    ghost from_gives = { λ _ e. e ≡ NoMemory };

    fn from(_error: AllocError) -> ReadError {
        ReadError::NoMemory
    }
}

impl<T: Drop> From<AllocFailed<T>> for ReadError {
    ghost use Rattle.std.specs.Prelude.{◌≡◌};
    ghost use Rattle.td_image.specs.declared.fault.ReadError.TheVariants.{NoMemory};

    ghost from_gives = { λ _ e. e ≡ NoMemory };

    fn from(_error: AllocFailed<T>) -> ReadError {
        ReadError::NoMemory
    }
}
