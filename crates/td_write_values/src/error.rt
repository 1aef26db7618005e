//! Why a value isn't written.

use std::alloc::AllocError;
use td_core::outcome::Reason;
use td_num::items::Items;

/// What is wrong with a value.
#[derive(Clone, Copy, PartialEq, Eq, Debug)]
pub enum WriteRule {
    /// It has another shape than its type wants.
    Shape,
    /// A number doesn't fit its type or its bits.
    Range,
    /// The type's own test fails there: `Constraint`, `Impossible` or `Action`.
    Broken(Reason),
    /// An array's bytes aren't as many as its size.
    Size,
    /// The bytes pass `MOST_WRITTEN`.
    Long,
}

/// A value in a value: the places on the way to it, from 0, the outermost first.
pub type Path = Items<usize>;

/// Why a value isn't written, and at which value in it.
#[derive(Drop)]
pub enum WriteError {
    Shape { path: Path },
    Range { path: Path },
    Broken { path: Path, reason: Reason },
    Size { path: Path },
    Long,
    /// There was no memory.
    NoMemory,
}

impl From<AllocError> for WriteError {
    ghost use Rattle.td_write_values.specs.declared.error.WriteError.TheVariants.{NoMemory};
    ghost use Rattle.std.specs.Prelude.{◌≡◌};

    ghost from_gives = { λ _ e. e ≡ NoMemory };

    fn from(_refused: AllocError) -> WriteError {
        WriteError::NoMemory
    }
}
