//! Why a text has no tokens.

use std::alloc::{AllocError, AllocFailed};

/// Why a text has no tokens. Places are in bytes, from 0.
#[derive(Clone, Copy, PartialEq, Eq, Drop)]
pub enum LexError {
    /// No blank, comment or token begins with this byte, or it is a letter, a digit or `_` directly after a number.
    BadByte { at: u32 },
    /// A comment that begins here with `/*` has no end.
    OpenComment { at: u32 },
    /// The number that begins here is 2^64 or more.
    BigNumber { at: u32 },
    /// Out of memory for the tokens.
    NoMemory,
}

impl From<AllocError> for LexError {
    ghost use Rattle.std.specs.Prelude.{◌≡◌};
    ghost use Rattle.td_lexer.specs.declared.error.LexError.TheVariants.{NoMemory};

    ghost from_gives = { λ _ e. e ≡ NoMemory };

    fn from(_error: AllocError) -> LexError {
        LexError::NoMemory
    }
}

impl<T: Drop> From<AllocFailed<T>> for LexError {
    ghost use Rattle.std.specs.Prelude.{◌≡◌};
    ghost use Rattle.td_lexer.specs.declared.error.LexError.TheVariants.{NoMemory};

    ghost from_gives = { λ _ e. e ≡ NoMemory };

    fn from(_error: AllocFailed<T>) -> LexError {
        LexError::NoMemory
    }
}
