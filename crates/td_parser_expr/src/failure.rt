//! Why reading fails.

ghost use Rattle.std.specs.Prelude.{◌≡◌};
ghost use Rattle.td_parser_expr.specs.declared.failure.Failure.TheVariants.{OutOfMemory};

use std::alloc::{AllocError, AllocFailed};
use td_ast::token::Token;

/// Why a production isn't read to its end.
#[derive(Drop)]
pub enum Failure<'a> {
    /// There was no memory.
    OutOfMemory,
    /// The first of these tokens can't stand where it stands, or there is none.
    Unexpected(&'a [Token]),
    /// The first of these tokens may stand where it stands, and passes a limit.
    TooDeep(&'a [Token]),
}

impl<'a> From<AllocError> for Failure<'a> {
    ghost from_gives = { λ _ failure. failure ≡ OutOfMemory };

    fn from(_error: AllocError) -> Failure<'a> {
        Failure::OutOfMemory
    }
}

impl<'a, T: Drop> From<AllocFailed<T>> for Failure<'a> {
    ghost from_gives = { λ _ failure. failure ≡ OutOfMemory };

    fn from(_error: AllocFailed<T>) -> Failure<'a> {
        Failure::OutOfMemory
    }
}
