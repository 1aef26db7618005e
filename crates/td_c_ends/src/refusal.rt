//! Why an input is refused.

ghost use Rattle.std.specs.Prelude.{◌≡◌};
ghost use Rattle.td_c_ends.specs.Causes.{of_module};

use td_front::FrontError;
use thiserror::Error;

/// Why `tdc` refuses its name or its input. That there was no memory is none of these.
#[derive(Debug, Drop, Error)]
pub enum Refusal {
    /// The name can't begin names of C.
    #[error("no name of C")]
    BadName,
    /// The input has more than 4,194,304 bytes.
    #[error("input too long")]
    TooLong,
    /// It is no module text.
    #[error(transparent)]
    BadModule(FrontError),
    /// The module for which it stands has no entry point, so its C would have no function to call.
    #[error("no entry point")]
    NoEntry,
}

/// Why an input has no answer.
#[derive(Debug, Drop, Error)]
pub enum InputError {
    /// It is refused.
    #[error(transparent)]
    Refused(Refusal),
    /// There was no memory.
    #[error("out of memory")]
    NoMemory,
}

/// An error of a module text. That there was no memory is never held by a refusal.
pub fn of_module(error: FrontError) -> InputError
    ensures { result ≡ of_module error }
{
    match error {
        FrontError::NoMemory => InputError::NoMemory,
        error => InputError::Refused(Refusal::BadModule(error)),
    }
}
