//! Why bytes are no image of verified code.

ghost use Rattle.std.specs.Prelude.{◌≡◌};
ghost use Rattle.td_image.specs.Answer as answer;

use crate::fault::{Cause, Fault, ReadError};
use td_verify::rule::{Breach, VerifyError};
use thiserror::Error;

/// Why bytes are no image of verified code (own rule; the codes are those that the tool prints). Fields are looked at in
/// their order, and the first that is wrong is named. Places are in bytes, from 0.
#[derive(Clone, Copy, PartialEq, Eq, Debug, Drop, Error)]
pub enum ImageError {
    /// I1: the first four bytes aren't those of an image.
    #[error("no image")]
    Magic,
    /// I2: the version is none that is read.
    #[error("unknown version")]
    Version,
    /// I3: a field isn't whole. The place is the length of the bytes.
    #[error("image too short")]
    Short { at: usize },
    /// I4: the field that begins there has a value that isn't allowed.
    #[error("bad field")]
    Field { at: usize },
    /// I5: bytes follow the image, from there on.
    #[error("bytes behind the image")]
    Rest { at: usize },
    /// I6: the image is whole, and the verifier refuses its code: the first instruction that breaks a rule, and the lowest
    /// rule that it breaks.
    #[error("code refused")]
    Refused(Breach),
    /// There was no memory for the code.
    #[error("out of memory")]
    NoMemory,
}

/// What is answered to bytes of this length, of which reading ended so.
pub(crate) fn error_of(error: ReadError, length: usize) -> ImageError
    ensures { result ≡ answer.error_of error length }
{
    match error {
        ReadError::NoMemory => ImageError::NoMemory,
        ReadError::Fault(Fault::Short) => ImageError::Short { at: length },
        ReadError::Fault(Fault::Wrong { cause, left }) => match cause {
            Cause::Magic => ImageError::Magic,
            Cause::Version => ImageError::Version,
            Cause::Field => ImageError::Field {
                at: length.saturating_sub(left),
            },
        },
    }
}

/// What is answered to bytes of whose code the verifier answered so.
pub(crate) fn of_verify_error(error: VerifyError) -> ImageError
    ensures { result ≡ answer.of_verify_error error }
{
    match error {
        VerifyError::NoMemory => ImageError::NoMemory,
        VerifyError::Breaks(breach) => ImageError::Refused(breach),
    }
}
