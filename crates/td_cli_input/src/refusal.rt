//! Why an input is refused.

ghost use Rattle.std.specs.Prelude.{◌≡◌};
ghost use Rattle.td_cli_input.specs.Causes.{of_job, of_module};

use td_front::FrontError;
use td_job::error::JobError;
use thiserror::Error;

/// Why an input is refused. That there was no memory is none of these.
#[derive(Debug, Drop, Error)]
pub enum Refusal {
    /// It has more than 4,194,304 bytes.
    #[error("input too long")]
    TooLong,
    /// No line of it is exactly `%%`.
    #[error("no job")]
    NoJob,
    /// The bytes before that line are no module text.
    #[error(transparent)]
    BadModule(FrontError),
    /// The bytes after that line are no job for the module.
    #[error(transparent)]
    BadJob(JobError),
    /// The job has rings, and the text of descriptors stands for no module of descriptors.
    #[error("no ring")]
    NoRing,
}

/// Why an input has no answer.
#[derive(Debug, Drop, Error)]
pub enum InputError {
    /// It is refused.
    #[error(transparent)]
    Refused(Refusal),
    /// There was no memory.
    #[error("out of memory")]
    NoMemory,
}

/// An error of a module text. That there was no memory is never held by a refusal.
pub fn of_module(error: FrontError) -> InputError
    ensures { result ≡ of_module error }
{
    match error {
        FrontError::NoMemory => InputError::NoMemory,
        error => InputError::Refused(Refusal::BadModule(error)),
    }
}

/// An error of a job. That there was no memory is never held by a refusal.
pub fn of_job(error: JobError) -> InputError
    ensures { result ≡ of_job error }
{
    match error {
        JobError::NoMemory => InputError::NoMemory,
        error => InputError::Refused(Refusal::BadJob(error)),
    }
}
