//! JSON, and the fields of a job.

ghost use Rattle.std.specs.Prelude.{◌≡◌, ◌<◌, ◌⊎◌, length, IfOk, IfErr, option_map};
ghost use Rattle.serde_json.specs.Data.{Data};
ghost use Rattle.serde_json.specs.Errors.{IsMemory};
ghost use Rattle.serde_json.specs.View.{view};
ghost use Rattle.td_job.specs.Fields.{Reads, field_of, text_of, number_of};

use crate::error::{JobError, JobRule, Key, Path};
use serde_json::{Error, Value};
use std::alloc::Global;

/// The cause of an error of the JSON reader: out of memory exactly where the reader says so, else J1. Takes no memory.
fn fault_of(error: &Error) -> JobError
    ensures memory { IsMemory error.now → result ≡ JobError.NoMemory }
    ensures refused { ¬ IsMemory error.now → result ≡ JobError.Fault JobRule.NotJson Path.Job }
{
    if error.is_memory() {
        JobError::NoMemory
    } else {
        JobRule::NotJson.at(Path::Job)
    }
}

/// The value that the bytes stand for. J1: they are not JSON. `NoMemory`: there was no memory for it; never where there
/// are no bytes.
pub fn read_json(alloc: Global, bytes: &[u8]) -> Result<Value, JobError>
    ensures ok { IfOk result (λ job. Reads bytes.now (view job)) }
    ensures err { IfErr result (λ e. (e ≡ JobError.NoMemory) ⊎ ((e ≡ JobError.Fault JobRule.NotJson Path.Job) × ((job : Data) → Reads bytes.now job → ⊥))) }
    ensures memory { result ≡ Err JobError.NoMemory → 0 < length bytes.now }
{
    match Value::from_slice(alloc, bytes) {
        Ok(job) => Ok(job),
        Err(error) => Err(fault_of(&error)),
    }
}

/// A field's value. None: it is missing.
pub fn field_of(job: &Value, key: Key) -> Option<&Value>
    ensures { option_map (λ v. view v.now) result ≡ field_of key (view job.now) }
{
    job.get(key.name())
}

/// A field's text. None: it is missing or no text.
pub fn text_of(job: &Value, key: Key) -> Option<&str>
    ensures { option_map (λ t. t.now) result ≡ text_of key (view job.now) }
{
    field_of(job, key).and_then(Value::as_str)
}

/// A field's number. None: it is missing or no whole number below 2^64.
pub fn number_of(job: &Value, key: Key) -> Option<u64>
    ensures { result ≡ number_of key (view job.now) }
{
    field_of(job, key).and_then(Value::as_u64)
}
