//! The fields of a job, each looked at for all that can be wrong with it.

ghost use Rattle.std.specs.Prelude.{◌≡◌, ◌≢◌, ◌<◌, ◌%◌, ◌&&◌, [], ◌⊎◌, length, nat_eq, IsOk, IfOk, IfErr, OnOk, IsSomeAnd, Some, option_map};
ghost use Rattle.std.specs.List.{list_all};
ghost use Rattle.hex.specs.Hex.{decode_of, is_hex_digit};
ghost use Rattle.serde_json.specs.Find.{as_object};
ghost use Rattle.serde_json.specs.View.{view};
ghost use Rattle.td_job.specs.Fields.{field_of, text_of, number_of, bytes_or_none, IsFirst};
ghost use Rattle.td_job.specs.Jobs.{EntryFault, IsEntry, bytes_faults, digit_faults, spelled_bytes, length_faults, is_known, first_unknown, unknown_faults};

use crate::error::{JobError, JobRule, Key, Path};
use crate::json::{number_of, text_of};
use crate::stretches::is_past;
use hex::FromHexError;
use serde_json::Value;
use std::alloc::Global;
use td_core::entries::entry_named;
use td_core::module::{Entry, Module};
use td_num::text::Text;

/// The most bytes that a message has.
pub const MOST_BYTES: u64 = td_core::limits::MOST_MESSAGE;

/// The entry point that a job names. J2: `entry` is missing or no text. J3: no entry point has the name. Takes no memory.
pub fn entry_of(job: &Value, m: &Module) -> Result<Entry, JobError>
    ensures ok { IfOk result (λ entry. IsEntry m.now (text_of Key.Entry (view job.now)) entry) }
    ensures err { IfErr result (λ e. EntryFault m.now (text_of Key.Entry (view job.now)) e) }
    ensures broken { IfErr result (λ e. e ≢ JobError.NoMemory) }
{
    match text_of(job, Key::Entry) {
        None => Err(JobRule::Form.at(Path::Whole(Key::Entry))),
        Some(name) => match entry_named(m, name.as_bytes()) {
            None => Err(JobRule::NoEntry.at(Path::Whole(Key::Entry))),
            Some(entry) => Ok(entry),
        },
    }
}

/// The cause of an error of reading hexadecimal digits: out of memory exactly where it was that, else J5. Takes no
/// memory.
fn fault_of(error: FromHexError, key: Key) -> JobError
    ensures memory { error ≡ FromHexError.OutOfMemory → result ≡ JobError.NoMemory }
    ensures digits { error ≢ FromHexError.OutOfMemory → result ≡ JobError.Fault JobRule.Digits (Path.Whole key) }
{
    match error {
        FromHexError::OutOfMemory => JobError::NoMemory,
        _ => JobRule::Digits.at(Path::Whole(key)),
    }
}

/// The bytes that a field of a job gives. J2: it is missing or no text. J5: it is not an even number of hexadecimal
/// digits. `NoMemory`: there was no memory for the bytes; never where the field is at fault, which is found without any, nor
/// where it gives no bytes.
pub fn bytes_of(alloc: Global, job: &Value, key: Key) -> Result<Vec<u8>, JobError>
    ensures ok { IfOk result (λ bytes. (bytes_faults key (text_of key (view job.now)) ≡ []) × (spelled_bytes (text_of key (view job.now)) ≡ bytes.items)) }
    ensures err { IfErr result (λ e. (e ≡ JobError.NoMemory) ⊎ IsFirst (bytes_faults key (text_of key (view job.now))) e) }
    ensures memory { result ≡ Err JobError.NoMemory → (bytes_faults key (text_of key (view job.now)) ≡ []) × (0 < length (spelled_bytes (text_of key (view job.now)))) }
{
    let count = count_of(job, key)?;
    let Some(text) = text_of(job, key) else {
        return Err(JobRule::Form.at(Path::Whole(key)));
    };
    if count == 0 {
        return Ok(Vec::new(alloc));
    }
    match hex::decode(alloc, text) {
        Ok(bytes) => Ok(bytes),
        Err(error) => Err(fault_of(error, key)),
    }
}

/// Whether a byte is a hexadecimal digit, of either case.
fn is_digit(byte: u8) -> bool
    ensures { result ≡ is_hex_digit byte }
{
    matches!(byte, b'A'..=b'F' | b'a'..=b'f' | b'0'..=b'9')
}

/// Whether each byte is a hexadecimal digit, of either case.
fn are_digits(bytes: &[u8]) -> bool
    ensures { result ≡ list_all is_hex_digit bytes.now }
{
    bytes.iter().all(|byte| is_digit(*byte))
}

/// Whether a text is an even number of hexadecimal digits, two for each byte.
pub(crate) fn spells_bytes(text: &str) -> bool
    ensures { result ≡ (nat_eq (length text.now % 2) 0 && list_all is_hex_digit text.now) }
{
    text.len() % 2 == 0 && are_digits(text.as_bytes())
}

/// How many bytes the text of a field spells. J5: it is not an even number of hexadecimal digits.
fn count_spelled(text: &str, key: Key) -> Result<usize, JobError>
    ensures ok { IfOk result (λ count. (digit_faults key (decode_of text.now) ≡ []) × (length (bytes_or_none (decode_of text.now)) ≡ count)) }
    ensures err { IfErr result (λ e. IsFirst (digit_faults key (decode_of text.now)) e) }
    ensures broken { IfErr result (λ e. e ≢ JobError.NoMemory) }
{
    if !spells_bytes(text) {
        return Err(JobRule::Digits.at(Path::Whole(key)));
    }
    Ok(text.len() / 2)
}

/// How many bytes a field of a job gives. J2: it is missing or no text. J5: it is not an even number of hexadecimal
/// digits. Takes no memory.
pub fn count_of(job: &Value, key: Key) -> Result<usize, JobError>
    ensures ok { IfOk result (λ count. (bytes_faults key (text_of key (view job.now)) ≡ []) × (length (spelled_bytes (text_of key (view job.now))) ≡ count)) }
    ensures err { IfErr result (λ e. IsFirst (bytes_faults key (text_of key (view job.now))) e) }
    ensures broken { IfErr result (λ e. e ≢ JobError.NoMemory) }
{
    match text_of(job, key) {
        None => Err(JobRule::Form.at(Path::Whole(key))),
        Some(text) => count_spelled(text, key),
    }
}

/// The length of the message, in bytes. J2: `length` is missing or no whole number. J7: there are no stretches, and it passes the
/// bytes given. J8: it passes 1,048,576. Takes no memory.
pub(crate) fn length_of(job: &Value, given: usize) -> Result<u32, JobError>
    ensures ok { IfOk result (λ n. (length_faults (field_of Key.Stretches (view job.now)) given (number_of Key.Length (view job.now)) ≡ []) × (number_of Key.Length (view job.now) ≡ Some n)) }
    ensures err { IfErr result (λ e. IsFirst (length_faults (field_of Key.Stretches (view job.now)) given (number_of Key.Length (view job.now))) e) }
    ensures broken { IfErr result (λ e. e ≢ JobError.NoMemory) }
{
    let Some(bytes) = number_of(job, Key::Length) else {
        return Err(JobRule::Form.at(Path::Whole(Key::Length)));
    };
    if is_past(job, given, bytes) {
        Err(JobRule::PastBytes.at(Path::Whole(Key::Length)))
    } else if bytes > MOST_BYTES {
        Err(JobRule::Limit.at(Path::Whole(Key::Length)))
    } else {
        Ok(bytes as u32)
    }
}

/// Whether a field of this name is one of these.
fn is_known(name: &str, keys: &[Key]) -> bool
    ensures { result ≡ is_known keys.now name.now }
{
    for key in keys {
        if name == key.name() {
            return true;
        }
    }
    false
}

/// The first name in byte order of a field that is none of these. None: each field is one of these, or the value is no
/// object. Takes no memory.
pub fn unknown_name<'a>(job: &'a Value, keys: &[Key]) -> Option<&'a str>
    ensures { option_map (λ name. name.now) result ≡ first_unknown keys.now (as_object (view job.now)) }
{
    let members = job.as_object()?;
    for (name, _) in members {
        if !is_known(name.as_str(), keys) {
            return Some(name.as_str());
        }
    }
    None
}

/// Tests that each field of a job is one of these. J2, at the first other name in byte order. `NoMemory`: there was no
/// memory for that name; never where each name is known, nor where the first that is not has no bytes.
pub fn check_names(alloc: Global, job: &Value, keys: &[Key]) -> Result<(), JobError>
    ensures ok { OnOk result (unknown_faults Path.Unknown (first_unknown keys.now (as_object (view job.now))) ≡ []) }
    ensures err { IfErr result (λ e. (e ≡ JobError.NoMemory) ⊎ IsFirst (unknown_faults Path.Unknown (first_unknown keys.now (as_object (view job.now)))) e) }
    ensures known { unknown_faults Path.Unknown (first_unknown keys.now (as_object (view job.now))) ≡ [] → IsOk result }
    ensures memory { result ≡ Err JobError.NoMemory → IsSomeAnd (first_unknown keys.now (as_object (view job.now))) (λ name. 0 < length name) }
{
    let Some(name) = unknown_name(job, keys) else {
        return Ok(());
    };
    let bytes = Text::copy_of(alloc, name.as_bytes())?;
    Err(JobRule::Form.at(Path::Unknown(bytes)))
}
