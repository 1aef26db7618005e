//! The value that a job gives to be written.

ghost use Rattle.std.specs.Prelude.{◌≡◌, ◌≢◌, [], None, IfOk, IfErr, OnOk};
ghost use Rattle.hex.specs.Hex.{decode_of};
ghost use Rattle.serde_json.specs.Find.{as_array};
ghost use Rattle.serde_json.specs.View.{view, items_view};
ghost use Rattle.td_write_values.specs.DatumView.{datum_at};
ghost use Rattle.td_job.specs.Fields.{bytes_or_none, IsFirst};
ghost use Rattle.td_job.specs.Written.{worse, form_faults, form_of, forms_of, datum_of, datums_of};

use crate::checks::spells_bytes;
use crate::error::{JobError, JobRule, Key, Path};
use hex::FromHexError;
use serde_json::Value as Json;
use std::alloc::{AllocError, Global};
use td_num::text::Text;
use td_write_values::value::{Value, ValueKind, Values};

/// What is wrong with the form of a value.
#[derive(Clone, Copy)]
pub enum Form {
    /// Nothing: each part is a whole number below 2^64, a list, a text of hexadecimal digits, or `null`.
    Right,
    /// A text isn't an even number of hexadecimal digits; no part has another form.
    NoDigits,
    /// A part has another form.
    Other,
}

impl Form {
    /// Of two parts the form that is told.
    fn or(self, other: Form) -> Form
        ensures { result ≡ worse self other }
    {
        match self {
            Form::Right => other,
            Form::NoDigits => match other {
                Form::Right => Form::NoDigits,
                Form::NoDigits => Form::NoDigits,
                Form::Other => Form::Other,
            },
            Form::Other => Form::Other,
        }
    }
}

/// The form of a value. Takes no memory.
#[cycle(forms)]
pub(crate) fn form_of(value: &Json) -> Form
    ensures { result ≡ form_of (view value.now) }
{
    if let Some(values) = value.as_array() {
        return forms_of(values.as_slice());
    }
    if let Some(text) = value.as_str() {
        return if spells_bytes(text) {
            Form::Right
        } else {
            Form::NoDigits
        };
    }
    if value.is_null() || value.as_u64().is_some() {
        Form::Right
    } else {
        Form::Other
    }
}

/// That of the values of a list.
#[cycle(forms)]
fn forms_of(values: &[Json]) -> Form
    ensures { result ≡ forms_of (items_view values.now) }
{
    let mut form = Form::Right;
    for value in values {
        form = form.or(form_of(value));
    }
    form
}

/// Tests the value of a field. J2: a part is no whole number below 2^64, list, text or `null`. J5: else, where a text isn't an even
/// number of hexadecimal digits. Takes no memory.
pub fn check_value(json: &Json, key: Key) -> Result<(), JobError>
    ensures ok { OnOk result (form_faults key (form_of (view json.now)) ≡ []) }
    ensures err { IfErr result (λ e. IsFirst (form_faults key (form_of (view json.now))) e) }
    ensures broken { IfErr result (λ e. e ≢ JobError.NoMemory) }
{
    match form_of(json) {
        Form::Right => Ok(()),
        Form::NoDigits => Err(JobRule::Digits.at(Path::Whole(key))),
        Form::Other => Err(JobRule::Form.at(Path::Whole(key))),
    }
}

/// The bytes of a text of hexadecimal digits; none where it is something else. `AllocError`: out of memory.
fn bytes_of_text(alloc: Global, text: &str) -> Result<Text, AllocError>
    ensures { IfOk result (λ bytes. bytes ≡ bytes_or_none (decode_of text.now)) }
{
    match hex::decode(alloc, text) {
        Ok(bytes) => Ok(Text::of(bytes)),
        Err(FromHexError::OutOfMemory) => Err(AllocError),
        Err(_) => Ok(Text::of(Vec::new(alloc))),
    }
}

/// What a value that is no list consists of.
fn leaf_of(alloc: Global, json: &Json) -> Result<ValueKind, AllocError>
    ensures { as_array (view json.now) ≡ None → IfOk result (λ kind. datum_at kind ≡ datum_of (view json.now)) }
{
    if let Some(text) = json.as_str() {
        return Ok(ValueKind::Bytes(bytes_of_text(alloc, text)?));
    }
    match json.as_u64() {
        Some(number) => Ok(ValueKind::Number(number)),
        None => Ok(ValueKind::Empty),
    }
}

/// The value that JSON stands for; what has another form counts as empty. `AllocError`: out of memory.
#[cycle(values)]
pub fn read_value(alloc: Global, json: &Json) -> Result<Value, AllocError>
    ensures { IfOk result (λ value. value ≡ datum_of (view json.now)) }
{
    let kind = match json.as_array() {
        Some(values) => ValueKind::List(read_values(alloc, values.as_slice())?),
        None => leaf_of(alloc, json)?,
    };
    Ok(Value { kind })
}

/// Those of a list.
#[cycle(values)]
fn read_values(alloc: Global, values: &[Json]) -> Result<Values, AllocError>
    ensures { IfOk result (λ read. read ≡ datums_of (items_view values.now)) }
{
    let mut read = Values::new(alloc);
    for value in values {
        let one = read_value(alloc, value)?;
        read.push(one)?;
    }
    Ok(read)
}
