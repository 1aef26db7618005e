//! Values of the formats' texts, for a writer.

ghost use Rattle.std.specs.Prelude.{◌≡◌, IfOk, List, ℕ};
ghost use Rattle.td_write_values.specs.Datum as datum;
ghost use Rattle.td_formats.specs.EthernetValue.{ethernet_datum, payload_datum, listed};

use std::alloc::{AllocError, Global};
use td_num::text::Text;
use td_write_values::value::{Value, ValueKind, Values};

/// The greatest number that is a payload's length.
const MOST_LENGTH: u16 = 1500;

/// A value of bytes.
fn bytes_value(alloc: Global, bytes: &[u8]) -> Result<Value, AllocError>
    ensures { IfOk result (λ v. v ≡ datum.Bytes bytes.now) }
{
    Ok(Value {
        kind: ValueKind::Bytes(Text::copy_of(alloc, bytes)?),
    })
}

/// A value of values.
fn list_value(values: Values) -> Value
    ensures { result ≡ listed values }
{
    Value {
        kind: ValueKind::List(values),
    }
}

/// What stands behind an untagged frame's number: of a length the payload and no padding, of a type the payload.
fn payload_value(alloc: Global, kind: u16, payload: &[u8]) -> Result<Value, AllocError>
    ensures { IfOk result (λ v. v ≡ payload_datum kind payload.now) }
{
    let mut values = Values::new(alloc);
    values.push(bytes_value(alloc, payload)?)?;
    if kind <= MOST_LENGTH {
        values.push(bytes_value(alloc, &[])?)?;
    }
    Ok(list_value(values))
}

/// The value of an untagged frame without padding, by the text of `ETHERNET`. `kind` is the payload's type, or its length in bytes
/// where it is at most 1500. It isn't looked at here: with a length that isn't the payload's the value is none of the text's type (E4
/// for a writer), nor with 0x8100, the type of a tag (E1), or with a number from 1501 to 1535 (E3). `AllocError`: out of memory.
pub fn ethernet_value(
    alloc: Global,
    destination: [u8; 6],
    source: [u8; 6],
    kind: u16,
    payload: &[u8],
) -> Result<Value, AllocError>
    ensures { IfOk result (λ v. v ≡ ethernet_datum destination source kind payload.now) }
{
    let mut body = Values::new(alloc);
    body.push(Value {
        kind: ValueKind::Empty,
    })?;
    body.push(payload_value(alloc, kind, payload)?)?;
    let mut rest = Values::new(alloc);
    rest.push(list_value(body))?;
    let mut frame = Values::new(alloc);
    frame.push(bytes_value(alloc, &destination)?)?;
    frame.push(bytes_value(alloc, &source)?)?;
    frame.push(Value {
        kind: ValueKind::Number(kind as u64),
    })?;
    frame.push(list_value(rest))?;
    Ok(list_value(frame))
}
