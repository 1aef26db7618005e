//! Values that name no type.

ghost use Rattle.std.specs.Prelude.{◌≡◌, ◌≢◌, ◌≤◌, ℕ, List, [], length, IfOk, IfErr};
ghost use Rattle.td_write_values.specs.Spelling.{is_zero, ends_in_zero};
ghost use Rattle.td_write_values.specs.Writing.{Claim, Done, after_writing, up_to_zero_written, number_written, is_listed, bytes_written, zeros_written, unit_written, zero_ended_written, items_written};
ghost use Rattle.td_write_values.specs.declared.limits.TheConstants.{MOST_WRITTEN};
ghost use Rattle.td_write.specs.Writes.{Halts, Wrote};

use crate::bytes::{has_room, push_number, push_zeros};
use crate::halt::Halt;
use crate::numbers::{fits, number_of};
use crate::parts::want;
use td_core::module::Element;
use td_core::outcome::Reason;
use td_meaning::enums::{is_among, values_at};
use td_num::items::Items;
use td_num::number::{NumberType, byte_count};
use td_write_values::error::WriteRule;
use td_write_values::value::{Value, ValueKind};

/// A number of a type.
pub fn write_number(number_type: NumberType, value: &Value, out: &mut Vec<u8>) -> Result<(), Halt>
    requires { length out.old.items ≤ MOST_WRITTEN }
    ensures ok { IfOk result (λ _. (path cells : List ℕ) (claims : List Claim)
        → after_writing out.old.items claims (number_written number_type path (length out.old.items) cells value.now)
        ≡ Done out.new.items cells claims) }
    ensures room { IfOk result (λ _. length out.new.items ≤ MOST_WRITTEN) }
    ensures err { IfErr result (λ h. (path cells : List ℕ) → Halts h path
        (number_written number_type path (length out.old.items) cells value.now)) }
{
    let number = number_of(value)?;
    want(fits(number_type, None, number), WriteRule::Range)?;
    let width = byte_count(number_type.width) as u64;
    want(has_room(out.len(), width), WriteRule::Long)?;
    push_number(out, number_type, number)?;
    Ok(())
}

/// Whether an enum's number is among its values. What is no enum, or no number, passes.
pub fn is_listed(listed: &[Items<u64>], element: &Element, value: &Value) -> bool
    ensures { result ≡ is_listed listed.now element.now value.now }
{
    match element {
        Element::Listed { base: _, values } => match &value.kind {
            ValueKind::Number(number) => is_among(values_at(listed, *values), *number),
            ValueKind::List(_) => true,
            ValueKind::Bytes(_) => true,
            ValueKind::Empty => true,
        },
        Element::Number(_) => true,
        Element::Named { .. } => true,
        Element::Unit => true,
        Element::Rest => true,
        Element::Zeros => true,
    }
}

/// Bytes as they are.
pub fn write_bytes(value: &Value, out: &mut Vec<u8>) -> Result<(), Halt>
    requires { length out.old.items ≤ MOST_WRITTEN }
    ensures ok { IfOk result (λ _. (path cells : List ℕ) (claims : List Claim)
        → after_writing out.old.items claims (bytes_written path (length out.old.items) cells value.now)
        ≡ Done out.new.items cells claims) }
    ensures room { IfOk result (λ _. length out.new.items ≤ MOST_WRITTEN) }
    ensures err { IfErr result (λ h. (path cells : List ℕ) → Halts h path
        (bytes_written path (length out.old.items) cells value.now)) }
{
    match &value.kind {
        ValueKind::Bytes(bytes) => {
            let bytes = bytes.as_slice();
            want(has_room(out.len(), bytes.len() as u64), WriteRule::Long)?;
            out.extend_from_slice(bytes)?;
            Ok(())
        }
        ValueKind::Number(_) => Err(Halt::Broken(WriteRule::Shape)),
        ValueKind::List(_) => Err(Halt::Broken(WriteRule::Shape)),
        ValueKind::Empty => Err(Halt::Broken(WriteRule::Shape)),
    }
}

/// As many zeros as the number says.
pub(crate) fn write_zeros(value: &Value, out: &mut Vec<u8>) -> Result<(), Halt>
    requires { length out.old.items ≤ MOST_WRITTEN }
    ensures ok { IfOk result (λ _. (path cells : List ℕ) (claims : List Claim)
        → after_writing out.old.items claims (zeros_written path (length out.old.items) cells value.now)
        ≡ Done out.new.items cells claims) }
    ensures room { IfOk result (λ _. length out.new.items ≤ MOST_WRITTEN) }
    ensures err { IfErr result (λ h. (path cells : List ℕ) → Halts h path
        (zeros_written path (length out.old.items) cells value.now)) }
{
    let count = number_of(value)?;
    want(has_room(out.len(), count), WriteRule::Long)?;
    push_zeros(out, count)?;
    Ok(())
}

/// No bytes. Takes no memory.
pub(crate) fn write_unit(value: &Value) -> Result<(), Halt>
    ensures ok { IfOk result (λ _. (path cells : List ℕ) → unit_written path cells value.now ≡ Done [] cells []) }
    ensures err { IfErr result (λ h. (path cells : List ℕ) → Halts h path
        (unit_written path cells value.now)) }
    ensures broken { IfErr result (λ h. h ≢ Halt.NoMemory) }
{
    match &value.kind {
        ValueKind::Empty => Ok(()),
        ValueKind::Number(_) => Err(Halt::Broken(WriteRule::Shape)),
        ValueKind::List(_) => Err(Halt::Broken(WriteRule::Shape)),
        ValueKind::Bytes(_) => Err(Halt::Broken(WriteRule::Shape)),
    }
}

/// Whether a value is the number 0.
fn is_zero(value: &Value) -> bool
    ensures { result ≡ is_zero value.now }
{
    match &value.kind {
        ValueKind::Number(number) => *number == 0,
        ValueKind::List(_) => false,
        ValueKind::Bytes(_) => false,
        ValueKind::Empty => false,
    }
}

/// Whether the first zero is there, and is the last value.
fn ends_in_zero(values: &[Value]) -> bool
    ensures { result ≡ ends_in_zero values.now }
{
    for (index, value) in values.iter().enumerate() {
        if is_zero(value) {
            return index + 1 == values.len();
        }
    }
    false
}

/// Numbers one after the other.
fn write_numbers(
    number_type: NumberType,
    values: &[Value],
    path: &mut Vec<usize>,
    out: &mut Vec<u8>,
) -> Result<(), Halt>
    requires { length out.old.items ≤ MOST_WRITTEN }
    ensures ok { IfOk result (λ _. (cells : List ℕ) (claims : List Claim) → Wrote
        (items_written (number_written number_type) path.old.items 0 (length out.old.items) cells values.now)
        out.old.items out.new.items path.old.items path.new.items cells claims claims) }
    ensures err { IfErr result (λ h. (cells : List ℕ) → Halts h path.new.items
        (items_written (number_written number_type) path.old.items 0 (length out.old.items) cells values.now)) }
{
    for (index, value) in values.iter().enumerate() {
        path.push(index)?;
        let start = out.len();
        // By `match`: see `Halt`.
        match write_number(number_type, value, out) {
            Ok(()) => {}
            Err(halt) => return Err(halt),
        }
        if out.len() == start {
            return Err(Halt::Broken(WriteRule::Size));
        }
        path.pop();
    }
    Ok(())
}

/// Numbers up to and with the first zero, within `size` bytes.
fn write_up_to_zero(
    number_type: NumberType,
    size: u64,
    value: &Value,
    path: &mut Vec<usize>,
    out: &mut Vec<u8>,
) -> Result<(), Halt>
    requires { length out.old.items ≤ MOST_WRITTEN }
    ensures ok { IfOk result (λ _. (cells : List ℕ) (claims : List Claim) → Wrote
        (up_to_zero_written number_type size path.old.items (length out.old.items) cells value.now)
        out.old.items out.new.items path.old.items path.new.items cells claims claims) }
    ensures err { IfErr result (λ h. (cells : List ℕ) → Halts h path.new.items
        (up_to_zero_written number_type size path.old.items (length out.old.items) cells value.now)) }
{
    match &value.kind {
        ValueKind::List(values) => {
            let values = values.as_slice();
            if !ends_in_zero(values) {
                return Err(Halt::Broken(WriteRule::Shape));
            }
            match write_numbers(number_type, values, path, out) {
                Ok(()) => {}
                Err(halt) => return Err(halt),
            }
            let bound = size / byte_count(number_type.width) as u64;
            if values.len() as u64 > bound {
                return Err(Halt::Broken(WriteRule::Broken(Reason::Constraint)));
            }
            Ok(())
        }
        ValueKind::Number(_) => Err(Halt::Broken(WriteRule::Shape)),
        ValueKind::Bytes(_) => Err(Halt::Broken(WriteRule::Shape)),
        ValueKind::Empty => Err(Halt::Broken(WriteRule::Shape)),
    }
}

/// The same of an element. Only numbers stand so.
pub(crate) fn write_zero_ended(
    element: &Element,
    size: u64,
    value: &Value,
    path: &mut Vec<usize>,
    out: &mut Vec<u8>,
) -> Result<(), Halt>
    requires { length out.old.items ≤ MOST_WRITTEN }
    ensures ok { IfOk result (λ _. (cells : List ℕ) (claims : List Claim) → Wrote
        (zero_ended_written element.now size path.old.items (length out.old.items) cells value.now)
        out.old.items out.new.items path.old.items path.new.items cells claims claims) }
    ensures err { IfErr result (λ h. (cells : List ℕ) → Halts h path.new.items
        (zero_ended_written element.now size path.old.items (length out.old.items) cells value.now)) }
{
    match element {
        Element::Number(number_type) => write_up_to_zero(*number_type, size, value, path, out),
        Element::Listed { .. } => Err(Halt::Broken(WriteRule::Shape)),
        Element::Named { .. } => Err(Halt::Broken(WriteRule::Shape)),
        Element::Unit => Err(Halt::Broken(WriteRule::Shape)),
        Element::Rest => Err(Halt::Broken(WriteRule::Shape)),
        Element::Zeros => Err(Halt::Broken(WriteRule::Shape)),
    }
}
