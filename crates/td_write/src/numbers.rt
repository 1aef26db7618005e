//! Which numbers fit, and the number of a unit of bit fields.

ghost use Rattle.std.specs.Prelude.{◌≡◌, ◌≤◌, nat_eq, List, length, IfOk, IfErr, ◌*◌, ◌-◌, ◌^◌, ◌<◌, nat_le, MatchOption, Some, None, false, true};
ghost use Rattle.td_core.specs.Formed.{bits_bound};
ghost use Rattle.td_write_values.specs.Datum as datum;
ghost use Rattle.td_meaning.specs.Words64.{value_of};
ghost use Rattle.td_write_values.specs.Spelling.{source_number, number_in};
ghost use Rattle.td_write_values.specs.Writing.{value_count, values_count};
ghost use Rattle.td_write.specs.Writes.{IsNumber};
ghost use Rattle.td_write_values.specs.Bytes.{fits, unit_type, is_byte, at_bits, unit_number, are_bits_of, makes_unit};

use crate::halt::Halt;
use td_core::module::{Bits, Element, Extent, Field, Part, Source};
use td_meaning::actions::cell_at;
use td_meaning::bit_fields::bits_of;
use td_meaning::expressions::value_of;
use td_meaning::parameters::place_at;
use td_num::number::{ByteOrder, NumberType, Width};
use td_write_values::error::WriteRule;
use td_write_values::value::{Value, ValueKind};

/// The greatest number of a width.
fn greatest(width: Width) -> u64
    ensures { result ≡ (bits_bound width None).most }
{
    match width {
        Width::One => 0xff,
        Width::Two => 0xffff,
        Width::Four => 0xffff_ffff,
        Width::Eight => 0xffff_ffff_ffff_ffff,
    }
}

/// Whether a number has so many bits at most.
fn fits_bits(number: u64, width: u32) -> bool
    ensures { result ≡ nat_le number (2 ^ width - 1) }
{
    width >= 64 || number <= (1 << width) - 1
}

/// Whether a number fits its type, or its bits.
pub fn fits(number_type: NumberType, bits: Option<Bits>, number: u64) -> bool
    ensures { result ≡ fits number_type bits number }
{
    match bits {
        None => number <= greatest(number_type.width),
        Some(bits) => fits_bits(number, bits.width),
    }
}

/// The type of a number, or of a unit, that stands once.
pub(crate) fn unit_type(element: &Element, extent: &Extent) -> Option<NumberType>
    ensures { result ≡ unit_type element.now extent.now }
{
    match element {
        Element::Number(number_type) => match extent {
            Extent::Once => Some(*number_type),
            Extent::Filling { .. } => None,
            Extent::OnceFilling { .. } => None,
            Extent::UpToZero { .. } => None,
            Extent::Given(_) => None,
        },
        Element::Listed { .. } => None,
        Element::Named { .. } => None,
        Element::Unit => None,
        Element::Rest => None,
        Element::Zeros => None,
    }
}

/// Whether an element is a `UINT8`.
pub fn is_byte(element: &Element) -> bool
    ensures { result ≡ is_byte element.now }
{
    match element {
        Element::Number(number_type) => match number_type.width {
            Width::One => match number_type.order {
                ByteOrder::LittleEndian => true,
                ByteOrder::BigEndian => false,
            },
            Width::Two => false,
            Width::Four => false,
            Width::Eight => false,
        },
        Element::Listed { .. } => false,
        Element::Named { .. } => false,
        Element::Unit => false,
        Element::Rest => false,
        Element::Zeros => false,
    }
}

/// A bit field's value at its bits; none past 64 bits.
fn at_bits(bits: Option<Bits>, number: u64) -> Option<u64>
    ensures { MatchOption result (2 ^ 64 ≤ at_bits bits number) (λ n. n ≡ at_bits bits number) }
{
    match bits {
        None => Some(number),
        Some(bits) => {
            if bits.low < 64 {
                number.checked_mul(1 << bits.low)
            } else if number == 0 {
                Some(0)
            } else {
                None
            }
        }
    }
}

/// The number of these values at their bits; none past 64 bits.
fn unit_number(parts: &[Part], numbers: &[u64]) -> Option<u64>
    ensures { MatchOption result (2 ^ 64 ≤ unit_number parts.now numbers.now) (λ n. n ≡ unit_number parts.now numbers.now) }
{
    let Some((part, parts)) = parts.split_first() else {
        return Some(0);
    };
    let Some((number, numbers)) = numbers.split_first() else {
        return Some(0);
    };
    let first = at_bits(part.bits, *number)?;
    let others = unit_number(parts, numbers)?;
    first.checked_add(others)
}

/// Whether each part of a number has its value.
fn are_bits_of(number: u64, parts: &[Part], numbers: &[u64]) -> bool
    ensures { result ≡ are_bits_of number parts.now numbers.now }
{
    let Some((part, parts)) = parts.split_first() else {
        return true;
    };
    let Some((value, numbers)) = numbers.split_first() else {
        return false;
    };
    bits_of(part.bits, number) == *value && are_bits_of(number, parts, numbers)
}

/// The number of a unit whose parts have these values; none where they don't make one.
pub(crate) fn made_unit(number_type: NumberType, parts: &[Part], numbers: &[u64]) -> Option<u64>
    ensures { MatchOption result (makes_unit number_type parts.now numbers.now ≡ false)
        (λ n. (makes_unit number_type parts.now numbers.now ≡ true) × (n ≡ unit_number parts.now numbers.now)) }
{
    let number = unit_number(parts, numbers)?;
    if fits(number_type, None, number) && are_bits_of(number, parts, numbers) {
        Some(number)
    } else {
        None
    }
}

/// The number that a value is. A broken rule: it is something else.
pub fn number_of(value: &Value) -> Result<u64, Halt>
    ensures ok { IfOk result (λ n. value.now ≡ datum.Number n) }
    ensures err { IfErr result (λ h. (IsNumber value.now → ⊥) × (h ≡ Halt.Broken WriteRule.Shape)) }
{
    match &value.kind {
        ValueKind::Number(number) => Ok(*number),
        ValueKind::List(_) => Err(Halt::Broken(WriteRule::Shape)),
        ValueKind::Bytes(_) => Err(Halt::Broken(WriteRule::Shape)),
        ValueKind::Empty => Err(Halt::Broken(WriteRule::Shape)),
    }
}

/// The number of a field without bytes.
fn source_number(
    source: &Source,
    env: &[u64],
    places: &[usize],
    cells: &[u64],
    value: &Value,
) -> u64
    ensures { result ≡ source_number value_of source.now env.now places.now cells.now value.now }
{
    match source {
        Source::Expression { value, .. } => value_of(value, env),
        Source::Cell(cell) => cell_at(cells, place_at(places, *cell)),
        Source::Left => match &value.kind {
            ValueKind::Number(number) => *number,
            ValueKind::List(_) => 0,
            ValueKind::Bytes(_) => 0,
            ValueKind::Empty => 0,
        },
    }
}

/// The number of an enum or of a field without bytes, which its refinement and action see; else 0.
pub fn number_in(
    element: &Element,
    extent: &Extent,
    env: &[u64],
    places: &[usize],
    cells: &[u64],
    value: &Value,
) -> u64
    ensures { result ≡ number_in value_of element.now extent.now env.now places.now cells.now value.now }
{
    match element {
        Element::Listed { .. } => match extent {
            Extent::Once => match &value.kind {
                ValueKind::Number(number) => *number,
                ValueKind::List(_) => 0,
                ValueKind::Bytes(_) => 0,
                ValueKind::Empty => 0,
            },
            Extent::Filling { .. } => 0,
            Extent::OnceFilling { .. } => 0,
            Extent::UpToZero { .. } => 0,
            Extent::Given(_) => 0,
        },
        Element::Number(_) => match extent {
            Extent::Given(source) => source_number(source, env, places, cells, value),
            Extent::Once => 0,
            Extent::Filling { .. } => 0,
            Extent::OnceFilling { .. } => 0,
            Extent::UpToZero { .. } => 0,
        },
        Element::Named { .. } => 0,
        Element::Unit => 0,
        Element::Rest => 0,
        Element::Zeros => 0,
    }
}

/// How many values a field has.
fn value_count(field: &Field) -> usize
    ensures { result ≡ value_count (unit_type field.now.element field.now.extent) field.now.parts }
{
    match unit_type(&field.element, &field.extent) {
        Some(_) => field.parts.len(),
        None => 1,
    }
}

/// Whether fields have so many values.
pub(crate) fn is_count(fields: &[Field], count: usize) -> bool
    ensures { result ≡ nat_eq count (values_count fields.now) }
{
    let mut left = count;
    for field in fields {
        let own = value_count(field);
        if own > left {
            return false;
        }
        left -= own;
    }
    left == 0
}
