//! Bytes at the end of what was written.

ghost use Rattle.std.specs.Prelude.{◌≡◌, ◌≤◌, ◌++◌, length, replicate, OnOk, IfOk};
ghost use Rattle.td_write_values.specs.Bytes.{number_bytes, rising_bytes, falling_bytes};
ghost use Rattle.td_write_values.specs.Writing.{has_room};
ghost use Rattle.td_write_values.specs.declared.limits.TheConstants.{MOST_WRITTEN};

use std::alloc::AllocError;
use td_num::bytes::byte_of;
use td_num::number::{ByteOrder, NumberType, byte_count};
use td_write_values::limits::MOST_WRITTEN;

/// Whether so many bytes more are within the limit.
pub fn has_room(written: usize, count: u64) -> bool
    requires { written ≤ MOST_WRITTEN }
    ensures { result ≡ has_room written count }
{
    count <= MOST_WRITTEN - written as u64
}

/// The bytes of a number, that of least weight first.
fn push_rising(out: &mut Vec<u8>, number: u64, width: u32) -> Result<(), AllocError>
    ensures { OnOk result (out.new.items ≡ out.old.items ++ rising_bytes width number) }
{
    if width == 0 {
        return Ok(());
    }
    out.push((number % 256) as u8)?;
    push_rising(out, number / 256, width - 1)?;
    Ok(())
}

/// The bytes of a number, that of least weight last.
fn push_falling(out: &mut Vec<u8>, number: u64, width: u32) -> Result<(), AllocError>
    requires { width ≤ 8 }
    ensures { OnOk result (out.new.items ≡ out.old.items ++ falling_bytes width number) }
{
    if width == 0 {
        return Ok(());
    }
    out.push(byte_of(number, width - 1))?;
    push_falling(out, number, width - 1)?;
    Ok(())
}

/// The bytes of a number of a type.
pub fn push_number(
    out: &mut Vec<u8>,
    number_type: NumberType,
    number: u64,
) -> Result<(), AllocError>
    ensures { OnOk result (out.new.items ≡ out.old.items ++ number_bytes number_type number) }
{
    let width = byte_count(number_type.width);
    match number_type.order {
        ByteOrder::LittleEndian => Ok(push_rising(out, number, width)?),
        ByteOrder::BigEndian => Ok(push_falling(out, number, width)?),
    }
}

/// So many zeros.
pub fn push_zeros(out: &mut Vec<u8>, count: u64) -> Result<(), AllocError>
    ensures { OnOk result (out.new.items ≡ out.old.items ++ replicate count 0) }
{
    for turn in 0..count {
        out.push(0)?;
    }
    Ok(())
}
