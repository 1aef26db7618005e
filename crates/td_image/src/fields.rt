//! Fields, read from the front.

ghost use Rattle.std.specs.Prelude.{◌≡◌, ◌<◌, length, IfOk};
ghost use Rattle.std.specs.Int.{w8, w16, w32, w64};
ghost use Rattle.td_image.specs.Format.{number, text};
ghost use Rattle.td_image.specs.Image as format;
ghost use Rattle.td_image.specs.Reading.{Reads, IsDecided};
ghost use Rattle.td_image.specs.declared.fault.ReadError.TheVariants as errors;
ghost use Rattle.td_image.specs.declared.fault.Fault.TheVariants as faults;

use crate::fault::{Cause, Fault, ReadError};
use td_core::module::NameId;

/// A field that begins with these bytes has a value that isn't allowed.
pub(crate) fn wrong(cause: Cause, bytes: &[u8]) -> ReadError
    ensures { result ≡ errors.Fault (faults.Wrong cause (length bytes.now)) }
{
    ReadError::Fault(Fault::Wrong {
        cause,
        left: bytes.len(),
    })
}

/// A number of one byte.
pub(crate) fn u8_at(bytes: &[u8]) -> Result<(u8, &[u8]), ReadError>
    ensures read { Reads (λ x. (x.0, x.1.now)) result ((number w8).read bytes.now) }
    ensures decided { IsDecided result }
{
    if bytes.len() < 1 {
        return Err(ReadError::Fault(Fault::Short));
    }
    let (front, rest) = bytes.split_at(1);
    let number = u8::from_le_bytes([front[0]]);
    Ok((number, rest))
}

/// A number of two bytes, the least first.
pub(crate) fn u16_at(bytes: &[u8]) -> Result<(u16, &[u8]), ReadError>
    ensures read { Reads (λ x. (x.0, x.1.now)) result ((number w16).read bytes.now) }
    ensures decided { IsDecided result }
{
    if bytes.len() < 2 {
        return Err(ReadError::Fault(Fault::Short));
    }
    let (front, rest) = bytes.split_at(2);
    let number = u16::from_le_bytes([front[0], front[1]]);
    Ok((number, rest))
}

/// A number of four bytes, the least first.
pub(crate) fn u32_at(bytes: &[u8]) -> Result<(u32, &[u8]), ReadError>
    ensures read { Reads (λ x. (x.0, x.1.now)) result ((number w32).read bytes.now) }
    ensures decided { IsDecided result }
{
    if bytes.len() < 4 {
        return Err(ReadError::Fault(Fault::Short));
    }
    let (front, rest) = bytes.split_at(4);
    let number = u32::from_le_bytes([front[0], front[1], front[2], front[3]]);
    Ok((number, rest))
}

/// A number of eight bytes, the least first.
pub(crate) fn u64_at(bytes: &[u8]) -> Result<(u64, &[u8]), ReadError>
    ensures read { Reads (λ x. (x.0, x.1.now)) result ((number w64).read bytes.now) }
    ensures decided { IsDecided result }
{
    if bytes.len() < 8 {
        return Err(ReadError::Fault(Fault::Short));
    }
    let (front, rest) = bytes.split_at(8);
    let number = u64::from_le_bytes([
        front[0], front[1], front[2], front[3], front[4], front[5], front[6], front[7],
    ]);
    Ok((number, rest))
}

/// So many bytes.
pub(crate) fn text_at(bytes: &[u8], n: usize) -> Result<(&[u8], &[u8]), ReadError>
    ensures read { Reads (λ x. (x.0.now, x.1.now)) result ((text n).read bytes.now) }
    ensures decided { IsDecided result }
{
    if bytes.len() < n {
        return Err(ReadError::Fault(Fault::Short));
    }
    Ok(bytes.split_at(n))
}

/// A number that is at most another.
pub(crate) fn up_to(bytes: &[u8], most: usize) -> Result<(u32, &[u8]), ReadError>
    ensures read { Reads (λ x. (x.0, x.1.now)) result ((format.up_to most).read bytes.now) }
    ensures decided { IsDecided result }
{
    let (n, rest) = u32_at(bytes)?;
    if (n as usize) <= most {
        Ok((n, rest))
    } else {
        Err(wrong(Cause::Field, bytes))
    }
}

/// A number of four bytes that is at most another of 16 bits.
pub(crate) fn u16_up_to(bytes: &[u8], most: u16) -> Result<(u16, &[u8]), ReadError>
    ensures read { Reads (λ x. (x.0, x.1.now)) result ((format.up_to most).read bytes.now) }
    ensures decided { IsDecided result }
{
    let (n, rest) = u32_at(bytes)?;
    if n <= most as u32 {
        Ok((n as u16, rest))
    } else {
        Err(wrong(Cause::Field, bytes))
    }
}

/// A number of four bytes that is between two others of 16 bits, or is one of them.
pub(crate) fn u16_between(bytes: &[u8], least: u16, most: u16) -> Result<(u16, &[u8]), ReadError>
    ensures read { Reads (λ x. (x.0, x.1.now)) result ((format.between least most).read bytes.now) }
    ensures decided { IsDecided result }
{
    let (n, rest) = u32_at(bytes)?;
    if least as u32 <= n && n <= most as u32 {
        Ok((n as u16, rest))
    } else {
        Err(wrong(Cause::Field, bytes))
    }
}

/// A place of a table of so many rows.
pub(crate) fn place(bytes: &[u8], count: usize) -> Result<(u32, &[u8]), ReadError>
    ensures read { Reads (λ x. (x.0, x.1.now)) result ((format.place count).read bytes.now) }
    ensures within { IfOk result (λ x. x.0 < count) }
    ensures decided { IsDecided result }
{
    let (n, rest) = u32_at(bytes)?;
    if (n as usize) < count {
        Ok((n, rest))
    } else {
        Err(wrong(Cause::Field, bytes))
    }
}

/// A name of a table of so many.
pub(crate) fn name_place(bytes: &[u8], names: usize) -> Result<(NameId, &[u8]), ReadError>
    ensures read { Reads (λ x. (x.0, x.1.now)) result ((format.name_place names).read bytes.now) }
    ensures decided { IsDecided result }
{
    let (number, rest) = place(bytes, names)?;
    Ok((NameId { number }, rest))
}
