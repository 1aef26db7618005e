//! The table of instructions. Memory runs out only once a first one was read: none is taken for their count alone.

ghost use Rattle.std.specs.Prelude.{◌≡◌};
ghost use Rattle.std.specs.Int.{w8, w16, w32, w64};
ghost use Rattle.td_image.specs.Format.{times};
ghost use Rattle.td_image.specs.Image as format;
ghost use Rattle.td_image.specs.Behind as behind;
ghost use Rattle.td_image.specs.Reading.{Reads, IsDecided, RanOutOnlyIf};

use crate::fault::{Cause, ReadError};
use crate::fields::{u8_at, u16_at, u32_at, u64_at, wrong};
use crate::version::{ImageVersion, last_kind};
use std::alloc::Global;
use td_ir::fields::{Fields, instruction_of};
use td_ir::instructions::Instr;
use td_ir::opcodes::{OperandField, has};
use td_num::items::Items;

fn kind_at(version: ImageVersion, bytes: &[u8]) -> Result<(u8, &[u8]), ReadError>
    ensures read { Reads (λ x. (x.0, x.1.now)) result ((format.kind version).read bytes.now) }
    ensures decided { IsDecided result }
{
    let (n, rest) = u8_at(bytes)?;
    if n <= last_kind(version) {
        Ok((n, rest))
    } else {
        Err(wrong(Cause::Field, bytes))
    }
}

// An operand that is zero where the kind hasn't it.
fn u8_operand(used: bool, bytes: &[u8]) -> Result<(u8, &[u8]), ReadError>
    ensures read { Reads (λ x. (x.0, x.1.now)) result ((format.operand w8 used).read bytes.now) }
    ensures decided { IsDecided result }
{
    let (n, rest) = u8_at(bytes)?;
    if used || n == 0 {
        Ok((n, rest))
    } else {
        Err(wrong(Cause::Field, bytes))
    }
}

fn u16_operand(used: bool, bytes: &[u8]) -> Result<(u16, &[u8]), ReadError>
    ensures read { Reads (λ x. (x.0, x.1.now)) result ((format.operand w16 used).read bytes.now) }
    ensures decided { IsDecided result }
{
    let (n, rest) = u16_at(bytes)?;
    if used || n == 0 {
        Ok((n, rest))
    } else {
        Err(wrong(Cause::Field, bytes))
    }
}

fn u32_operand(used: bool, bytes: &[u8]) -> Result<(u32, &[u8]), ReadError>
    ensures read { Reads (λ x. (x.0, x.1.now)) result ((format.operand w32 used).read bytes.now) }
    ensures decided { IsDecided result }
{
    let (n, rest) = u32_at(bytes)?;
    if used || n == 0 {
        Ok((n, rest))
    } else {
        Err(wrong(Cause::Field, bytes))
    }
}

fn u64_operand(used: bool, bytes: &[u8]) -> Result<(u64, &[u8]), ReadError>
    ensures read { Reads (λ x. (x.0, x.1.now)) result ((format.operand w64 used).read bytes.now) }
    ensures decided { IsDecided result }
{
    let (n, rest) = u64_at(bytes)?;
    if used || n == 0 {
        Ok((n, rest))
    } else {
        Err(wrong(Cause::Field, bytes))
    }
}

// The operands of 32 and 64 bits, of an instruction of this number.
fn wide_operands_at(number: u8, bytes: &[u8]) -> Result<(u32, u32, u64, &[u8]), ReadError>
    ensures read { Reads (λ x. ((x.0, (x.1, x.2)), x.3.now)) result ((behind.wide_operands number).read bytes.now) }
    ensures decided { IsDecided result }
{
    let (t, rest) = u32_operand(has(number, OperandField::T), bytes)?;
    let (site, rest) = u32_operand(has(number, OperandField::Site), rest)?;
    let (k, rest) = u64_operand(has(number, OperandField::K), rest)?;
    Ok((t, site, k, rest))
}

#[tactic(auto, unfolding(crate::specs::Image::fields))]
fn fields_at(version: ImageVersion, bytes: &[u8]) -> Result<(Fields, &[u8]), ReadError>
    ensures read { Reads (λ x. (x.0, x.1.now)) result ((format.fields version).read bytes.now) }
    ensures decided { IsDecided result }
{
    let (number, rest) = kind_at(version, bytes)?;
    let (x, rest) = u8_operand(has(number, OperandField::X), rest)?;
    let (a, rest) = u16_operand(has(number, OperandField::A), rest)?;
    let (b, rest) = u16_operand(has(number, OperandField::B), rest)?;
    let (c, rest) = u16_operand(has(number, OperandField::C), rest)?;
    let (t, site, k, rest) = wide_operands_at(number, rest)?;
    let fields = Fields {
        number,
        x,
        a,
        b,
        c,
        t,
        site,
        k,
    };
    Ok((fields, rest))
}

fn instruction_at(version: ImageVersion, bytes: &[u8]) -> Result<(Instr, &[u8]), ReadError>
    ensures read { Reads (λ x. (x.0, x.1.now)) result ((format.instruction version).read bytes.now) }
    ensures decided { IsDecided result }
{
    let (fields, rest) = fields_at(version, bytes)?;
    let instruction = instruction_of(fields);
    Ok((instruction, rest))
}

/// So many instructions.
pub(crate) fn instructions_of(
    alloc: Global,
    version: ImageVersion,
    count: u32,
    bytes: &[u8],
) -> Result<(Items<Instr>, &[u8]), ReadError>
    ensures read { Reads (λ x. (x.0, x.1.now)) result ((times count (format.instruction version)).read bytes.now) }
    ensures memory { RanOutOnlyIf result ((times count (format.instruction version)).RunsOut bytes.now) }
{
    let mut rows = Items::new(alloc);
    let mut rest = bytes;
    for _ in 0..count {
        let (row, after) = instruction_at(version, rest)?;
        rows.push(row)?;
        rest = after;
    }
    Ok((rows, rest))
}
