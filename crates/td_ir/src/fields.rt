//! An instruction as a row of fields, as an image has it.

ghost use Rattle.std.specs.Prelude.{◌≡◌};
ghost use Rattle.td_ir.specs.Fields as rows;

use crate::instructions::Instr;
use crate::opcodes::{Operand, OperandField, field_of, has};

/// The number of an instruction's kind, and its operands. Those that the kind hasn't are zero.
#[derive(Clone, Copy)]
pub struct Fields {
    /// The number of the kind, from 0 on.
    pub number: u8,
    /// An operator, an order, a reason, or the lowest bit.
    pub x: u8,
    /// A register that is written, or the first argument's.
    pub a: u16,
    /// A register that is read.
    pub b: u16,
    /// A second one, a width, a count of bits, a cell or a buffer.
    pub c: u16,
    /// A target, a routine or a set.
    pub t: u32,
    /// A site.
    pub site: u32,
    /// A number of 64 bits: a value, a count of bytes, a step or a cell map.
    pub k: u64,
}

/// An operand of these fields, as a number.
pub fn value_of(fields: Fields, operand: Operand) -> u64
    ensures { result ≡ rows.value_of fields operand }
{
    match field_of(operand) {
        OperandField::X => fields.x.into(),
        OperandField::A => fields.a.into(),
        OperandField::B => fields.b.into(),
        OperandField::C => fields.c.into(),
        OperandField::T => fields.t.into(),
        OperandField::Site => fields.site.into(),
        OperandField::K => fields.k,
    }
}

/// The instruction of these fields.
pub fn instruction_of(f: Fields) -> Instr
    ensures { result ≡ rows.instruction_of f }
{
    match f.number {
        0 => Instr::Const {
            into: f.a,
            value: f.k,
        },
        1 => Instr::Member {
            into: f.a,
            source: f.b,
            set: f.t,
        },
        2 => Instr::Op {
            into: f.a,
            operator: f.x,
            left: f.b,
            right: f.c,
        },
        3 => Instr::Bits {
            into: f.a,
            source: f.b,
            low: f.x,
            count: f.c,
        },
        4 => Instr::Pos { into: f.a },
        5 => Instr::Jump { target: f.t },
        6 => Instr::JumpIf {
            test: f.b,
            target: f.t,
        },
        7 => Instr::JumpUnless {
            test: f.b,
            target: f.t,
        },
        8 => Instr::Call {
            first: f.a,
            routine: f.t,
            map: f.k,
            site: f.site,
        },
        9 => Instr::Return,
        10 => Instr::Fetch {
            into: f.a,
            order: f.x,
            width: f.c,
            site: f.site,
        },
        11 => Instr::SkipK {
            bytes: f.k,
            site: f.site,
        },
        12 => Instr::Skip {
            size: f.b,
            site: f.site,
        },
        13 => Instr::Rest,
        14 => Instr::Zeros { site: f.site },
        15 => Instr::Zeroterm {
            bound: f.b,
            width: f.c,
            site: f.site,
        },
        16 => Instr::NarrowK {
            bytes: f.k,
            site: f.site,
        },
        17 => Instr::Narrow {
            size: f.b,
            site: f.site,
        },
        18 => Instr::Divides {
            size: f.b,
            step: f.k,
            site: f.site,
        },
        19 => Instr::While { target: f.t },
        20 => Instr::Again { target: f.t },
        21 => Instr::Widen { site: f.site },
        22 => Instr::Fail {
            reason: f.x,
            site: f.site,
        },
        23 => Instr::Get {
            into: f.a,
            cell: f.c,
        },
        24 => Instr::Set {
            source: f.b,
            cell: f.c,
        },
        26 => Instr::Copy {
            size: f.b,
            buffer: f.c,
            site: f.site,
        },
        27 => Instr::Left { into: f.a },
        // 25; no fields have a greater number
        _ => Instr::Mark,
    }
}

/// The fields of an instruction.
pub fn fields_of(instruction: Instr) -> Fields
    ensures { result ≡ rows.fields_of instruction }
{
    match instruction {
        Instr::Const { into, value } => Fields {
            a: into,
            k: value,
            ..no_operands(0)
        },
        Instr::Member { into, source, set } => Fields {
            a: into,
            b: source,
            t: set,
            ..no_operands(1)
        },
        Instr::Op {
            into,
            operator,
            left,
            right,
        } => Fields {
            x: operator,
            a: into,
            b: left,
            c: right,
            ..no_operands(2)
        },
        Instr::Bits {
            into,
            source,
            low,
            count,
        } => Fields {
            x: low,
            a: into,
            b: source,
            c: count,
            ..no_operands(3)
        },
        Instr::Pos { into } => Fields {
            a: into,
            ..no_operands(4)
        },
        Instr::Jump { target } => Fields {
            t: target,
            ..no_operands(5)
        },
        Instr::JumpIf { test, target } => Fields {
            b: test,
            t: target,
            ..no_operands(6)
        },
        Instr::JumpUnless { test, target } => Fields {
            b: test,
            t: target,
            ..no_operands(7)
        },
        Instr::Call {
            first,
            routine,
            map,
            site,
        } => Fields {
            a: first,
            t: routine,
            site,
            k: map,
            ..no_operands(8)
        },
        Instr::Return => no_operands(9),
        Instr::Fetch {
            into,
            order,
            width,
            site,
        } => Fields {
            x: order,
            a: into,
            c: width,
            site,
            ..no_operands(10)
        },
        Instr::SkipK { bytes, site } => Fields {
            site,
            k: bytes,
            ..no_operands(11)
        },
        Instr::Skip { size, site } => Fields {
            b: size,
            site,
            ..no_operands(12)
        },
        Instr::Rest => no_operands(13),
        Instr::Zeros { site } => Fields {
            site,
            ..no_operands(14)
        },
        Instr::Zeroterm { bound, width, site } => Fields {
            b: bound,
            c: width,
            site,
            ..no_operands(15)
        },
        Instr::NarrowK { bytes, site } => Fields {
            site,
            k: bytes,
            ..no_operands(16)
        },
        Instr::Narrow { size, site } => Fields {
            b: size,
            site,
            ..no_operands(17)
        },
        Instr::Divides { size, step, site } => Fields {
            b: size,
            site,
            k: step,
            ..no_operands(18)
        },
        Instr::While { target } => Fields {
            t: target,
            ..no_operands(19)
        },
        Instr::Again { target } => Fields {
            t: target,
            ..no_operands(20)
        },
        Instr::Widen { site } => Fields {
            site,
            ..no_operands(21)
        },
        Instr::Fail { reason, site } => Fields {
            x: reason,
            site,
            ..no_operands(22)
        },
        Instr::Get { into, cell } => Fields {
            a: into,
            c: cell,
            ..no_operands(23)
        },
        Instr::Set { source, cell } => Fields {
            b: source,
            c: cell,
            ..no_operands(24)
        },
        Instr::Mark => no_operands(25),
        Instr::Copy { size, buffer, site } => Fields {
            b: size,
            c: buffer,
            site,
            ..no_operands(26)
        },
        Instr::Left { into } => Fields {
            a: into,
            ..no_operands(27)
        },
    }
}

// The fields of a kind, all operands zero.
fn no_operands(number: u8) -> Fields
    ensures { result ≡ rows.no_operands number }
{
    Fields {
        number,
        x: 0,
        a: 0,
        b: 0,
        c: 0,
        t: 0,
        site: 0,
        k: 0,
    }
}

/// The site that an instruction names.
pub fn named(instruction: Instr) -> Option<u32>
    ensures { result ≡ rows.named instruction }
{
    let fields = fields_of(instruction);
    if has(fields.number, OperandField::Site) {
        Some(fields.site)
    } else {
        None
    }
}
