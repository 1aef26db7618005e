//! The text of an instruction.

ghost use Rattle.std.specs.Prelude.{ℕ, ◌<◌, ◌^◌, length};
ghost use Rattle.td_ir.specs.Tables.{lengths_of};
ghost use Rattle.td_ir.specs.WellFormed.{IsCode};
ghost use Rattle.td_prog.specs.Syntax as syntax;
ghost use Rattle.td_prog_emit.specs.Written.{Wrote, pieces_of};
ghost use Rattle.td_verify.specs.Operands.{HasOperands, HasTables};
ghost use Rattle.td_verify.specs.Rules.{CallsWell};
ghost use Rattle.td_verify.specs.Shape.{shape, shapes_of};
ghost use Rattle.td_verify.specs.Verify.{depths};

use crate::bytes::{
    push_divides, push_fail, push_fetch, push_narrow, push_narrow_by, push_skip, push_skip_by,
    push_widen, push_zeros, push_zeroterm,
};
use crate::calls::push_call;
use crate::copies::push_copy;
use crate::kinds::{
    push_bits, push_const, push_get, push_jump, push_jump_if, push_jump_unless, push_left,
    push_mark, push_op, push_pos, push_rest, push_return, push_set,
};
use crate::sets::push_member;
use std::alloc::AllocError;
use td_ir::instructions::Instr;
use td_ir::tables::Parts;

/// An instruction of routine `n`. Of one that begins or ends a loop nothing is written: that is a block's.
pub fn push_instruction(
    out: &mut Vec<u8>,
    depth: usize,
    parts: &Parts,
    n: usize,
    instruction: Instr,
) -> Result<(), AllocError>
    requires code { IsCode parts.now }
    requires routine { n < length parts.now.routines }
    requires tables { HasTables parts.now n instruction }
    requires operands { HasOperands instruction }
    requires calls { CallsWell (depths (shapes_of parts.now) (lengths_of parts.now) n) n (shape instruction) }
    requires depth { depth < 2 ^ 31 }
    ensures { (whole : syntax.Block) →
        Wrote result out.old.items out.new.items (pieces_of parts.now n whole depth instruction) }
{
    match instruction {
        Instr::Const { into, value } => push_const(out, depth, into, value),
        Instr::Member { into, source, set } => push_member(out, depth, parts, into, source, set),
        Instr::Op {
            into,
            operator,
            left,
            right,
        } => push_op(out, depth, into, operator, left, right),
        Instr::Bits {
            into,
            source,
            low,
            count,
        } => push_bits(out, depth, into, source, low, count),
        Instr::Pos { into } => push_pos(out, depth, into),
        Instr::Jump { target } => push_jump(out, depth, target),
        Instr::JumpIf { test, target } => push_jump_if(out, depth, test, target),
        Instr::JumpUnless { test, target } => push_jump_unless(out, depth, test, target),
        Instr::Call {
            first,
            routine,
            map,
            site,
        } => push_call(out, depth, parts, n, first, routine, map, site),
        Instr::Return => push_return(out, depth),
        Instr::Fetch {
            into,
            order,
            width,
            site,
        } => push_fetch(out, depth, parts, into, order, width, site),
        Instr::SkipK { bytes, site } => push_skip_by(out, depth, parts, bytes, site),
        Instr::Skip { size, site } => push_skip(out, depth, parts, size, site),
        Instr::Rest => push_rest(out, depth),
        Instr::Zeros { site } => push_zeros(out, depth, parts, site),
        Instr::Zeroterm { bound, width, site } => push_zeroterm(
            out, depth, parts, bound, width, site,
        ),
        Instr::NarrowK { bytes, site } => push_narrow_by(out, depth, parts, bytes, site),
        Instr::Narrow { size, site } => push_narrow(out, depth, parts, size, site),
        Instr::Divides { size, step, site } => push_divides(out, depth, parts, size, step, site),
        Instr::Widen { site } => push_widen(out, depth, parts, site),
        Instr::Fail { reason, site } => push_fail(out, depth, parts, reason, site),
        Instr::Get { into, cell } => push_get(out, depth, into, cell),
        Instr::Set { source, cell } => push_set(out, depth, source, cell),
        Instr::Mark => push_mark(out, depth),
        Instr::Copy { size, buffer, site } => push_copy(out, depth, parts, n, size, buffer, site),
        Instr::Left { into } => push_left(out, depth, into),
        Instr::While { .. } | Instr::Again { .. } => Ok(()),
    }
}
