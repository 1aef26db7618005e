//! Writes the code of expressions.
#![tactic(auto, using(crate::proofs::Writing::laid_then))]

ghost use Rattle.std.specs.Prelude.{◌≡◌, ℕ, ◌≤◌, ◌^◌, ◌<◌, ◌+◌, OnOk, length, slice_set};
ghost use Rattle.td_lower_blocks.specs.Block.{guard};
ghost use Rattle.td_lower_blocks.specs.Constructs.{value, Choice, Range};
ghost use Rattle.td_lower_blocks.specs.Lowered.{computed_of, compared_of, expr_of, mask_of};
ghost use Rattle.td_lower_blocks.specs.Tops.{top, term_top};
ghost use Rattle.td_lower_emit.specs.Emission.{Writes, operator_number, operation_then, by_number_then, masked_then, operator_then, relation_number, is_turned, range_then, both_then};

use crate::writer::Writer;
use std::alloc::AllocError;
use td_core::expressions::{Binary, CoreExpr, Node, Relation};
use td_expr::types::{greatest_of, type_of};
use td_ir::constants::{ADD, AND, DIV, EQ, LE, LT, MUL, NE, OR, REM, SHL, SHR, SUB, XOR};
use td_ir::instructions::Instr;

// The number of an operator in code.
fn operator_code(op: Binary) -> u8
    ensures { result ≡ operator_number op }
{
    match op {
        Binary::Add => ADD,
        Binary::Subtract => SUB,
        Binary::Multiply => MUL,
        Binary::Divide => DIV,
        Binary::Remainder => REM,
        Binary::BitAnd => AND,
        Binary::BitOr => OR,
        Binary::BitXor => XOR,
        Binary::ShiftLeft => SHL,
        Binary::ShiftRight => SHR,
    }
}

// Writes an operator on registers `t` and the next, into the first.
fn write_operation(code: &mut Writer, t: u16, operator: u8) -> Result<(), AllocError>
    requires { t + 1 < 2 ^ 16 }
    ensures { OnOk result (Writes code.old code.new (operation_then operator t)) }
{
    code.write(Instr::Op {
        into: t,
        operator,
        left: t,
        right: t + 1,
    })?;
    Ok(())
}

// Writes an operator on register `t` and a number, which comes into the next.
fn write_by_number(code: &mut Writer, t: u16, operator: u8, number: u64) -> Result<(), AllocError>
    requires { t + 1 < 2 ^ 16 }
    ensures { OnOk result (Writes code.old code.new (by_number_then operator number t)) }
{
    code.write(Instr::Const {
        into: t + 1,
        value: number,
    })?;
    write_operation(code, t, operator)?;
    Ok(())
}

// Masks what is shifted to the left to the bits of its type.
fn write_mask(code: &mut Writer, t: u16, op: Binary, mask: u64) -> Result<(), AllocError>
    requires { t + 1 < 2 ^ 16 }
    ensures { OnOk result (Writes code.old code.new (masked_then op mask t)) }
{
    match op {
        Binary::ShiftLeft => {
            write_by_number(code, t, AND, mask)?;
            Ok(())
        }
        _ => Ok(()),
    }
}

// Writes an operator on registers `t` and the next.
fn write_operator(code: &mut Writer, t: u16, op: Binary, mask: u64) -> Result<(), AllocError>
    requires { t + 1 < 2 ^ 16 }
    ensures { OnOk result (Writes code.old code.new (operator_then op mask t)) }
{
    write_operation(code, t, operator_code(op))?;
    write_mask(code, t, op, mask)?;
    Ok(())
}

// The number of a comparison in code; `>` and `>=` are `<` and `<=` with their operands turned.
fn relation_code(relation: Relation) -> u8
    ensures { result ≡ relation_number relation }
{
    match relation {
        Relation::Equal => EQ,
        Relation::NotEqual => NE,
        Relation::Less | Relation::Greater => LT,
        Relation::LessEqual | Relation::GreaterEqual => LE,
    }
}

// Whether the right operand's value comes first.
fn is_turned(relation: Relation) -> bool
    ensures { result ≡ is_turned relation }
{
    matches!(relation, Relation::Greater | Relation::GreaterEqual)
}

/// Sets the jump at a place, which passes over what was written behind it where a register isn't 0 (true) or is 0.
pub(crate) fn land(code: &mut Writer, place: u32, when: bool, test: u16)
    requires { place < length code.old }
    ensures { code.new ≡ slice_set code.old place (guard when test (length code.old)) }
{
    let target = code.place();
    let jump = if when {
        Instr::JumpIf { test, target }
    } else {
        Instr::JumpUnless { test, target }
    };
    code.set(place, jump);
}

// Writes `&&` (false) or `||` (true): the first side, and the second only where the first is that it counts.
#[cycle(value)]
fn write_both(
    code: &mut Writer,
    t: u16,
    a: &CoreExpr,
    b: &CoreExpr,
    when: bool,
) -> Result<(), AllocError>
    requires first { term_top t a.now ≤ 2 ^ 16 }
    requires second { term_top t b.now ≤ 2 ^ 16 }
    ensures { OnOk result (Writes code.old code.new (both_then when t (expr_of a.now) (expr_of b.now))) }
{
    write_value(code, t, a)?;
    let place = code.place();
    code.write(Instr::Mark)?;
    write_value(code, t, b)?;
    land(code, place, when, t);
    Ok(())
}

// Writes a choice between two expressions by a third one.
#[cycle(value)]
fn write_choice(
    code: &mut Writer,
    t: u16,
    c: &CoreExpr,
    a: &CoreExpr,
    b: &CoreExpr,
) -> Result<(), AllocError>
    requires test { term_top t c.now ≤ 2 ^ 16 }
    requires first { term_top t a.now ≤ 2 ^ 16 }
    requires second { term_top t b.now ≤ 2 ^ 16 }
    ensures { OnOk result (Writes code.old code.new (value t (Choice (expr_of c.now) (expr_of a.now) (expr_of b.now)))) }
{
    write_value(code, t, c)?;
    let place = code.place();
    code.write(Instr::Mark)?;
    write_value(code, t, a)?;
    let last = code.place();
    code.write(Instr::Mark)?;
    land(code, place, false, t);
    write_value(code, t, b)?;
    let end = code.place();
    code.set(last, Instr::Jump { target: end });
    Ok(())
}

// Writes the values of two expressions into register `t` and the next.
#[cycle(value)]
#[tactic(auto, using(crate::proofs::Writing::laid_then, crate::proofs::Values::some_top))]
fn write_pair(code: &mut Writer, t: u16, a: &CoreExpr, b: &CoreExpr) -> Result<(), AllocError>
    requires first { term_top t a.now ≤ 2 ^ 16 }
    requires second { term_top (t + 1) b.now ≤ 2 ^ 16 }
    ensures { OnOk result (Writes code.old code.new (λ k. value t (expr_of a.now) (value (t + 1) (expr_of b.now) k))) }
{
    write_value(code, t, a)?;
    write_value(code, t + 1, b)?;
    Ok(())
}

// Writes an operator on two expressions.
#[cycle(value)]
#[tactic(auto, using(crate::proofs::Writing::laid_then, crate::proofs::Values::computed_value, crate::proofs::Values::some_top))]
fn write_computed(
    code: &mut Writer,
    t: u16,
    op: Binary,
    a: &CoreExpr,
    b: &CoreExpr,
) -> Result<(), AllocError>
    requires first { term_top t a.now ≤ 2 ^ 16 }
    requires second { term_top (t + 1) b.now ≤ 2 ^ 16 }
    ensures { OnOk result (Writes code.old code.new (value t (computed_of op (mask_of a.now) (expr_of a.now) (expr_of b.now)))) }
{
    write_pair(code, t, a, b)?;
    write_operator(code, t, op, greatest_of(type_of(a)))?;
    Ok(())
}

// Writes a comparison of two expressions.
#[cycle(value)]
#[tactic(auto, using(crate::proofs::Writing::laid_then, crate::proofs::Values::turned_top, crate::proofs::Values::straight_top, crate::proofs::Values::turned_value, crate::proofs::Values::straight_value, crate::proofs::Values::some_top))]
fn write_compared(
    code: &mut Writer,
    t: u16,
    relation: Relation,
    a: &CoreExpr,
    b: &CoreExpr,
) -> Result<(), AllocError>
    requires { top t (compared_of relation (expr_of a.now) (expr_of b.now)) ≤ 2 ^ 16 }
    ensures { OnOk result (Writes code.old code.new (value t (compared_of relation (expr_of a.now) (expr_of b.now)))) }
{
    if is_turned(relation) {
        write_pair(code, t, b, a)?;
        write_operation(code, t, relation_code(relation))?;
        return Ok(());
    }
    write_pair(code, t, a, b)?;
    write_operation(code, t, relation_code(relation))?;
    Ok(())
}

// Writes whether so many bytes from an offset on lie in a size.
#[cycle(value)]
#[tactic(auto, using(crate::proofs::Writing::laid_then, crate::proofs::Values::some_top))]
fn write_okay(
    code: &mut Writer,
    t: u16,
    size: &CoreExpr,
    offset: &CoreExpr,
    access: &CoreExpr,
) -> Result<(), AllocError>
    requires { top t (Range (expr_of size.now) (expr_of offset.now) (expr_of access.now)) ≤ 2 ^ 16 }
    ensures { OnOk result (Writes code.old code.new (value t (Range (expr_of size.now) (expr_of offset.now) (expr_of access.now)))) }
{
    write_pair(code, t, size, offset)?;
    write_value(code, t + 2, access)?;
    write_range(code, t)?;
    Ok(())
}

/// Writes the code that puts an expression's value into register `t`, with the registers above it. `AllocError`: there was
/// no memory for it.
#[cycle(value)]
#[tactic(auto, using(crate::proofs::Writing::laid_then, td_lower_blocks::proofs::Heights::computed_top, crate::proofs::Values::some_top))]
pub fn write_value(code: &mut Writer, t: u16, e: &CoreExpr) -> Result<(), AllocError>
    requires { term_top t e.now ≤ 2 ^ 16 }
    ensures { OnOk result (Writes code.old code.new (value t (expr_of e.now))) }
{
    match &e.node {
        Node::Number { value, .. } => {
            code.write(Instr::Const {
                into: t,
                value: *value,
            })?;
            Ok(())
        }
        Node::Name { level, .. } => {
            let place = *level as u16;
            code.write(Instr::Op {
                into: t,
                operator: OR,
                left: place,
                right: place,
            })?;
            Ok(())
        }
        Node::Complement(a) => {
            write_value(code, t, a)?;
            write_by_number(code, t, XOR, greatest_of(type_of(a)))?;
            Ok(())
        }
        Node::Not(a) => {
            write_value(code, t, a)?;
            write_by_number(code, t, EQ, 0)?;
            Ok(())
        }
        Node::Compute(op, _, a, b) => write_computed(code, t, *op, a, b),
        Node::Compare(relation, a, b) => write_compared(code, t, *relation, a, b),
        Node::Both(a, b) => write_both(code, t, a, b, false),
        Node::Either(a, b) => write_both(code, t, a, b, true),
        Node::Choice(c, a, b) => write_choice(code, t, c, a, b),
        Node::RangeOkay(size, offset, access) => write_okay(code, t, size, offset, access),
    }
}

// Whether so many bytes from an offset on lie in a size, these in registers `t + 2`, `t + 1` and `t`.
fn write_range(code: &mut Writer, t: u16) -> Result<(), AllocError>
    requires { t + 3 < 2 ^ 16 }
    ensures { OnOk result (Writes code.old code.new (range_then t)) }
{
    code.write(Instr::Op {
        into: t + 3,
        operator: LE,
        left: t + 2,
        right: t,
    })?;
    code.write(Instr::Op {
        into: t,
        operator: SUB,
        left: t,
        right: t + 2,
    })?;
    code.write(Instr::Op {
        into: t,
        operator: LE,
        left: t + 1,
        right: t,
    })?;
    code.write(Instr::Op {
        into: t,
        operator: AND,
        left: t,
        right: t + 3,
    })?;
    Ok(())
}
