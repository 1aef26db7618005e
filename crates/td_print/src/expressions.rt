//! Expressions. Parentheses stand only where the tree needs them.
#![tactic(auto, using(crate::proofs::Texts::texts))]

ghost use Rattle.std.specs.Prelude.{◌≡◌, [], ◌∷◌, ◌++◌, OnOk, flat_map};
ghost use Rattle.td_ast.specs.declared.token.TokenKind.TheVariants as kinds;
ghost use Rattle.td_print_layout.specs.Pieces.{Blank, Word, spelling, text_of};
ghost use Rattle.td_print_layout.specs.Operators.{binary_kind};
ghost use Rattle.td_print_layout.specs.Expressions.{expression_pieces, fitted, operand_pieces, tree_level, truth_kind};
ghost use Rattle.td_print_layout.specs.Sequences.{comma, in_parentheses};

use crate::operators::{binary_sign, left_of, level_of, right_of, unary_sign};
use crate::printer::Printer;
use crate::words::{number_word, write_qualified};
use std::alloc::AllocError;
use td_ast::expressions::{BinaryOperator, Expr, ExprKind, SizeofOperand};

/// The loosest level that the condition of `? :` has without parentheses.
const CONDITION: u8 = 11;

/// The loosest level that the operand of `!` or `~` has without parentheses.
const OPERAND: u8 = 1;

// How tightly an expression binds.
fn level(e: &Expr) -> u8
    ensures { result ≡ tree_level e.now }
{
    match &e.kind {
        ExprKind::Number(_, _) => 0,
        ExprKind::Truth(_) => 0,
        ExprKind::Name(_) => 0,
        ExprKind::FieldPos(_) => 0,
        ExprKind::Sizeof(_, _, _) => 0,
        ExprKind::RangeOkay(_, _, _) => 0,
        ExprKind::Unary(_, _, _) => 1,
        ExprKind::Binary(operator, _, _, _) => level_of(*operator),
        ExprKind::Choice(_, _, _, _) => 12,
    }
}

fn truth_word(truth: bool) -> &'static [u8]
    ensures { result.now ≡ spelling (truth_kind truth) }
{
    if truth { b"true" } else { b"false" }
}

fn write_sized(out: &mut Printer, operand: &SizeofOperand) -> Result<(), AllocError>
    ensures { OnOk result (out.new ≡ out.old ++ text_of (operand_pieces operand.now)) }
{
    match operand {
        SizeofOperand::Number(number) => out.write(number_word(*number)),
        SizeofOperand::Name(text) => write_qualified(out, text),
        SizeofOperand::This => out.write(b"this"),
    }
}

// `sizeof(operand)`
fn write_sizeof(out: &mut Printer, operand: &SizeofOperand) -> Result<(), AllocError>
    ensures { OnOk result (out.new ≡ out.old ++ text_of (Word kinds.Sizeof ∷ Word kinds.OpenParen ∷ (operand_pieces operand.now ++ Word kinds.CloseParen ∷ []))) }
{
    out.write(b"sizeof(")?;
    write_sized(out, operand)?;
    out.write(b")")
}

// ` + `
fn write_sign(out: &mut Printer, operator: BinaryOperator) -> Result<(), AllocError>
    ensures { OnOk result (out.new ≡ out.old ++ text_of (Blank ∷ Word (binary_kind operator) ∷ Blank ∷ [])) }
{
    out.write(b" ")?;
    out.write(binary_sign(operator))?;
    out.write(b" ")
}

// An operand at a place that takes this level or a tighter one without parentheses.
#[cycle(expression)]
fn write_operand(out: &mut Printer, loosest: u8, operand: &Expr) -> Result<(), AllocError>
    ensures { OnOk result (out.new ≡ out.old ++ text_of (fitted loosest operand.now (expression_pieces operand.now))) }
{
    if level(operand) <= loosest {
        write_expression(out, operand)?;
        return Ok(());
    }
    out.write(b"(")?;
    write_expression(out, operand)?;
    out.write(b")")
}

// Some bytes, and an expression after them.
#[cycle(expression)]
fn write_next(out: &mut Printer, before: &[u8], e: &Expr) -> Result<(), AllocError>
    ensures { OnOk result (out.new ≡ out.old ++ (before.now ++ text_of (expression_pieces e.now))) }
{
    out.write(before)?;
    write_expression(out, e)
}

// `is_range_okay(size, offset, access)`
#[cycle(expression)]
fn write_range(
    out: &mut Printer,
    size: &Expr,
    offset: &Expr,
    access: &Expr,
) -> Result<(), AllocError>
    ensures { OnOk result (out.new ≡ out.old ++ text_of (Word kinds.IsRangeOkay ∷ Word kinds.OpenParen ∷ (expression_pieces size.now
        ++ (comma ++ (expression_pieces offset.now ++ (comma ++ (expression_pieces access.now ++ Word kinds.CloseParen ∷ []))))))) }
{
    write_next(out, b"is_range_okay(", size)?;
    write_next(out, b", ", offset)?;
    write_next(out, b", ", access)?;
    out.write(b")")?;
    Ok(())
}

/// Writes an expression.
#[cycle(expression)]
pub(crate) fn write_expression(out: &mut Printer, e: &Expr) -> Result<(), AllocError>
    ensures { OnOk result (out.new ≡ out.old ++ text_of (expression_pieces e.now)) }
{
    match &e.kind {
        ExprKind::Number(value, base) => out.write_number(*value, *base),
        ExprKind::Truth(truth) => out.write(truth_word(*truth)),
        ExprKind::Name(name) => write_qualified(out, &name.text),
        ExprKind::FieldPos(_) => out.write(b"field_pos"),
        ExprKind::Sizeof(_, operand, _) => write_sizeof(out, operand),
        ExprKind::RangeOkay(size, offset, access) => write_range(out, size, offset, access),
        ExprKind::Unary(operator, _, operand) => {
            out.write(unary_sign(*operator))?;
            write_operand(out, OPERAND, operand)
        }
        ExprKind::Binary(operator, _, left, right) => {
            write_operand(out, left_of(*operator), left)?;
            write_sign(out, *operator)?;
            write_operand(out, right_of(*operator), right)
        }
        ExprKind::Choice(_, condition, first, second) => {
            write_operand(out, CONDITION, condition)?;
            write_next(out, b" ? ", first)?;
            write_next(out, b" : ", second)
        }
    }
}

/// Writes an expression, with some bytes before it and some after it.
pub(crate) fn write_enclosed(
    out: &mut Printer,
    before: &[u8],
    e: &Expr,
    after: &[u8],
) -> Result<(), AllocError>
    ensures { OnOk result (out.new ≡ out.old ++ (before.now ++ (text_of (expression_pieces e.now) ++ after.now))) }
{
    write_next(out, before, e)?;
    out.write(after)
}

// Expressions, each after a comma.
fn write_others(out: &mut Printer, others: &[Expr]) -> Result<(), AllocError>
    ensures { OnOk result (out.new ≡ out.old ++ text_of (flat_map (λ e. comma ++ expression_pieces e) others.now)) }
{
    for e in others {
        write_next(out, b", ", e)?;
    }
    Ok(())
}

/// Writes arguments: `(a, b, c)`, and nothing where there are none.
pub(crate) fn write_arguments(out: &mut Printer, arguments: &[Expr]) -> Result<(), AllocError>
    ensures { OnOk result (out.new ≡ out.old ++ text_of (in_parentheses expression_pieces arguments.now)) }
{
    match arguments {
        [] => Ok(()),
        [first, others @ ..] => {
            out.write(b"(")?;
            write_expression(out, first)?;
            write_others(out, others)?;
            out.write(b")")?;
            Ok(())
        }
    }
}
