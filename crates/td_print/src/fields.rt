//! Fields, each on a line of its own.
#![tactic(auto, using(crate::proofs::Texts::texts))]

ghost use Rattle.std.specs.Prelude.{◌≡◌, [], ◌∷◌, ◌++◌, OnOk, flat_map};
ghost use Rattle.td_ast.specs.declared.token.TokenKind.TheVariants as kinds;
ghost use Rattle.td_print_layout.specs.Pieces.{Word, text_of};
ghost use Rattle.td_print_layout.specs.Expressions.{expression_pieces};
ghost use Rattle.td_print_layout.specs.Fields.{action_after, extent_pieces, field_line, field_pieces, refinement_pieces, type_pieces};
ghost use Rattle.td_print_layout.specs.Sequences.{optional};

use crate::actions::write_action;
use crate::expressions::{write_arguments, write_enclosed};
use crate::printer::Printer;
use crate::words::{number_word, write_between, write_qualified};
use std::alloc::AllocError;
use td_ast::actions::ActionTree;
use td_ast::expressions::Expr;
use td_ast::fields::{ExtentTree, FieldTree, TypeKind};

fn write_type(out: &mut Printer, kind: &TypeKind) -> Result<(), AllocError>
    ensures { OnOk result (out.new ≡ out.old ++ text_of (type_pieces kind.now)) }
{
    match kind {
        TypeKind::Number(number) => out.write(number_word(*number)),
        TypeKind::Unit => out.write(b"unit"),
        TypeKind::AllBytes => out.write(b"all_bytes"),
        TypeKind::AllZeros => out.write(b"all_zeros"),
        TypeKind::Named(name, arguments) => {
            write_qualified(out, name)?;
            write_arguments(out, arguments.as_slice())
        }
    }
}

// A size in brackets: what opens them, the size, and `]`.
fn write_size(out: &mut Printer, opening: &[u8], size: &Expr) -> Result<(), AllocError>
    ensures { OnOk result (out.new ≡ out.old ++ (opening.now ++ text_of (expression_pieces size.now ++ Word kinds.CloseBracket ∷ []))) }
{
    write_enclosed(out, opening, size, b"]")
}

fn write_extent(out: &mut Printer, extent: &Option<ExtentTree>) -> Result<(), AllocError>
    ensures { OnOk result (out.new ≡ out.old ++ text_of (optional extent_pieces extent.now)) }
{
    match extent {
        None => Ok(()),
        Some(ExtentTree::Bytes(size)) => write_size(out, b"[", size),
        Some(ExtentTree::ByteSize(size)) => write_size(out, b"[:byte-size ", size),
        Some(ExtentTree::SingleElement(size)) => {
            write_size(out, b"[:byte-size-single-element-array ", size)
        }
        Some(ExtentTree::Zeroterm(size)) => {
            write_size(out, b"[:zeroterm-byte-size-at-most ", size)
        }
        Some(ExtentTree::Bits(width)) => {
            out.write(b" : ")?;
            out.write_number(width.value, width.base)
        }
        Some(ExtentTree::Given(value)) => write_enclosed(out, b" = ", value, b""),
        Some(ExtentTree::OfCell(_, cell)) => write_between(out, b" = *", cell, b""),
    }
}

// ` { e }`
fn write_refinement(out: &mut Printer, refinement: &Option<Expr>) -> Result<(), AllocError>
    ensures { OnOk result (out.new ≡ out.old ++ text_of (optional refinement_pieces refinement.now)) }
{
    match refinement {
        None => Ok(()),
        Some(condition) => write_enclosed(out, b" { ", condition, b" }"),
    }
}

fn write_action_after(out: &mut Printer, action: &Option<ActionTree>) -> Result<(), AllocError>
    ensures { OnOk result (out.new ≡ out.old ++ text_of (optional action_after action.now)) }
{
    match action {
        None => Ok(()),
        Some(action) => {
            out.write(b" ")?;
            write_action(out, action)
        }
    }
}

fn write_field(out: &mut Printer, field: &FieldTree) -> Result<(), AllocError>
    ensures { OnOk result (out.new ≡ out.old ++ text_of (field_pieces field.now)) }
{
    write_type(out, &field.type_tree.kind)?;
    write_between(out, b" ", &field.name, b"")?;
    write_extent(out, &field.extent)?;
    write_refinement(out, &field.refinement)?;
    write_action_after(out, &field.action)?;
    out.write(b";")
}

/// Writes the fields of a struct, a level deep.
pub(crate) fn write_struct_fields(out: &mut Printer, fields: &[FieldTree]) -> Result<(), AllocError>
    ensures { OnOk result (out.new ≡ out.old ++ text_of (flat_map (field_line 1) fields.now)) }
{
    for field in fields {
        out.write(b"    ")?;
        write_field(out, field)?;
        out.write(b"\n")?;
    }
    Ok(())
}

/// Writes the fields of a case, three levels deep.
pub(crate) fn write_case_fields(out: &mut Printer, fields: &[FieldTree]) -> Result<(), AllocError>
    ensures { OnOk result (out.new ≡ out.old ++ text_of (flat_map (field_line 3) fields.now)) }
{
    for field in fields {
        out.write(b"            ")?;
        write_field(out, field)?;
        out.write(b"\n")?;
    }
    Ok(())
}
