//! Actions and their statements.
#![tactic(auto, using(crate::proofs::Texts::texts))]

ghost use Rattle.std.specs.Prelude.{◌≡◌, ◌++◌, OnOk, flat_map};
ghost use Rattle.td_ast.specs.Statements.{block_of};
ghost use Rattle.td_print_layout.specs.Pieces.{spelling, text_of};
ghost use Rattle.td_print_layout.specs.Actions.{action_kind, action_pieces, assigned_pieces, block_pieces, in_braces, statement_after, statement_pieces};

use crate::expressions::{write_enclosed, write_expression};
use crate::printer::Printer;
use crate::words::write_between;
use std::alloc::AllocError;
use td_ast::actions::{ActionKind, ActionTree, Assigned, Block, Stmt, StmtKind};

fn write_assigned(out: &mut Printer, assigned: &Assigned) -> Result<(), AllocError>
    ensures { OnOk result (out.new ≡ out.old ++ text_of (assigned_pieces assigned.now)) }
{
    match assigned {
        Assigned::Value(value) => write_expression(out, value),
        Assigned::FieldPtr(_) => out.write(b"field_ptr"),
    }
}

#[cycle(block)]
fn write_statement(out: &mut Printer, statement: &Stmt) -> Result<(), AllocError>
    ensures { OnOk result (out.new ≡ out.old ++ text_of (statement_pieces statement.now)) }
{
    match &statement.kind {
        StmtKind::Store(cell, value) => {
            write_between(out, b"*", cell, b" = ")?;
            write_assigned(out, value)?;
            out.write(b";")
        }
        StmtKind::StoreField(cell, field, value) => {
            write_between(out, b"", cell, b"->")?;
            write_between(out, b"", field, b" = ")?;
            write_assigned(out, value)?;
            out.write(b";")
        }
        StmtKind::Var(local, _, cell) => {
            write_between(out, b"var ", local, b" = *")?;
            write_between(out, b"", cell, b";")
        }
        StmtKind::If(condition, block) => {
            write_enclosed(out, b"if (", condition, b") ")?;
            write_braced(out, block)
        }
        StmtKind::IfElse(condition, block, other) => {
            write_enclosed(out, b"if (", condition, b") ")?;
            write_braced(out, block)?;
            out.write(b" else ")?;
            write_braced(out, other)
        }
        StmtKind::Return(value) => write_enclosed(out, b"return ", value, b";"),
        StmtKind::Abort => out.write(b"abort;"),
    }
}

// Statements, each with a blank after it.
#[cycle(block)]
fn write_statements(out: &mut Printer, statements: &[Stmt]) -> Result<(), AllocError>
    ensures { OnOk result (out.new ≡ out.old ++ text_of (block_pieces (block_of statements.now))) }
{
    for statement in statements {
        write_statement(out, statement)?;
        out.write(b" ")?;
    }
    Ok(())
}

// `{ s s }`, and `{ }` where there are no statements.
#[cycle(block)]
fn write_braced(out: &mut Printer, block: &Block) -> Result<(), AllocError>
    ensures { OnOk result (out.new ≡ out.old ++ text_of (in_braces (block_pieces (block_of block.now)))) }
{
    out.write(b"{ ")?;
    write_statements(out, block.as_slice())?;
    out.write(b"}")
}

fn action_word(kind: ActionKind) -> &'static [u8]
    ensures { result.now ≡ spelling (action_kind kind) }
{
    match kind {
        ActionKind::Act => b"{:act",
        ActionKind::Check => b"{:check",
        ActionKind::OnSuccess => b"{:on-success",
    }
}

// Statements, each with a blank before it.
fn write_after_blanks(out: &mut Printer, statements: &[Stmt]) -> Result<(), AllocError>
    ensures { OnOk result (out.new ≡ out.old ++ text_of (flat_map statement_after statements.now)) }
{
    for statement in statements {
        out.write(b" ")?;
        write_statement(out, statement)?;
    }
    Ok(())
}

/// Writes an action: `{:act s s}`, and `{:act}` where there are no statements; `{:copy b}`.
pub(crate) fn write_action(out: &mut Printer, action: &ActionTree) -> Result<(), AllocError>
    ensures { OnOk result (out.new ≡ out.old ++ text_of (action_pieces action.now)) }
{
    match action {
        ActionTree::Done {
            kind,
            statements,
            ..
        } => {
            out.write(action_word(*kind))?;
            write_after_blanks(out, statements.as_slice())?;
            out.write(b"}")
        }
        ActionTree::Copied { name, .. } => write_between(out, b"{:copy ", name, b"}"),
    }
}
