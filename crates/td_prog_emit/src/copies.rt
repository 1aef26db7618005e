//! The text of a copy.

ghost use Rattle.std.specs.Prelude.{ℕ, ◌+◌, ◌<◌, ◌^◌, [], ◌∷◌, codes, decimal, length, slice_index_or};
ghost use Rattle.td_ir.specs.Tables.{routine_of};
ghost use Rattle.td_ir.specs.WellFormed.{IsCode};
ghost use Rattle.td_ir.specs.declared.instructions.Instr.TheVariants as i;
ghost use Rattle.td_prog.specs.Syntax as syntax;
ghost use Rattle.td_prog_code.specs.Prelude.{copy_helper};
ghost use Rattle.td_prog_emit.specs.Written.{Wrote, copy_pieces, helper_names, pieces_of};
ghost use Rattle.td_prog_text.specs.Expressions.{numeral, pointed, variable};
ghost use Rattle.td_prog_text.specs.Statements.{buffers_text, lined};

use crate::bytes::{push_room, push_taken};
use crate::pieces::{
    push, push_begun, push_close, push_decimal, push_decimal_in, push_numeral_in, push_register_in,
};
use crate::tables::{room_at, routine_at};
use std::alloc::AllocError;
use td_ir::tables::Parts;

// `most = 14; if (r1 < most) { most = r1; }`
fn push_least(out: &mut Vec<u8>, depth: usize, size: u16, room: u32) -> Result<(), AllocError>
    requires { depth < 2 ^ 32 }
    ensures { Wrote result out.old.items out.new.items (lined depth (codes "most = " ∷ numeral room ∷ codes ";" ∷ []) (lined depth (codes "if (" ∷ variable (syntax.Reg size) ∷ codes " < most) {" ∷ []) (lined (depth + 1) (codes "most = " ∷ variable (syntax.Reg size) ∷ codes ";" ∷ []) (lined depth (codes "}" ∷ []) [])))) }
{
    push_begun(out, depth, b"most = ")?;
    push_numeral_in(out, b"", room as u64, b";\n")?;
    push_begun(out, depth, b"if (")?;
    push_register_in(out, b"", size, b" < most) {\n")?;
    push_begun(out, depth + 1, b"most = ")?;
    push_register_in(out, b"", size, b";\n")?;
    push_close(out, depth)
}

// `*c3 = pos; *c4 = most;`
fn push_held(out: &mut Vec<u8>, depth: usize, cell: u64) -> Result<(), AllocError>
    requires { cell < 2 ^ 32 }
    ensures { Wrote result out.old.items out.new.items (lined depth (pointed cell ∷ codes " = pos;" ∷ []) (lined depth (pointed (cell + 1) ∷ codes " = most;" ∷ []) [])) }
{
    push_begun(out, depth, b"*c")?;
    push_decimal_in(out, b"", cell, b" = pos;\n")?;
    push_begun(out, depth, b"*c")?;
    push_decimal_in(out, b"", cell + 1, b" = most;\n")
}

fn push_buffer(out: &mut Vec<u8>, buffer: u16) -> Result<(), AllocError>
    ensures { Wrote result out.old.items out.new.items (buffers_text (buffer ∷ []) ∷ []) }
{
    push(out, b", b")?;
    push_decimal(out, buffer as u64)
}

// `number = td_copy(run, pos, most, b0);`
fn push_copied(out: &mut Vec<u8>, depth: usize, buffer: u16) -> Result<(), AllocError>
    ensures { Wrote result out.old.items out.new.items (lined depth (codes "number = " ∷ slice_index_or helper_names copy_helper [] ∷ codes "(run" ∷ codes ", pos, most" ∷ buffers_text (buffer ∷ []) ∷ codes ");" ∷ []) []) }
{
    push_begun(out, depth, b"number = td_copy(run, pos, most")?;
    push_buffer(out, buffer)?;
    push(out, b");\n")
}

// By the buffer's room, and by the first of its two cells.
fn push_copy_by(
    out: &mut Vec<u8>,
    depth: usize,
    parts: &Parts,
    size: u16,
    buffer: u16,
    site: u32,
    room: u32,
    cell: u64,
) -> Result<(), AllocError>
    requires code { IsCode parts.now }
    requires site { site < length parts.now.sites }
    requires depth { depth < 2 ^ 32 }
    requires cell { cell < 2 ^ 32 }
    ensures { Wrote result out.old.items out.new.items (copy_pieces parts.now depth size buffer site room cell) }
{
    push_room(out, depth, parts, size, site)?;
    push_least(out, depth, size, room)?;
    push_held(out, depth, cell)?;
    push_copied(out, depth, buffer)?;
    push_taken(out, depth, size)
}

/// A copy of as many bytes as a register says, up to the buffer's room
pub fn push_copy(
    out: &mut Vec<u8>,
    depth: usize,
    parts: &Parts,
    n: usize,
    size: u16,
    buffer: u16,
    site: u32,
) -> Result<(), AllocError>
    requires code { IsCode parts.now }
    requires routine { n < length parts.now.routines }
    requires buffer { buffer < length (routine_of parts.now n).buffers }
    requires site { site < length parts.now.sites }
    requires depth { depth < 2 ^ 32 }
    ensures { (whole : syntax.Block) →
        Wrote result out.old.items out.new.items (pieces_of parts.now n whole depth (i.Copy size buffer site)) }
{
    let room = room_at(parts, n, buffer as usize);
    let routine = routine_at(parts, n);
    push_copy_by(
        out,
        depth,
        parts,
        size,
        buffer,
        site,
        room,
        routine.cells as u64 + 2 * buffer as u64,
    )
}
