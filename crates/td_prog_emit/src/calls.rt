//! The text of a call.

ghost use Rattle.std.specs.Prelude.{◌≡◌, ℕ, ◌++◌, ◌<◌, ◌^◌, OnOk, [], ◌∷◌, codes, decimal, drop, flat_map, length, slice_index_or, map as map_list};
ghost use Rattle.td_ir.specs.Tables.{cells_by, map_of, routine_of, site_of};
ghost use Rattle.td_ir.specs.WellFormed.{IsCode};
ghost use Rattle.td_ir.specs.declared.instructions.Instr.TheVariants as i;
ghost use Rattle.td_prog.specs.Syntax as syntax;
ghost use Rattle.td_prog_code.specs.Instructions.{spot};
ghost use Rattle.td_prog_emit.specs.Written.{Wrote, buffer_text, cell_text, pair_text, pieces_of, routine_names, site_pieces};
ghost use Rattle.td_prog_text.specs.Names.{name_of, routine_name, undotted_byte};
ghost use Rattle.td_prog_text.specs.Statements.{buffers_text, cells_text, lined, registers_text};
ghost use Rattle.td_verify.specs.Operands.{IsCellMap};

use crate::names::{name_at, push_site};
use crate::pieces::{
    extend, extend_decimal, push, push_begun, push_close, push_decimal, push_line,
};
use crate::tables::{map_at, routine_at};
use std::alloc::AllocError;
use td_core::module::NameId;
use td_ir::tables::Parts;

fn undotted(byte: u8) -> u8
    ensures { result ≡ undotted_byte byte }
{
    if byte == 46 { 95 } else { byte }
}

fn extend_undotted(out: &mut Vec<u8>, bytes: &[u8]) -> Result<(), AllocError>
    ensures { OnOk result (out.new.items ≡ out.old.items ++ map_list undotted_byte bytes.now) }
{
    for byte in bytes {
        out.push(undotted(*byte))?;
    }
    Ok(())
}

fn push_undotted(out: &mut Vec<u8>, bytes: &[u8]) -> Result<(), AllocError>
    ensures { Wrote result out.old.items out.new.items (map_list undotted_byte bytes.now ∷ []) }
{
    extend_undotted(out, bytes)
}

/// A name, with `_` in the place of a dot.
pub fn push_name_of(out: &mut Vec<u8>, parts: &Parts, name: NameId) -> Result<(), AllocError>
    requires { name.number < length parts.now.names }
    ensures { Wrote result out.old.items out.new.items (name_of parts.now name ∷ []) }
{
    let pieces = name_at(parts, name);
    push_undotted(out, pieces.part)?;
    push_undotted(out, pieces.dot)?;
    push_undotted(out, pieces.own)
}

fn push_numbered(out: &mut Vec<u8>, parts: &Parts, n: usize, name: NameId) -> Result<(), AllocError>
    requires { name.number < length parts.now.names }
    ensures { Wrote result out.old.items out.new.items (codes "td_" ∷ decimal n ∷ codes "_" ∷ name_of parts.now name ∷ []) }
{
    push(out, b"td_")?;
    push_decimal(out, n as u64)?;
    push(out, b"_")?;
    push_name_of(out, parts, name)
}

/// `td_3_T`
pub fn push_routine_name(out: &mut Vec<u8>, parts: &Parts, n: usize) -> Result<(), AllocError>
    requires code { IsCode parts.now }
    requires routine { n < length parts.now.routines }
    ensures { Wrote result out.old.items out.new.items (routine_name parts.now n ∷ []) }
{
    push_numbered(out, parts, n, routine_at(parts, n).name)
}

fn push_called(out: &mut Vec<u8>, parts: &Parts, n: usize) -> Result<(), AllocError>
    requires code { IsCode parts.now }
    requires routine { n < length parts.now.routines }
    ensures { Wrote result out.old.items out.new.items (slice_index_or (routine_names parts.now) n [] ∷ []) }
{
    push_routine_name(out, parts, n)
}

fn extend_registers(out: &mut Vec<u8>, first: u16, count: u16) -> Result<(), AllocError>
    ensures { OnOk result (out.new.items ≡ out.old.items ++ registers_text first count) }
{
    for k in 0..count {
        extend_register(out, first as u64 + k as u64)?;
    }
    Ok(())
}

// `, r5`
fn extend_register(out: &mut Vec<u8>, number: u64) -> Result<(), AllocError>
    ensures { OnOk result (out.new.items ≡ out.old.items ++ (codes ", r" ++ decimal number)) }
{
    extend(out, b", r")?;
    extend_decimal(out, number)
}

fn extend_cell(out: &mut Vec<u8>, number: u64) -> Result<(), AllocError>
    ensures { OnOk result (out.new.items ≡ out.old.items ++ cell_text number) }
{
    extend(out, b", c")?;
    extend_decimal(out, number)
}

fn extend_pair(out: &mut Vec<u8>, own: u16, number: u32) -> Result<(), AllocError>
    ensures { OnOk result (out.new.items ≡ out.old.items ++ pair_text own number) }
{
    let place = own as u64 + 2 * number as u64;
    extend_cell(out, place)?;
    extend_cell(out, place + 1)
}

fn extend_buffer(out: &mut Vec<u8>, number: u64) -> Result<(), AllocError>
    ensures { OnOk result (out.new.items ≡ out.old.items ++ buffer_text number) }
{
    extend(out, b", b")?;
    extend_decimal(out, number)
}

fn extend_cells(out: &mut Vec<u8>, cells: &[u32]) -> Result<(), AllocError>
    ensures { OnOk result (out.new.items ≡ out.old.items ++ flat_map cell_text cells.now) }
{
    for cell in cells {
        extend_cell(out, *cell as u64)?;
    }
    Ok(())
}

fn extend_pairs(out: &mut Vec<u8>, own: u16, buffers: &[u32]) -> Result<(), AllocError>
    ensures { OnOk result (out.new.items ≡ out.old.items ++ flat_map (pair_text own) buffers.now) }
{
    for buffer in buffers {
        extend_pair(out, own, *buffer)?;
    }
    Ok(())
}

fn extend_buffers(out: &mut Vec<u8>, buffers: &[u32]) -> Result<(), AllocError>
    ensures { OnOk result (out.new.items ≡ out.old.items ++ flat_map buffer_text buffers.now) }
{
    for buffer in buffers {
        extend_buffer(out, *buffer as u64)?;
    }
    Ok(())
}

fn push_registers(out: &mut Vec<u8>, first: u16, count: u16) -> Result<(), AllocError>
    ensures { Wrote result out.old.items out.new.items (registers_text first count ∷ []) }
{
    extend_registers(out, first, count)
}

fn push_cells(out: &mut Vec<u8>, cells: &[u32]) -> Result<(), AllocError>
    ensures { Wrote result out.old.items out.new.items (flat_map cell_text cells.now ∷ []) }
{
    extend_cells(out, cells)
}

fn push_pairs(out: &mut Vec<u8>, own: u16, buffers: &[u32]) -> Result<(), AllocError>
    ensures { Wrote result out.old.items out.new.items (flat_map (pair_text own) buffers.now ∷ []) }
{
    extend_pairs(out, own, buffers)
}

fn push_buffers(out: &mut Vec<u8>, buffers: &[u32]) -> Result<(), AllocError>
    ensures { Wrote result out.old.items out.new.items (flat_map buffer_text buffers.now ∷ []) }
{
    extend_buffers(out, buffers)
}

// Arguments, the callee's cells, its buffers' cells among the caller's, and its buffers.
fn push_given(
    out: &mut Vec<u8>,
    first: u16,
    count: u16,
    own: u16,
    cells: &[u32],
    buffers: &[u32],
) -> Result<(), AllocError>
    ensures { Wrote result out.old.items out.new.items (registers_text first count ∷ flat_map cell_text cells.now ∷ flat_map (pair_text own) buffers.now ∷ flat_map buffer_text buffers.now ∷ []) }
{
    push_registers(out, first, count)?;
    push_cells(out, cells)?;
    push_pairs(out, own, buffers)?;
    push_buffers(out, buffers)
}

fn push_arguments(
    out: &mut Vec<u8>,
    parts: &Parts,
    caller: usize,
    first: u16,
    routine: u32,
    map: u64,
) -> Result<(), AllocError>
    requires caller { caller < length parts.now.routines }
    requires routine { routine < length parts.now.routines }
    requires map { IsCellMap parts.now caller routine map }
    ensures { Wrote result out.old.items out.new.items (registers_text first (routine_of parts.now routine).params ∷ cells_text (cells_by parts.now caller routine map) ∷ buffers_text (drop (routine_of parts.now routine).cells (map_of parts.now map)) ∷ []) }
{
    let callee = routine_at(parts, routine as usize);
    let own = routine_at(parts, caller);
    let numbers = map_at(parts, map as usize);
    let (cells, buffers) = numbers.split_at(callee.cells as usize);
    push_given(out, first, callee.params, own.cells, cells, buffers)
}

// `return td_frame(run->outcome, "T", "x", start);`
fn push_frame(out: &mut Vec<u8>, depth: usize, parts: &Parts, site: u32) -> Result<(), AllocError>
    requires code { IsCode parts.now }
    requires site { site < length parts.now.sites }
    ensures { Wrote result out.old.items out.new.items (lined depth (codes "return td_frame(run->outcome, " ∷ site_pieces parts.now site) []) }
{
    push_begun(out, depth, b"return td_frame(run->outcome, ")?;
    push_site(out, parts, site)?;
    push(out, b"\n")
}

/// `pos = td_3_T(run, pos, end, r4, c0, b0); if (pos == TD_FAILED) { return td_frame(..); }`
pub fn push_call(
    out: &mut Vec<u8>,
    depth: usize,
    parts: &Parts,
    caller: usize,
    first: u16,
    routine: u32,
    map: u64,
    site: u32,
) -> Result<(), AllocError>
    requires code { IsCode parts.now }
    requires caller { caller < length parts.now.routines }
    requires routine { routine < length parts.now.routines }
    requires map { IsCellMap parts.now caller routine map }
    requires site { site < length parts.now.sites }
    requires depth { depth < 2 ^ 32 }
    ensures { (whole : syntax.Block) →
        Wrote result out.old.items out.new.items (pieces_of parts.now caller whole depth (i.Call first routine map site)) }
{
    push_begun(out, depth, b"pos = ")?;
    push_called(out, parts, routine as usize)?;
    push(out, b"(run, pos, end")?;
    push_arguments(out, parts, caller, first, routine, map)?;
    push(out, b");\n")?;
    push_line(out, depth, b"if (pos == TD_FAILED) {")?;
    push_frame(out, depth + 1, parts, site)?;
    push_close(out, depth)
}
