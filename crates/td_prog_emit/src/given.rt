//! The text of the call of a routine in an entry point's function.

ghost use Rattle.std.specs.Prelude.{◌≡◌, ℕ, List, ◌<◌, ◌≤◌, ◌+◌, ◌*◌, ◌^◌, [], ◌∷◌, ◌++◌, codes, decimal, length};
ghost use Rattle.td_core.specs.declared.module.NameId.{NameId};
ghost use Rattle.td_ir.specs.Tables.{routine_of};
ghost use Rattle.td_ir.specs.WellFormed.{IsCode};
ghost use Rattle.td_prog_emit.specs.Written.{IsSmall, Wrote};
ghost use Rattle.td_prog_text.specs.Entries as texts;
ghost use Rattle.td_prog_text.specs.Names.{routine_name};

use crate::calls::push_routine_name;
use crate::pieces::{push, push_decimal_in};
use crate::places::{cell_at, param_at, push_buffer_name, push_nth};
use std::alloc::AllocError;
use td_core::module::{Cell, Param};
use td_ir::tables::{EntryPoint, Parts};
use td_num::items::Items;

// `, kind`
fn push_given_param(
    out: &mut Vec<u8>,
    entry: &EntryPoint,
    names: &[Items<u8>],
    k: usize,
    param: Param,
) -> Result<(), AllocError>
    requires small { IsSmall entry.now }
    ensures { Wrote result out.old.items out.new.items (texts.argument entry.now names.now k param) }
{
    push(out, b", ")?;
    push_nth(out, names, k)
}

/// The value parameters, as arguments.
pub fn push_given_params(
    out: &mut Vec<u8>,
    entry: &EntryPoint,
    names: &[Items<u8>],
) -> Result<(), AllocError>
    requires small { IsSmall entry.now }
    ensures { Wrote result out.old.items out.new.items (texts.lines (texts.indexed (texts.argument entry.now names.now) 0 entry.now.params)) }
{
    for k in 0..entry.params.len() {
        push_given_param(out, entry, names, k, param_at(entry, k))?;
    }
    Ok(())
}

// `, &td_cells[0]`
fn push_given_cell(
    out: &mut Vec<u8>,
    entry: &EntryPoint,
    names: &[Items<u8>],
    k: usize,
    cell: Cell,
) -> Result<(), AllocError>
    requires small { IsSmall entry.now }
    ensures { Wrote result out.old.items out.new.items (texts.cell_argument entry.now names.now k cell) }
{
    push_decimal_in(out, b", &td_cells[", k as u64, b"]")
}

/// The cells, as arguments.
pub fn push_given_cells(
    out: &mut Vec<u8>,
    entry: &EntryPoint,
    names: &[Items<u8>],
) -> Result<(), AllocError>
    requires small { IsSmall entry.now }
    ensures { Wrote result out.old.items out.new.items (texts.lines (texts.indexed (texts.cell_argument entry.now names.now) 0 entry.now.cells)) }
{
    for k in 0..entry.cells.len() {
        push_given_cell(out, entry, names, k, cell_at(entry, k))?;
    }
    Ok(())
}

// `, &td_cells[1], &td_cells[2]`
fn push_given_pair(
    out: &mut Vec<u8>,
    entry: &EntryPoint,
    names: &[Items<u8>],
    k: usize,
) -> Result<(), AllocError>
    requires small { IsSmall entry.now }
    requires there { k < 2 ^ 16 }
    ensures { (name : NameId) → Wrote result out.old.items out.new.items (texts.pair_argument entry.now names.now k name) }
{
    let first = entry.cells.len() + 2 * k;
    push_decimal_in(out, b", &td_cells[", first as u64, b"]")?;
    push_decimal_in(out, b", &td_cells[", first as u64 + 1, b"]")
}

/// The two cells of each buffer, as arguments.
pub fn push_given_pairs(
    out: &mut Vec<u8>,
    entry: &EntryPoint,
    names: &[Items<u8>],
) -> Result<(), AllocError>
    requires small { IsSmall entry.now }
    ensures { Wrote result out.old.items out.new.items (texts.lines (texts.indexed (texts.pair_argument entry.now names.now) 0 entry.now.buffers)) }
{
    for k in 0..entry.buffers.len() {
        push_given_pair(out, entry, names, k)?;
    }
    Ok(())
}

// `, name->bytes`
fn push_given_buffer(
    out: &mut Vec<u8>,
    entry: &EntryPoint,
    names: &[Items<u8>],
    k: usize,
) -> Result<(), AllocError>
    requires small { IsSmall entry.now }
    requires there { k < 2 ^ 16 }
    ensures { (name : NameId) → Wrote result out.old.items out.new.items (texts.buffer_argument entry.now names.now k name) }
{
    push(out, b", ")?;
    push_buffer_name(out, entry, names, k)?;
    push(out, b"->bytes")
}

/// The bytes of each buffer, as arguments.
pub fn push_given_buffers(
    out: &mut Vec<u8>,
    entry: &EntryPoint,
    names: &[Items<u8>],
) -> Result<(), AllocError>
    requires small { IsSmall entry.now }
    ensures { Wrote result out.old.items out.new.items (texts.lines (texts.indexed (texts.buffer_argument entry.now names.now) 0 entry.now.buffers)) }
{
    for k in 0..entry.buffers.len() {
        push_given_buffer(out, entry, names, k)?;
    }
    Ok(())
}

/// `td_position = td_3_POINT(&td_run, 0, length, ..);`
pub fn push_entry_call(
    out: &mut Vec<u8>,
    parts: &Parts,
    entry: &EntryPoint,
    names: &[Items<u8>],
) -> Result<(), AllocError>
    requires code { IsCode parts.now }
    requires routine { entry.now.routine < length parts.now.routines }
    requires small { IsSmall entry.now }
    ensures { (prefix : List ℕ) → Wrote result out.old.items out.new.items (texts.call parts.now prefix entry.now names.now) }
{
    push(out, b"    td_position = ")?;
    push_routine_name(out, parts, entry.routine as usize)?;
    push(out, b"(&td_run, 0, length")?;
    push_given_params(out, entry, names)?;
    push_given_cells(out, entry, names)?;
    push_given_pairs(out, entry, names)?;
    push_given_buffers(out, entry, names)?;
    push(out, b");\n")
}
