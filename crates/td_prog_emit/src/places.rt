//! Which of an entry point's names a cell has, and the places of cells.

ghost use Rattle.std.specs.Prelude.{◌≡◌, ℕ, ◌+◌, ◌*◌, ◌≤◌, ◌<◌, ◌^◌, [], ◌∷◌, codes, decimal, length, slice_index_or};
ghost use Rattle.td_ir.specs.Tables.{buffer_of, cell_of, param_of};
ghost use Rattle.td_prog_emit.specs.Written.{IsSmall, Wrote};
ghost use Rattle.td_prog_text.specs.Entries as texts;

use crate::pieces::{push, push_decimal};
use std::alloc::AllocError;
use td_core::module::{Cell, CellKind, NameId, Param};
use td_ir::tables::EntryPoint;
use td_num::items::Items;
use td_num::number::Width;

/// A value parameter by its number.
pub fn param_at(entry: &EntryPoint, k: usize) -> Param
    requires { k < length entry.now.params }
    ensures { result ≡ param_of entry.now.params k }
{
    entry.params.as_slice()[k]
}

/// A cell by its number.
pub fn cell_at(entry: &EntryPoint, k: usize) -> Cell
    requires { k < length entry.now.cells }
    ensures { result ≡ cell_of entry.now.cells k }
{
    entry.cells.as_slice()[k]
}

/// The name of a buffer by its number.
pub fn buffer_at(entry: &EntryPoint, k: usize) -> NameId
    requires { k < length entry.now.buffers }
    ensures { result ≡ buffer_of entry.now.buffers k }
{
    entry.buffers.as_slice()[k]
}

fn name_of(names: &[Items<u8>], k: usize) -> &[u8]
    ensures { result.now ≡ slice_index_or names.now k [] }
{
    if k < names.len() {
        names[k].as_slice()
    } else {
        b""
    }
}

/// A name by its number.
pub fn push_nth(out: &mut Vec<u8>, names: &[Items<u8>], k: usize) -> Result<(), AllocError>
    ensures { Wrote result out.old.items out.new.items (slice_index_or names.now k [] ∷ []) }
{
    push(out, name_of(names, k))
}

fn type_of(width: Width) -> &'static [u8]
    ensures { result.now ≡ texts.type_of width }
{
    match width {
        Width::One => b"uint8_t",
        Width::Two => b"uint16_t",
        Width::Four => b"uint32_t",
        Width::Eight => b"uint64_t",
    }
}

fn cell_type(kind: CellKind) -> &'static [u8]
    ensures { result.now ≡ texts.cell_type kind }
{
    match kind {
        CellKind::Number(width) => type_of(width),
        CellKind::Pointer => b"uint32_t",
    }
}

/// The type of a parameter.
pub fn push_type(out: &mut Vec<u8>, width: Width) -> Result<(), AllocError>
    ensures { Wrote result out.old.items out.new.items (texts.type_of width ∷ []) }
{
    push(out, type_of(width))
}

/// The type of a cell.
pub fn push_cell_type(out: &mut Vec<u8>, kind: CellKind) -> Result<(), AllocError>
    ensures { Wrote result out.old.items out.new.items (texts.cell_type kind ∷ []) }
{
    push(out, cell_type(kind))
}

fn is_record(cell: Cell) -> bool
    ensures { result ≡ texts.is_record cell.field }
{
    match cell.field {
        Some(_) => true,
        None => false,
    }
}

/// Whether a cell is of the record of this name.
pub fn is_of(cell: Cell, name: NameId) -> bool
    ensures { result ≡ texts.is_of name cell }
{
    cell.name.number == name.number && is_record(cell)
}

// The first cell of the record of this name; where there is none, the count of all.
fn first_of(entry: &EntryPoint, name: NameId) -> usize
    ensures first { result ≡ texts.first_of name entry.now.cells }
    ensures within { result ≤ length entry.now.cells }
{
    for k in 0..entry.cells.len() {
        let of = is_of(cell_at(entry, k), name);
        if of {
            return k;
        }
    }
    entry.cells.len()
}

fn cell_number(entry: &EntryPoint, k: usize, cell: Cell) -> usize
    requires small { IsSmall entry.now }
    requires there { k < length entry.now.cells }
    ensures { result ≡ texts.cell_number entry.now k cell }
{
    match cell.field {
        Some(_) => entry.params.len() + first_of(entry, cell.name),
        None => entry.params.len() + k,
    }
}

fn buffer_number(entry: &EntryPoint, k: usize) -> usize
    requires small { IsSmall entry.now }
    requires there { k < 2 ^ 16 }
    ensures { result ≡ texts.buffer_number entry.now k }
{
    entry.params.len() + entry.cells.len() + k
}

/// Whether a cell is its record's first.
pub fn begins_record(entry: &EntryPoint, k: usize, cell: Cell) -> bool
    ensures { result ≡ texts.begins_record entry.now k cell }
{
    is_record(cell) && k == first_of(entry, cell.name)
}

/// The name of a cell.
pub fn push_cell_name(
    out: &mut Vec<u8>,
    entry: &EntryPoint,
    names: &[Items<u8>],
    k: usize,
    cell: Cell,
) -> Result<(), AllocError>
    requires small { IsSmall entry.now }
    requires there { k < length entry.now.cells }
    ensures { Wrote result out.old.items out.new.items (texts.cell_name entry.now names.now k cell ∷ []) }
{
    push_nth(out, names, cell_number(entry, k, cell))
}

/// The name of a buffer.
pub fn push_buffer_name(
    out: &mut Vec<u8>,
    entry: &EntryPoint,
    names: &[Items<u8>],
    k: usize,
) -> Result<(), AllocError>
    requires small { IsSmall entry.now }
    requires there { k < 2 ^ 16 }
    ensures { Wrote result out.old.items out.new.items (texts.buffer_name entry.now names.now k ∷ []) }
{
    push_nth(out, names, buffer_number(entry, k))
}

// `*n`
fn push_pointed(
    out: &mut Vec<u8>,
    entry: &EntryPoint,
    names: &[Items<u8>],
    k: usize,
    cell: Cell,
) -> Result<(), AllocError>
    requires small { IsSmall entry.now }
    requires there { k < length entry.now.cells }
    ensures { Wrote result out.old.items out.new.items (codes "*" ∷ texts.cell_name entry.now names.now k cell ∷ []) }
{
    push(out, b"*")?;
    push_cell_name(out, entry, names, k, cell)
}

// `out->x`
fn push_member_place(
    out: &mut Vec<u8>,
    entry: &EntryPoint,
    names: &[Items<u8>],
    members: &[Items<u8>],
    k: usize,
    cell: Cell,
) -> Result<(), AllocError>
    requires small { IsSmall entry.now }
    requires there { k < length entry.now.cells }
    ensures { Wrote result out.old.items out.new.items (texts.cell_name entry.now names.now k cell ∷ codes "->" ∷ slice_index_or members.now k [] ∷ []) }
{
    push_cell_name(out, entry, names, k, cell)?;
    push(out, b"->")?;
    push_nth(out, members, k)
}

/// The place of a cell.
pub fn push_place(
    out: &mut Vec<u8>,
    entry: &EntryPoint,
    names: &[Items<u8>],
    members: &[Items<u8>],
    k: usize,
    cell: Cell,
) -> Result<(), AllocError>
    requires small { IsSmall entry.now }
    requires there { k < length entry.now.cells }
    ensures { Wrote result out.old.items out.new.items (texts.place entry.now names.now members.now k cell) }
{
    match cell.field {
        Some(_) => push_member_place(out, entry, names, members, k, cell),
        None => push_pointed(out, entry, names, k, cell),
    }
}
