//! The text of the structs of an entry point.

ghost use Rattle.std.specs.Prelude.{◌≡◌, ◌<◌, ◌^◌, [], ◌∷◌, codes, length, slice_index_or};
ghost use Rattle.td_ir.specs.Tables.{routine_of};
ghost use Rattle.td_ir.specs.WellFormed.{IsCode};
ghost use Rattle.td_prog_emit.specs.Written.{IsSmall, Wrote};
ghost use Rattle.td_prog_text.specs.Entries as texts;

use crate::calls::push_name_of;
use crate::pieces::{push, push_decimal_in};
use crate::places::{
    begins_record, cell_at, is_of, push_buffer_name, push_cell_name, push_cell_type, push_nth,
};
use crate::tables::{room_at, routine_at};
use std::alloc::AllocError;
use td_core::module::{Cell, NameId};
use td_ir::tables::{EntryPoint, Parts};
use td_num::items::Items;

/// The name of an entry point's routine.
pub fn push_title(out: &mut Vec<u8>, parts: &Parts, entry: &EntryPoint) -> Result<(), AllocError>
    requires code { IsCode parts.now }
    requires routine { entry.now.routine < length parts.now.routines }
    ensures { Wrote result out.old.items out.new.items (texts.title parts.now entry.now ∷ []) }
{
    push_name_of(out, parts, routine_at(parts, entry.routine as usize).name)
}

// `point_POINT_`
fn push_struct(
    out: &mut Vec<u8>,
    parts: &Parts,
    prefix: &[u8],
    entry: &EntryPoint,
) -> Result<(), AllocError>
    requires code { IsCode parts.now }
    requires routine { entry.now.routine < length parts.now.routines }
    ensures { Wrote result out.old.items out.new.items (codes "struct " ∷ prefix.now ∷ codes "_" ∷ texts.title parts.now entry.now ∷ codes "_" ∷ []) }
{
    push(out, b"struct ")?;
    push(out, prefix)?;
    push(out, b"_")?;
    push_title(out, parts, entry)?;
    push(out, b"_")
}

/// `struct point_POINT_out`, of a cell's record.
pub fn push_record_name(
    out: &mut Vec<u8>,
    parts: &Parts,
    prefix: &[u8],
    entry: &EntryPoint,
    names: &[Items<u8>],
    k: usize,
    cell: Cell,
) -> Result<(), AllocError>
    requires code { IsCode parts.now }
    requires routine { entry.now.routine < length parts.now.routines }
    requires small { IsSmall entry.now }
    requires there { k < length entry.now.cells }
    ensures { Wrote result out.old.items out.new.items (codes "struct " ∷ texts.struct_name parts.now prefix.now entry.now names.now (texts.cell_name entry.now names.now k cell)) }
{
    push_struct(out, parts, prefix, entry)?;
    push_cell_name(out, entry, names, k, cell)
}

/// `struct point_POINT_name`, of a buffer.
pub fn push_copy_name(
    out: &mut Vec<u8>,
    parts: &Parts,
    prefix: &[u8],
    entry: &EntryPoint,
    names: &[Items<u8>],
    k: usize,
) -> Result<(), AllocError>
    requires code { IsCode parts.now }
    requires routine { entry.now.routine < length parts.now.routines }
    requires small { IsSmall entry.now }
    requires there { k < 2 ^ 16 }
    ensures { Wrote result out.old.items out.new.items (codes "struct " ∷ texts.struct_name parts.now prefix.now entry.now names.now (texts.buffer_name entry.now names.now k)) }
{
    push_struct(out, parts, prefix, entry)?;
    push_buffer_name(out, entry, names, k)
}

// `uint32_t x;`
fn push_member_line(
    out: &mut Vec<u8>,
    members: &[Items<u8>],
    k: usize,
    cell: Cell,
) -> Result<(), AllocError>
    ensures { Wrote result out.old.items out.new.items (codes "    " ∷ texts.cell_type cell.kind ∷ codes " " ∷ slice_index_or members.now k [] ∷ codes ";\n" ∷ []) }
{
    push(out, b"    ")?;
    push_cell_type(out, cell.kind)?;
    push(out, b" ")?;
    push_nth(out, members, k)?;
    push(out, b";\n")
}

fn push_member(
    out: &mut Vec<u8>,
    entry: &EntryPoint,
    names: &[Items<u8>],
    members: &[Items<u8>],
    name: NameId,
    k: usize,
    cell: Cell,
) -> Result<(), AllocError>
    ensures { Wrote result out.old.items out.new.items (texts.member entry.now names.now members.now name k cell) }
{
    let of = is_of(cell, name);
    if of {
        push_member_line(out, members, k, cell)
    } else {
        Ok(())
    }
}

fn push_members(
    out: &mut Vec<u8>,
    entry: &EntryPoint,
    names: &[Items<u8>],
    members: &[Items<u8>],
    name: NameId,
) -> Result<(), AllocError>
    ensures { Wrote result out.old.items out.new.items (texts.lines (texts.indexed (texts.member entry.now names.now members.now name) 0 entry.now.cells)) }
{
    for k in 0..entry.cells.len() {
        push_member(out, entry, names, members, name, k, cell_at(entry, k))?;
    }
    Ok(())
}

fn push_record_struct(
    out: &mut Vec<u8>,
    parts: &Parts,
    prefix: &[u8],
    entry: &EntryPoint,
    names: &[Items<u8>],
    members: &[Items<u8>],
    k: usize,
    cell: Cell,
) -> Result<(), AllocError>
    requires code { IsCode parts.now }
    requires routine { entry.now.routine < length parts.now.routines }
    requires small { IsSmall entry.now }
    requires there { k < length entry.now.cells }
    ensures { Wrote result out.old.items out.new.items (texts.record_struct parts.now prefix.now entry.now names.now members.now k cell) }
{
    push_record_name(out, parts, prefix, entry, names, k, cell)?;
    push(out, b" {\n")?;
    push_members(out, entry, names, members, cell.name)?;
    push(out, b"};\n\n")
}

// Where a record has its first cell.
fn push_record_at(
    out: &mut Vec<u8>,
    parts: &Parts,
    prefix: &[u8],
    entry: &EntryPoint,
    names: &[Items<u8>],
    members: &[Items<u8>],
    k: usize,
    cell: Cell,
) -> Result<(), AllocError>
    requires code { IsCode parts.now }
    requires routine { entry.now.routine < length parts.now.routines }
    requires small { IsSmall entry.now }
    requires there { k < length entry.now.cells }
    ensures { Wrote result out.old.items out.new.items (texts.record_structs parts.now prefix.now entry.now names.now members.now k cell) }
{
    let begins = begins_record(entry, k, cell);
    if begins {
        push_record_struct(out, parts, prefix, entry, names, members, k, cell)
    } else {
        Ok(())
    }
}

/// The struct of each record.
pub fn push_records(
    out: &mut Vec<u8>,
    parts: &Parts,
    prefix: &[u8],
    entry: &EntryPoint,
    names: &[Items<u8>],
    members: &[Items<u8>],
) -> Result<(), AllocError>
    requires code { IsCode parts.now }
    requires routine { entry.now.routine < length parts.now.routines }
    requires small { IsSmall entry.now }
    ensures { Wrote result out.old.items out.new.items (texts.lines (texts.indexed (texts.record_structs parts.now prefix.now entry.now names.now members.now) 0 entry.now.cells)) }
{
    for k in 0..entry.cells.len() {
        push_record_at(
            out,
            parts,
            prefix,
            entry,
            names,
            members,
            k,
            cell_at(entry, k),
        )?;
    }
    Ok(())
}

fn push_copy_struct(
    out: &mut Vec<u8>,
    parts: &Parts,
    prefix: &[u8],
    entry: &EntryPoint,
    names: &[Items<u8>],
    k: usize,
    room: u32,
) -> Result<(), AllocError>
    requires code { IsCode parts.now }
    requires routine { entry.now.routine < length parts.now.routines }
    requires small { IsSmall entry.now }
    requires there { k < 2 ^ 16 }
    ensures { Wrote result out.old.items out.new.items (texts.buffer_struct parts.now prefix.now entry.now names.now k room) }
{
    push_copy_name(out, parts, prefix, entry, names, k)?;
    push_decimal_in(
        out,
        b" {\n    uint32_t count; /* so many of the bytes are the copy */\n    uint8_t bytes[",
        room as u64,
        b"];\n};\n\n",
    )
}

/// The struct of each buffer.
pub fn push_copies(
    out: &mut Vec<u8>,
    parts: &Parts,
    prefix: &[u8],
    entry: &EntryPoint,
    names: &[Items<u8>],
) -> Result<(), AllocError>
    requires code { IsCode parts.now }
    requires routine { entry.now.routine < length parts.now.routines }
    requires small { IsSmall entry.now }
    requires buffers { length (routine_of parts.now entry.now.routine).buffers < 2 ^ 16 }
    ensures { Wrote result out.old.items out.new.items (texts.lines (texts.indexed (texts.buffer_struct parts.now prefix.now entry.now names.now) 0 (routine_of parts.now entry.now.routine).buffers)) }
{
    let routine = entry.routine as usize;
    for k in 0..routine_at(parts, routine).buffers.len() {
        push_copy_struct(
            out,
            parts,
            prefix,
            entry,
            names,
            k,
            room_at(parts, routine, k),
        )?;
    }
    Ok(())
}
