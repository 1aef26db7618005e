//! The text of the parameters of an entry point's function.

ghost use Rattle.std.specs.Prelude.{◌≡◌, ◌<◌, ◌≤◌, ◌+◌, ◌*◌, ◌^◌, [], ◌∷◌, ◌++◌, cond, codes, decimal, length};
ghost use Rattle.td_core.specs.declared.module.NameId.{NameId};
ghost use Rattle.td_ir.specs.Tables.{routine_of};
ghost use Rattle.td_ir.specs.WellFormed.{IsCode};
ghost use Rattle.td_prog_emit.specs.Written.{IsSmall, Wrote};
ghost use Rattle.td_prog_text.specs.Entries as texts;
ghost use Rattle.td_prog_text.specs.Names.{routine_name};

use crate::pieces::push;
use crate::places::{
    begins_record, cell_at, param_at, push_buffer_name, push_cell_name, push_cell_type, push_nth,
    push_type,
};
use crate::structs::{push_copy_name, push_record_name, push_title};
use std::alloc::AllocError;
use td_core::module::{Cell, Param};
use td_ir::tables::{EntryPoint, Parts};
use td_num::items::Items;

// `, uint16_t *n`
fn push_cell_pointer(
    out: &mut Vec<u8>,
    entry: &EntryPoint,
    names: &[Items<u8>],
    k: usize,
    cell: Cell,
) -> Result<(), AllocError>
    requires small { IsSmall entry.now }
    requires there { k < length entry.now.cells }
    ensures { Wrote result out.old.items out.new.items (codes ", " ∷ texts.cell_type cell.kind ∷ codes " *" ∷ texts.cell_name entry.now names.now k cell ∷ []) }
{
    push(out, b", ")?;
    push_cell_type(out, cell.kind)?;
    push(out, b" *")?;
    push_cell_name(out, entry, names, k, cell)
}

// `, struct point_POINT_out *out`
fn push_struct_pointer(
    out: &mut Vec<u8>,
    parts: &Parts,
    prefix: &[u8],
    entry: &EntryPoint,
    names: &[Items<u8>],
    k: usize,
    cell: Cell,
) -> Result<(), AllocError>
    requires code { IsCode parts.now }
    requires routine { entry.now.routine < length parts.now.routines }
    requires small { IsSmall entry.now }
    requires there { k < length entry.now.cells }
    ensures { Wrote result out.old.items out.new.items (codes ", struct " ∷ (texts.struct_name parts.now prefix.now entry.now names.now (texts.cell_name entry.now names.now k cell) ++ codes " *" ∷ texts.cell_name entry.now names.now k cell ∷ [])) }
{
    push(out, b", ")?;
    push_record_name(out, parts, prefix, entry, names, k, cell)?;
    push(out, b" *")?;
    push_cell_name(out, entry, names, k, cell)
}

// Where a record has its first cell.
fn push_record_pointer(
    out: &mut Vec<u8>,
    parts: &Parts,
    prefix: &[u8],
    entry: &EntryPoint,
    names: &[Items<u8>],
    k: usize,
    cell: Cell,
) -> Result<(), AllocError>
    requires code { IsCode parts.now }
    requires routine { entry.now.routine < length parts.now.routines }
    requires small { IsSmall entry.now }
    requires there { k < length entry.now.cells }
    ensures { Wrote result out.old.items out.new.items (cond (texts.begins_record entry.now k cell) (codes ", struct " ∷ (texts.struct_name parts.now prefix.now entry.now names.now (texts.cell_name entry.now names.now k cell) ++ codes " *" ∷ texts.cell_name entry.now names.now k cell ∷ [])) []) }
{
    let begins = begins_record(entry, k, cell);
    if begins {
        push_struct_pointer(out, parts, prefix, entry, names, k, cell)
    } else {
        Ok(())
    }
}

// `, uint8_t kind`
fn push_param(
    out: &mut Vec<u8>,
    entry: &EntryPoint,
    names: &[Items<u8>],
    k: usize,
    param: Param,
) -> Result<(), AllocError>
    requires small { IsSmall entry.now }
    ensures { Wrote result out.old.items out.new.items (texts.value_parameter entry.now names.now k param) }
{
    push(out, b", ")?;
    push_type(out, param.width)?;
    push(out, b" ")?;
    push_nth(out, names, k)
}

/// The value parameters.
pub fn push_params(
    out: &mut Vec<u8>,
    entry: &EntryPoint,
    names: &[Items<u8>],
) -> Result<(), AllocError>
    requires small { IsSmall entry.now }
    ensures { Wrote result out.old.items out.new.items (texts.lines (texts.indexed (texts.value_parameter entry.now names.now) 0 entry.now.params)) }
{
    for k in 0..entry.params.len() {
        push_param(out, entry, names, k, param_at(entry, k))?;
    }
    Ok(())
}

fn push_pointer(
    out: &mut Vec<u8>,
    parts: &Parts,
    prefix: &[u8],
    entry: &EntryPoint,
    names: &[Items<u8>],
    k: usize,
    cell: Cell,
) -> Result<(), AllocError>
    requires code { IsCode parts.now }
    requires routine { entry.now.routine < length parts.now.routines }
    requires small { IsSmall entry.now }
    requires there { k < length entry.now.cells }
    ensures { Wrote result out.old.items out.new.items (texts.pointer parts.now prefix.now entry.now names.now k cell) }
{
    match cell.field {
        Some(_) => push_record_pointer(out, parts, prefix, entry, names, k, cell),
        None => push_cell_pointer(out, entry, names, k, cell),
    }
}

/// The cells, as pointers.
pub fn push_pointers(
    out: &mut Vec<u8>,
    parts: &Parts,
    prefix: &[u8],
    entry: &EntryPoint,
    names: &[Items<u8>],
) -> Result<(), AllocError>
    requires code { IsCode parts.now }
    requires routine { entry.now.routine < length parts.now.routines }
    requires small { IsSmall entry.now }
    ensures { Wrote result out.old.items out.new.items (texts.lines (texts.indexed (texts.pointer parts.now prefix.now entry.now names.now) 0 entry.now.cells)) }
{
    for k in 0..entry.cells.len() {
        push_pointer(out, parts, prefix, entry, names, k, cell_at(entry, k))?;
    }
    Ok(())
}

// `, struct point_POINT_name *name`
fn push_copy_pointer(
    out: &mut Vec<u8>,
    parts: &Parts,
    prefix: &[u8],
    entry: &EntryPoint,
    names: &[Items<u8>],
    k: usize,
) -> Result<(), AllocError>
    requires code { IsCode parts.now }
    requires routine { entry.now.routine < length parts.now.routines }
    requires small { IsSmall entry.now }
    requires there { k < 2 ^ 16 }
    ensures { (name : NameId) → Wrote result out.old.items out.new.items (texts.buffer_parameter parts.now prefix.now entry.now names.now k name) }
{
    push(out, b", ")?;
    push_copy_name(out, parts, prefix, entry, names, k)?;
    push(out, b" *")?;
    push_buffer_name(out, entry, names, k)
}

/// The buffers.
pub fn push_copy_pointers(
    out: &mut Vec<u8>,
    parts: &Parts,
    prefix: &[u8],
    entry: &EntryPoint,
    names: &[Items<u8>],
) -> Result<(), AllocError>
    requires code { IsCode parts.now }
    requires routine { entry.now.routine < length parts.now.routines }
    requires small { IsSmall entry.now }
    ensures { Wrote result out.old.items out.new.items (texts.lines (texts.indexed (texts.buffer_parameter parts.now prefix.now entry.now names.now) 0 entry.now.buffers)) }
{
    for k in 0..entry.buffers.len() {
        push_copy_pointer(out, parts, prefix, entry, names, k)?;
    }
    Ok(())
}

/// `bool point_validate_POINT(const uint64_t *words, uint32_t length, .., struct td_outcome *outcome)`
pub fn push_entry_head(
    out: &mut Vec<u8>,
    parts: &Parts,
    prefix: &[u8],
    entry: &EntryPoint,
    names: &[Items<u8>],
) -> Result<(), AllocError>
    requires code { IsCode parts.now }
    requires routine { entry.now.routine < length parts.now.routines }
    requires small { IsSmall entry.now }
    ensures { Wrote result out.old.items out.new.items (texts.head parts.now prefix.now entry.now names.now) }
{
    push(out, b"bool ")?;
    push(out, prefix)?;
    push(out, b"_validate_")?;
    push_title(out, parts, entry)?;
    push(out, b"(const uint64_t *words, uint32_t length")?;
    push_params(out, entry, names)?;
    push_pointers(out, parts, prefix, entry, names)?;
    push_copy_pointers(out, parts, prefix, entry, names)?;
    push(out, b", struct td_outcome *outcome)")
}
