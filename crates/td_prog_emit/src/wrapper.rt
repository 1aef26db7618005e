//! The text of an entry point's declaration and of its function.

ghost use Rattle.std.specs.Prelude.{◌≡◌, ◌<◌, ◌≤◌, ◌+◌, ◌*◌, ◌^◌, [], ◌∷◌, ◌++◌, codes, decimal, length};
ghost use Rattle.td_core.specs.declared.module.NameId.{NameId};
ghost use Rattle.td_ir.specs.Tables.{routine_of};
ghost use Rattle.td_ir.specs.WellFormed.{IsCode, IsEntry};
ghost use Rattle.td_prog_emit.specs.Written.{IsSmall, Wrote};
ghost use Rattle.td_prog_text.specs.Entries as texts;
ghost use Rattle.td_prog_text.specs.Names.{routine_name};

use crate::distinct::{all_members, all_names};
use crate::given::push_entry_call;
use crate::parameters::push_entry_head;
use crate::pieces::{push, push_decimal_in};
use crate::places::{cell_at, push_buffer_name, push_cell_type, push_place};
use crate::structs::{push_copies, push_records};
use crate::tables::routine_at;
use std::alloc::{AllocError, Global};
use td_core::module::{Cell, Param};
use td_ir::tables::{EntryPoint, Parts};
use td_num::items::Items;

fn comma(k: usize) -> &'static [u8]
    ensures { result.now ≡ texts.comma k }
{
    if k == 0 { b"" } else { b", " }
}

// Before each but the first.
fn push_comma(out: &mut Vec<u8>, k: usize) -> Result<(), AllocError>
    ensures { Wrote result out.old.items out.new.items (texts.comma k ∷ []) }
{
    push(out, comma(k))
}

fn push_initial(
    out: &mut Vec<u8>,
    entry: &EntryPoint,
    names: &[Items<u8>],
    members: &[Items<u8>],
    k: usize,
    cell: Cell,
) -> Result<(), AllocError>
    requires small { IsSmall entry.now }
    requires there { k < length entry.now.cells }
    ensures { Wrote result out.old.items out.new.items (texts.initial entry.now names.now members.now k cell) }
{
    push_comma(out, k)?;
    push_place(out, entry, names, members, k, cell)
}

/// What cells hold at first.
pub fn push_initials(
    out: &mut Vec<u8>,
    entry: &EntryPoint,
    names: &[Items<u8>],
    members: &[Items<u8>],
) -> Result<(), AllocError>
    requires small { IsSmall entry.now }
    ensures { Wrote result out.old.items out.new.items (texts.lines (texts.indexed (texts.initial entry.now names.now members.now) 0 entry.now.cells)) }
{
    for k in 0..entry.cells.len() {
        push_initial(out, entry, names, members, k, cell_at(entry, k))?;
    }
    Ok(())
}

fn push_zero(
    out: &mut Vec<u8>,
    entry: &EntryPoint,
    names: &[Items<u8>],
    k: usize,
) -> Result<(), AllocError>
    requires small { IsSmall entry.now }
    requires there { k < 2 ^ 16 }
    ensures { (name : NameId) → Wrote result out.old.items out.new.items (texts.no_place entry.now names.now k name) }
{
    push_comma(out, entry.cells.len() + 2 * k)?;
    push(out, b"0, 0")
}

/// What the cells of buffers hold at first.
pub fn push_zeros(
    out: &mut Vec<u8>,
    entry: &EntryPoint,
    names: &[Items<u8>],
) -> Result<(), AllocError>
    requires small { IsSmall entry.now }
    ensures { Wrote result out.old.items out.new.items (texts.lines (texts.indexed (texts.no_place entry.now names.now) 0 entry.now.buffers)) }
{
    for k in 0..entry.buffers.len() {
        push_zero(out, entry, names, k)?;
    }
    Ok(())
}

// `name->count = 0;`
fn push_empty(
    out: &mut Vec<u8>,
    entry: &EntryPoint,
    names: &[Items<u8>],
    k: usize,
) -> Result<(), AllocError>
    requires small { IsSmall entry.now }
    requires there { k < 2 ^ 16 }
    ensures { (name : NameId) → Wrote result out.old.items out.new.items (texts.emptied entry.now names.now k name) }
{
    push(out, b"    ")?;
    push_buffer_name(out, entry, names, k)?;
    push(out, b"->count = 0;\n")
}

/// Buffers hold nothing at first.
pub fn push_empties(
    out: &mut Vec<u8>,
    entry: &EntryPoint,
    names: &[Items<u8>],
) -> Result<(), AllocError>
    requires small { IsSmall entry.now }
    ensures { Wrote result out.old.items out.new.items (texts.lines (texts.indexed (texts.emptied entry.now names.now) 0 entry.now.buffers)) }
{
    for k in 0..entry.buffers.len() {
        push_empty(out, entry, names, k)?;
    }
    Ok(())
}

// `*n = (uint16_t)td_cells[0];`
fn push_store(
    out: &mut Vec<u8>,
    entry: &EntryPoint,
    names: &[Items<u8>],
    members: &[Items<u8>],
    k: usize,
    cell: Cell,
) -> Result<(), AllocError>
    requires small { IsSmall entry.now }
    requires there { k < length entry.now.cells }
    ensures { Wrote result out.old.items out.new.items (texts.stored entry.now names.now members.now k cell) }
{
    push(out, b"    ")?;
    push_place(out, entry, names, members, k, cell)?;
    push(out, b" = (")?;
    push_cell_type(out, cell.kind)?;
    push_decimal_in(out, b")td_cells[", k as u64, b"];\n")
}

/// What cells hold at last.
pub fn push_stores(
    out: &mut Vec<u8>,
    entry: &EntryPoint,
    names: &[Items<u8>],
    members: &[Items<u8>],
) -> Result<(), AllocError>
    requires small { IsSmall entry.now }
    ensures { Wrote result out.old.items out.new.items (texts.lines (texts.indexed (texts.stored entry.now names.now members.now) 0 entry.now.cells)) }
{
    for k in 0..entry.cells.len() {
        push_store(out, entry, names, members, k, cell_at(entry, k))?;
    }
    Ok(())
}

// `name->count = (uint32_t)td_cells[2];`
fn push_count(
    out: &mut Vec<u8>,
    entry: &EntryPoint,
    names: &[Items<u8>],
    k: usize,
) -> Result<(), AllocError>
    requires small { IsSmall entry.now }
    requires there { k < 2 ^ 16 }
    ensures { (name : NameId) → Wrote result out.old.items out.new.items (texts.counted entry.now names.now k name) }
{
    push(out, b"    ")?;
    push_buffer_name(out, entry, names, k)?;
    push_decimal_in(
        out,
        b"->count = (uint32_t)td_cells[",
        (entry.cells.len() + 2 * k + 1) as u64,
        b"];\n",
    )
}

/// How many bytes each buffer holds at last.
pub fn push_counts(
    out: &mut Vec<u8>,
    entry: &EntryPoint,
    names: &[Items<u8>],
) -> Result<(), AllocError>
    requires small { IsSmall entry.now }
    ensures { Wrote result out.old.items out.new.items (texts.lines (texts.indexed (texts.counted entry.now names.now) 0 entry.now.buffers)) }
{
    for k in 0..entry.buffers.len() {
        push_count(out, entry, names, k)?;
    }
    Ok(())
}

// By the count of all.
fn push_cells_by(
    out: &mut Vec<u8>,
    entry: &EntryPoint,
    names: &[Items<u8>],
    members: &[Items<u8>],
    count: usize,
) -> Result<(), AllocError>
    requires small { IsSmall entry.now }
    ensures { Wrote result out.old.items out.new.items (codes "    uint64_t td_cells[" ∷ decimal count ∷ codes "] = {" ∷ (texts.lines (texts.indexed (texts.initial entry.now names.now members.now) 0 entry.now.cells) ++ (texts.lines (texts.indexed (texts.no_place entry.now names.now) 0 entry.now.buffers) ++ codes "};\n" ∷ []))) }
{
    push_decimal_in(out, b"    uint64_t td_cells[", count as u64, b"] = {")?;
    push_initials(out, entry, names, members)?;
    push_zeros(out, entry, names)?;
    push(out, b"};\n")
}

/// `uint64_t td_cells[3] = {*n, 0, 0};`
pub fn push_cells_line(
    out: &mut Vec<u8>,
    entry: &EntryPoint,
    names: &[Items<u8>],
    members: &[Items<u8>],
    count: usize,
) -> Result<(), AllocError>
    requires small { IsSmall entry.now }
    ensures { Wrote result out.old.items out.new.items (texts.cells_line entry.now names.now members.now count) }
{
    if count == 0 {
        Ok(())
    } else {
        push_cells_by(out, entry, names, members, count)
    }
}

fn push_body(
    out: &mut Vec<u8>,
    parts: &Parts,
    prefix: &[u8],
    entry: &EntryPoint,
    names: &[Items<u8>],
    members: &[Items<u8>],
    count: usize,
) -> Result<(), AllocError>
    requires code { IsCode parts.now }
    requires routine { entry.now.routine < length parts.now.routines }
    requires small { IsSmall entry.now }
    requires count { count ≡ texts.cell_count entry.now }
    ensures { Wrote result out.old.items out.new.items (texts.function_by parts.now prefix.now entry.now names.now members.now) }
{
    push_entry_head(out, parts, prefix, entry, names)?;
    push(
        out,
        b"\n{\n    struct td_run td_run = {words, 0, 0, outcome};\n",
    )?;
    push_cells_line(out, entry, names, members, count)?;
    push(out, b"    uint64_t td_position;\n\n")?;
    push_empties(out, entry, names)?;
    push_entry_call(out, parts, entry, names)?;
    push(
        out,
        b"    if (td_position == TD_FAILED) {\n        return false;\n    }\n",
    )?;
    push_stores(out, entry, names, members)?;
    push_counts(out, entry, names)?;
    push(
        out,
        b"    outcome->reason = TD_NO_REASON;\n    outcome->position = (uint32_t)td_position;\n    outcome->count = 0;\n    return true;\n}\n\n",
    )
}

fn push_declared(
    out: &mut Vec<u8>,
    parts: &Parts,
    prefix: &[u8],
    entry: &EntryPoint,
    names: &[Items<u8>],
    members: &[Items<u8>],
) -> Result<(), AllocError>
    requires code { IsCode parts.now }
    requires routine { entry.now.routine < length parts.now.routines }
    requires small { IsSmall entry.now }
    requires buffers { length (routine_of parts.now entry.now.routine).buffers < 2 ^ 16 }
    ensures { Wrote result out.old.items out.new.items (texts.declaration_by parts.now prefix.now entry.now names.now members.now) }
{
    push_records(out, parts, prefix, entry, names, members)?;
    push_copies(out, parts, prefix, entry, names)?;
    push(out, b"TD_LOOK_AT_ANSWER ")?;
    push_entry_head(out, parts, prefix, entry, names)?;
    push(out, b";\n\n")
}

/// An entry point's tables are as long as its routine says.
pub fn small(parts: &Parts, entry: &EntryPoint)
    requires code { IsCode parts.now }
    requires entry { IsEntry parts.now entry.now }
    ensures small { IsSmall entry.now }
    ensures buffers { length (routine_of parts.now entry.now.routine).buffers < 2 ^ 16 }
{
    let routine = routine_at(parts, entry.routine as usize);
    let _params = routine.params;
    let _cells = routine.cells;
}

/// The function of an entry point.
pub fn push_entry_function(
    alloc: Global,
    out: &mut Vec<u8>,
    parts: &Parts,
    prefix: &[u8],
    entry: &EntryPoint,
) -> Result<(), AllocError>
    requires code { IsCode parts.now }
    requires entry { IsEntry parts.now entry.now }
    ensures { Wrote result out.old.items out.new.items (texts.function parts.now prefix.now entry.now) }
{
    small(parts, entry);
    let names = all_names(alloc, parts, entry)?;
    let members = all_members(alloc, parts, entry)?;
    let count = entry.cells.len() + 2 * entry.buffers.len();
    push_body(out, parts, prefix, entry, &names, &members, count)
}

/// The structs of an entry point and the declaration of its function.
pub fn push_declaration(
    alloc: Global,
    out: &mut Vec<u8>,
    parts: &Parts,
    prefix: &[u8],
    entry: &EntryPoint,
) -> Result<(), AllocError>
    requires code { IsCode parts.now }
    requires entry { IsEntry parts.now entry.now }
    ensures { Wrote result out.old.items out.new.items (texts.declaration parts.now prefix.now entry.now) }
{
    small(parts, entry);
    let names = all_names(alloc, parts, entry)?;
    let members = all_members(alloc, parts, entry)?;
    push_declared(out, parts, prefix, entry, &names, &members)
}
