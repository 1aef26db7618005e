//! The text of an entry point's declaration and of its function for messages in pieces.

ghost use Rattle.std.specs.Prelude.{◌≡◌, ℕ, List, ◌<◌, [], ◌∷◌, ◌++◌, codes, length};
ghost use Rattle.td_ir.specs.WellFormed.{IsCode, IsEntry};
ghost use Rattle.td_prog_emit.specs.Written.{IsSmall, Wrote};
ghost use Rattle.td_prog_text.specs.Entries as entries;
ghost use Rattle.td_prog_text.specs.PartsEntries as texts;

use crate::calls::push_routine_name;
use crate::distinct::{all_members, all_names};
use crate::given::{push_given_buffers, push_given_cells, push_given_pairs, push_given_params};
use crate::parameters::{push_copy_pointers, push_params, push_pointers};
use crate::pieces::push;
use crate::structs::push_title;
use crate::wrapper::{push_cells_line, push_counts, push_empties, push_stores, small};
use std::alloc::{AllocError, Global};
use td_ir::tables::{EntryPoint, Parts};
use td_num::items::Items;

// `bool point_validate_POINT_parts(const struct td_piece *td_pieces, uint32_t td_count, .., struct td_outcome *outcome)`
fn push_parts_head(
    out: &mut Vec<u8>,
    parts: &Parts,
    prefix: &[u8],
    entry: &EntryPoint,
    names: &[Items<u8>],
) -> Result<(), AllocError>
    requires code { IsCode parts.now }
    requires routine { entry.now.routine < length parts.now.routines }
    requires small { IsSmall entry.now }
    ensures { Wrote result out.old.items out.new.items (texts.parts_head parts.now prefix.now entry.now names.now) }
{
    push(out, b"bool ")?;
    push(out, prefix)?;
    push(out, b"_validate_")?;
    push_title(out, parts, entry)?;
    push(
        out,
        b"_parts(const struct td_piece *td_pieces, uint32_t td_count",
    )?;
    push_params(out, entry, names)?;
    push_pointers(out, parts, prefix, entry, names)?;
    push_copy_pointers(out, parts, prefix, entry, names)?;
    push(out, b", struct td_outcome *outcome)")
}

// `td_position = td_3_POINT(&td_run, 0, td_length, ..);`
fn push_parts_call(
    out: &mut Vec<u8>,
    parts: &Parts,
    entry: &EntryPoint,
    names: &[Items<u8>],
) -> Result<(), AllocError>
    requires code { IsCode parts.now }
    requires routine { entry.now.routine < length parts.now.routines }
    requires small { IsSmall entry.now }
    ensures { (prefix : List ℕ) → Wrote result out.old.items out.new.items (texts.parts_call parts.now prefix entry.now names.now) }
{
    push(out, b"    td_position = ")?;
    push_routine_name(out, parts, entry.routine as usize)?;
    push(out, b"(&td_run, 0, td_length")?;
    push_given_params(out, entry, names)?;
    push_given_cells(out, entry, names)?;
    push_given_pairs(out, entry, names)?;
    push_given_buffers(out, entry, names)?;
    push(out, b");\n")
}

fn push_parts_body(
    out: &mut Vec<u8>,
    parts: &Parts,
    prefix: &[u8],
    entry: &EntryPoint,
    names: &[Items<u8>],
    members: &[Items<u8>],
    count: usize,
) -> Result<(), AllocError>
    requires code { IsCode parts.now }
    requires routine { entry.now.routine < length parts.now.routines }
    requires small { IsSmall entry.now }
    requires count { count ≡ entries.cell_count entry.now }
    ensures { Wrote result out.old.items out.new.items (texts.parts_function_by parts.now prefix.now entry.now names.now members.now) }
{
    push_parts_head(out, parts, prefix, entry, names)?;
    push(
        out,
        b"\n{\n    struct td_run td_run = {td_pieces, 0, 0, outcome};\n",
    )?;
    push_cells_line(out, entry, names, members, count)?;
    push(
        out,
        b"    uint64_t td_length = td_length_in(td_pieces, td_count);\n    uint64_t td_position;\n\n",
    )?;
    push_empties(out, entry, names)?;
    push(
        out,
        b"    if (td_length >> 32) {\n        outcome->reason = TD_NO_REASON;\n        outcome->position = 0;\n        outcome->count = 0;\n        return false;\n    }\n",
    )?;
    push_parts_call(out, parts, entry, names)?;
    push(
        out,
        b"    if (td_position == TD_FAILED) {\n        return false;\n    }\n",
    )?;
    push_stores(out, entry, names, members)?;
    push_counts(out, entry, names)?;
    push(
        out,
        b"    outcome->reason = TD_NO_REASON;\n    outcome->position = (uint32_t)td_position;\n    outcome->count = 0;\n    return true;\n}\n\n",
    )
}

fn push_parts_declared(
    out: &mut Vec<u8>,
    parts: &Parts,
    prefix: &[u8],
    entry: &EntryPoint,
    names: &[Items<u8>],
) -> Result<(), AllocError>
    requires code { IsCode parts.now }
    requires routine { entry.now.routine < length parts.now.routines }
    requires small { IsSmall entry.now }
    ensures { Wrote result out.old.items out.new.items (codes "TD_LOOK_AT_ANSWER " ∷ (texts.parts_head parts.now prefix.now entry.now names.now ++ codes ";\n\n" ∷ [])) }
{
    push(out, b"TD_LOOK_AT_ANSWER ")?;
    push_parts_head(out, parts, prefix, entry, names)?;
    push(out, b";\n\n")
}

/// The function of an entry point.
pub fn push_parts_function(
    alloc: Global,
    out: &mut Vec<u8>,
    parts: &Parts,
    prefix: &[u8],
    entry: &EntryPoint,
) -> Result<(), AllocError>
    requires code { IsCode parts.now }
    requires entry { IsEntry parts.now entry.now }
    ensures { Wrote result out.old.items out.new.items (texts.parts_function parts.now prefix.now entry.now) }
{
    small(parts, entry);
    let names = all_names(alloc, parts, entry)?;
    let members = all_members(alloc, parts, entry)?;
    let count = entry.cells.len() + 2 * entry.buffers.len();
    push_parts_body(out, parts, prefix, entry, &names, &members, count)
}

/// The declaration of an entry point's function.
pub fn push_parts_declaration(
    alloc: Global,
    out: &mut Vec<u8>,
    parts: &Parts,
    prefix: &[u8],
    entry: &EntryPoint,
) -> Result<(), AllocError>
    requires code { IsCode parts.now }
    requires entry { IsEntry parts.now entry.now }
    ensures { Wrote result out.old.items out.new.items (texts.parts_declaration parts.now prefix.now entry.now) }
{
    small(parts, entry);
    let names = all_names(alloc, parts, entry)?;
    push_parts_declared(out, parts, prefix, entry, &names)
}
