//! The text of a routine.

ghost use Rattle.std.specs.Prelude.{◌≡◌, ℕ, ◌+◌, ◌*◌, ◌-◌, ◌<◌, ◌≤◌, [], ◌∷◌, false, length, slice_index_or, slice_range};
ghost use Rattle.td_ir.specs.Tables.{end_of, first_of, routine_of};
ghost use Rattle.td_ir.specs.WellFormed.{IsCode};
ghost use Rattle.td_prog_code.specs.Program.{body};
ghost use Rattle.td_prog_emit.specs.Written.{Wrote, function_at, routine_pieces};
ghost use Rattle.td_prog_text.specs.Statements.{goes};
ghost use Rattle.td_verify.specs.Safe.{IsSafe};
ghost use Rattle.td_verify.specs.Verify.{IsSound};

use crate::blocks::push_blocks;
use crate::heads::{push_head, push_locals};
use crate::labels::labels;
use crate::pieces::push;
use crate::tables::routine_at;
use std::alloc::{AllocError, Global};
use td_ir::instructions::Instr;
use td_ir::tables::Parts;

// By the marks of its labels, its counts, and where its instructions stand.
fn push_function(
    out: &mut Vec<u8>,
    parts: &Parts,
    n: usize,
    marks: &[bool],
    first: usize,
    end: usize,
    params: u16,
    count: u16,
    cells: usize,
    buffers: usize,
) -> Result<(), AllocError>
    requires code { IsCode parts.now }
    requires sound { IsSound parts.now }
    requires safe { IsSafe parts.now }
    requires routine { n < length parts.now.routines }
    requires first { first ≡ first_of parts.now n }
    requires end { end ≡ end_of parts.now n }
    requires whole { end ≤ length parts.now.instructions }
    requires length { length marks.now ≡ end - first }
    requires marks { (k : ℕ) → k < length marks.now → slice_index_or marks.now k false ≡ goes (first + k) (body parts.now n) }
    requires room { params ≤ count }
    ensures { Wrote result out.old.items out.new.items (function_at parts.now n params count cells buffers first end) }
{
    push_head(out, parts, n, params, cells, buffers)?;
    push_locals(out, params, count)?;
    push(out, b"    start = pos;\n    outer = end;\n")?;
    push_blocks(out, parts, n, marks, first, end)?;
    push(out, b"}\n\n")
}

/// Routine `n`, with its instructions, and from where up to where they stand.
pub fn push_routine(
    alloc: Global,
    out: &mut Vec<u8>,
    parts: &Parts,
    n: usize,
    own: &[Instr],
    first: usize,
    end: usize,
) -> Result<(), AllocError>
    requires code { IsCode parts.now }
    requires sound { IsSound parts.now }
    requires safe { IsSafe parts.now }
    requires routine { n < length parts.now.routines }
    requires first { first ≡ first_of parts.now n }
    requires end { end ≡ end_of parts.now n }
    requires own { own.now ≡ slice_range parts.now.instructions (first_of parts.now n) (end_of parts.now n) }
    requires count { length own.now ≡ end - first }
    requires whole { end ≤ length parts.now.instructions }
    ensures { Wrote result out.old.items out.new.items (routine_pieces parts.now n) }
{
    let routine = routine_at(parts, n);
    let marks = labels(alloc, own, first)?;
    let buffers = routine.buffers.len();
    push_function(
        out,
        parts,
        n,
        &marks,
        first,
        end,
        routine.params,
        routine.registers,
        routine.cells as usize + 2 * buffers,
        buffers,
    )
}
