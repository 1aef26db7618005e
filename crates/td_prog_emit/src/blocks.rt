//! The text of a routine's instructions, with labels and loops.

ghost use Rattle.std.specs.Prelude.{◌≡◌, ℕ, ◌+◌, ◌<◌, ◌≤◌, ◌-◌, [], ◌∷◌, true, false, length, slice_index_or, slice_range};
ghost use Rattle.td_ir.specs.Tables.{end_of, first_of, instruction_of};
ghost use Rattle.td_ir.specs.WellFormed.{IsCode};
ghost use Rattle.td_prog.specs.Syntax as syntax;
ghost use Rattle.td_prog_code.specs.Program.{blocks, first_block};
ghost use Rattle.td_prog_emit.specs.Labels.{after, bound, depth_in, place_pieces};
ghost use Rattle.td_prog_emit.specs.Written.{Wrote, helper_names, routine_names};
ghost use Rattle.td_prog_text.specs.Statements.{goes, label_text, statements};
ghost use Rattle.td_verify.specs.Safe.{IsSafe};
ghost use Rattle.td_verify.specs.Shape.{shape};
ghost use Rattle.td_verify.specs.Verify.{IsIn, IsSound};

use crate::instruction::push_instruction;
use crate::pieces::{push_close, push_decimal_in, push_line};
use std::alloc::AllocError;
use td_ir::instructions::Instr;
use td_ir::tables::Parts;
use td_verify::shape::{Shape, shape_of};

/// An instruction by its place.
pub fn instruction_at(parts: &Parts, pc: usize) -> Instr
    requires { pc < length parts.now.instructions }
    ensures { result ≡ instruction_of parts.now pc }
{
    parts.instructions.as_slice()[pc]
}

// `l7:;`
fn push_marked(out: &mut Vec<u8>, pc: usize) -> Result<(), AllocError>
    ensures { Wrote result out.old.items out.new.items (label_text true pc ∷ []) }
{
    push_decimal_in(out, b"l", pc as u64, b":;\n")
}

fn push_label(out: &mut Vec<u8>, is: bool, pc: usize) -> Result<(), AllocError>
    ensures { Wrote result out.old.items out.new.items (label_text is pc ∷ []) }
{
    if is { push_marked(out, pc) } else { Ok(()) }
}

// How a loop begins and ends.
fn push_bound(out: &mut Vec<u8>, shape_here: Shape) -> Result<(), AllocError>
    ensures { Wrote result out.old.items out.new.items (bound shape_here) }
{
    match shape_here {
        Shape::While(_) => push_line(out, 1, b"while (pos != end) {"),
        Shape::Again(_) => push_close(out, 1),
        Shape::Straight { .. }
        | Shape::Jump(_)
        | Shape::Branch(_)
        | Shape::Call(_)
        | Shape::Return
        | Shape::Fail
        | Shape::Open { .. }
        | Shape::Close => Ok(()),
    }
}

fn looped_after(shape_here: Shape, looped: bool) -> bool
    ensures { result ≡ after shape_here looped }
{
    match shape_here {
        Shape::While(_) => true,
        Shape::Again(_) => false,
        Shape::Straight { .. }
        | Shape::Jump(_)
        | Shape::Branch(_)
        | Shape::Call(_)
        | Shape::Return
        | Shape::Fail
        | Shape::Open { .. }
        | Shape::Close => looped,
    }
}

fn depth_of(looped: bool) -> usize
    ensures { result ≡ depth_in looped }
{
    if looped { 2 } else { 1 }
}

// An instruction, in a loop or in none, with its label.
fn push_place(
    out: &mut Vec<u8>,
    parts: &Parts,
    n: usize,
    pc: usize,
    is: bool,
    looped: bool,
) -> Result<(), AllocError>
    requires code { IsCode parts.now }
    requires safe { IsSafe parts.now }
    requires place { IsIn parts.now n pc }
    requires there { pc < length parts.now.instructions }
    ensures { (whole : syntax.Block) →
        Wrote result out.old.items out.new.items (place_pieces parts.now n whole pc is looped) }
{
    let instruction = instruction_at(parts, pc);
    push_label(out, is, pc)?;
    push_instruction(out, depth_of(looped), parts, n, instruction)?;
    push_bound(out, shape_of(instruction))
}

/// The instructions of routine `n`, from one place up to another.
pub fn push_blocks(
    out: &mut Vec<u8>,
    parts: &Parts,
    n: usize,
    marks: &[bool],
    first: usize,
    end: usize,
) -> Result<(), AllocError>
    requires code { IsCode parts.now }
    requires sound { IsSound parts.now }
    requires safe { IsSafe parts.now }
    requires routine { n < length parts.now.routines }
    requires first { first ≡ first_of parts.now n }
    requires end { end ≡ end_of parts.now n }
    requires whole { end ≤ length parts.now.instructions }
    requires count { length marks.now ≡ end - first }
    ensures { (whole : syntax.Block) → ((k : ℕ) → k < length marks.now → slice_index_or marks.now k false ≡ goes (first + k) whole) →
        Wrote result out.old.items out.new.items (statements parts.now.names helper_names (routine_names parts.now) whole 1 (first_block parts.now n (blocks parts.now n first (slice_range parts.now.instructions first end)))) }
{
    let mut looped = false;
    for pc in first..end {
        push_place(out, parts, n, pc, marks[pc - first], looped)?;
        looped = looped_after(shape_of(instruction_at(parts, pc)), looped);
    }
    Ok(())
}
