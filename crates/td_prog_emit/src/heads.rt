//! The text of a function's head and of its variables.

ghost use Rattle.std.specs.Prelude.{◌≡◌, ◌++◌, ◌<◌, ◌≤◌, ◌-◌, ◌^◌, OnOk, [], ◌∷◌, codes, decimal, flat_map, length, map};
ghost use Rattle.td_ir.specs.WellFormed.{IsCode};
ghost use Rattle.td_prog.specs.Syntax as syntax;
ghost use Rattle.td_prog.specs.Syntax.{registers};
ghost use Rattle.td_prog_emit.specs.Written.{Wrote, head_pieces, locals_pieces};
ghost use Rattle.td_prog_text.specs.Functions.{declaration, parameter, pointers};
ghost use Rattle.td_prog_text.specs.Statements.{listed};

use crate::calls::push_routine_name;
use crate::pieces::{extend, extend_decimal, push, push_decimal};
use std::alloc::AllocError;
use td_ir::tables::Parts;

// `, uint64_t r5`
fn extend_parameter(out: &mut Vec<u8>, number: u16) -> Result<(), AllocError>
    ensures { OnOk result (out.new.items ≡ out.old.items ++ (codes ", uint64_t r" ++ decimal number)) }
{
    extend(out, b", uint64_t r")?;
    extend_decimal(out, number as u64)
}

fn extend_parameters(out: &mut Vec<u8>, count: u16) -> Result<(), AllocError>
    ensures { OnOk result (out.new.items ≡ out.old.items ++ listed (map parameter (registers 0 count))) }
{
    for k in 0..count {
        extend_parameter(out, k)?;
    }
    Ok(())
}

fn push_parameters(out: &mut Vec<u8>, count: u16) -> Result<(), AllocError>
    ensures { Wrote result out.old.items out.new.items (listed (map parameter (registers 0 count)) ∷ []) }
{
    extend_parameters(out, count)
}

// `, uint64_t *c5`
#[tactic(auto, using(crate::proofs::Texts::texts))]
fn extend_pointer(out: &mut Vec<u8>, kind: &[u8], number: usize) -> Result<(), AllocError>
    ensures { OnOk result (out.new.items ≡ out.old.items ++ (codes ", " ++ (kind.now ++ decimal number))) }
{
    extend(out, b", ")?;
    extend(out, kind)?;
    extend_decimal(out, number as u64)
}

fn extend_pointers(out: &mut Vec<u8>, kind: &[u8], count: usize) -> Result<(), AllocError>
    ensures { OnOk result (out.new.items ≡ out.old.items ++ listed (pointers kind.now 0 count)) }
{
    for k in 0..count {
        extend_pointer(out, kind, k)?;
    }
    Ok(())
}

/// Parameters that are pointers, of one kind.
pub fn push_pointers(out: &mut Vec<u8>, kind: &[u8], count: usize) -> Result<(), AllocError>
    ensures { Wrote result out.old.items out.new.items (listed (pointers kind.now 0 count) ∷ []) }
{
    extend_pointers(out, kind, count)
}

// `uint64_t r5 = 0;`
fn extend_declaration(out: &mut Vec<u8>, number: u64) -> Result<(), AllocError>
    ensures { OnOk result (out.new.items ≡ out.old.items ++ (codes "    uint64_t r" ++ (decimal number ++ codes " = 0;\n"))) }
{
    push(out, b"    uint64_t r")?;
    push_decimal(out, number)?;
    push(out, b" = 0;\n")
}

fn extend_declarations(out: &mut Vec<u8>, first: u16, count: u16) -> Result<(), AllocError>
    ensures { OnOk result (out.new.items ≡ out.old.items ++ flat_map declaration (registers first count)) }
{
    for k in 0..count {
        extend_declaration(out, first as u64 + k as u64)?;
    }
    Ok(())
}

fn push_declarations(out: &mut Vec<u8>, first: u16, count: u16) -> Result<(), AllocError>
    ensures { Wrote result out.old.items out.new.items (flat_map declaration (registers first count) ∷ []) }
{
    extend_declarations(out, first, count)
}

/// The head of routine `n`, which has so many parameters, cells and buffers.
pub fn push_head(
    out: &mut Vec<u8>,
    parts: &Parts,
    n: usize,
    params: u16,
    cells: usize,
    buffers: usize,
) -> Result<(), AllocError>
    requires code { IsCode parts.now }
    requires routine { n < length parts.now.routines }
    ensures { Wrote result out.old.items out.new.items (head_pieces parts.now n params cells buffers) }
{
    push(out, b"TD_FUNCTION uint64_t ")?;
    push_routine_name(out, parts, n)?;
    push(out, b"(struct td_run *run, uint64_t pos, uint64_t end")?;
    push_parameters(out, params)?;
    push_pointers(out, b"uint64_t *c", cells)?;
    push_pointers(out, b"uint8_t *b", buffers)?;
    push(out, b")\n{\n")
}

/// The variables of a routine of so many registers, the first of which are its parameters.
pub fn push_locals(out: &mut Vec<u8>, params: u16, count: u16) -> Result<(), AllocError>
    requires { params ≤ count }
    ensures { Wrote result out.old.items out.new.items (locals_pieces params count) }
{
    push(
        out,
        b"    uint64_t start = 0;\n    uint64_t outer = 0;\n    uint64_t number = 0;\n    uint64_t most = 0;\n    uint64_t room = 0;\n",
    )?;
    push_declarations(out, params, count - params)
}
