//! The text of all functions of a program.

ghost use Rattle.std.specs.Prelude.{◌≡◌, IfOk, flat_map, length};
ghost use Rattle.td_ir.specs.WellFormed.{IsCode};
ghost use Rattle.td_prog_code.specs.Program as programs;
ghost use Rattle.td_prog_code.specs.Program.{program};
ghost use Rattle.td_prog_emit.specs.Written.{Wrote, helper_names, routine_names};
ghost use Rattle.td_prog_text.specs.Expressions.{text};
ghost use Rattle.td_prog_text.specs.Functions as texts;
ghost use Rattle.td_prog_text.specs.Names.{routine_name};
ghost use Rattle.td_verify.specs.Safe.{IsSafe};
ghost use Rattle.td_verify.specs.Verify.{IsSound};

use crate::prelude::push_prelude;
use crate::routine::push_routine;
use crate::tables::routine_at;
use std::alloc::{AllocError, Global};
use td_ir::tables::Parts;
use td_verify::Verified;
use td_verify::laws::sound_code_is_safe;

/// A function for each routine.
pub fn push_routines(alloc: Global, out: &mut Vec<u8>, parts: &Parts) -> Result<(), AllocError>
    requires code { IsCode parts.now }
    requires sound { IsSound parts.now }
    requires safe { IsSafe parts.now }
    ensures { Wrote result out.old.items out.new.items (flat_map (texts.routine parts.now.names helper_names (routine_names parts.now)) (programs.functions parts.now (routine_name parts.now) 0 (length parts.now.routines))) }
{
    let all = parts.instructions.as_slice();
    let mut rest = all;
    for n in 0..parts.routines.len() {
        let (own, more) = rest.split_at(routine_at(parts, n).length as usize);
        push_routine(
            alloc,
            out,
            parts,
            n,
            own,
            all.len() - rest.len(),
            all.len() - more.len(),
        )?;
        rest = more;
    }
    Ok(())
}

/// The helpers, and a function for each routine.
pub fn push_functions(alloc: Global, out: &mut Vec<u8>, parts: &Parts) -> Result<(), AllocError>
    requires code { IsCode parts.now }
    requires sound { IsSound parts.now }
    requires safe { IsSafe parts.now }
    ensures { Wrote result out.old.items out.new.items (texts.functions parts.now.names (program parts.now (routine_name parts.now))) }
{
    push_prelude(out)?;
    push_routines(alloc, out, parts)
}

/// The parts of verified code, with what the verifier promises of them.
pub fn parts_of(code: &Verified) -> &Parts
    ensures same { result.now ≡ code.now }
    ensures code { IsCode result.now }
    ensures sound { IsSound result.now }
    ensures safe { IsSafe result.now }
{
    sound_code_is_safe();
    code.code().parts()
}

/// The text of the functions of a code's program, which stand in the file of C between its fixed text and the functions
/// of entry points. Beside the text it takes a byte for each instruction of one routine. `AllocError`: there was
/// no memory.
pub fn c_functions(alloc: Global, code: &Verified) -> Result<Vec<u8>, AllocError>
    ensures { IfOk result (λ written. written.items ≡ text (texts.functions code.now.names (program code.now (routine_name code.now)))) }
{
    let mut out = Vec::new(alloc);
    push_functions(alloc, &mut out, parts_of(code))?;
    Ok(out)
}
