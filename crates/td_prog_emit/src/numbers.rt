//! Numbers in code are those of their types.

ghost use Rattle.std.specs.Prelude.{◌<◌, ◌^◌, length};
ghost use Rattle.td_ir.specs.Tables.{routine_of, set_of};
ghost use Rattle.td_num.specs.Lists.{Each};
ghost use Rattle.td_prog_code.specs.Sentence.{HasNumber, HasNumbers};
ghost use Rattle.td_ir.specs.declared.tables.Routine.{Routine};

use crate::blocks::instruction_at;
use crate::sets::set_at;
use crate::tables::routine_at;
use td_ir::instructions::Instr;
use td_ir::tables::Parts;
use td_verify::Verified;

fn wide(numbers: &[u64])
    ensures { Each (λ v. v < 2 ^ 64) numbers.now }
{
    let _count = numbers.len();
}

fn narrow(numbers: &[u32])
    ensures { Each (λ v. v < 2 ^ 32) numbers.now }
{
    let _count = numbers.len();
}

fn set_is_wide(parts: &Parts, set: u32)
    ensures { Each (λ v. v < 2 ^ 64) (set_of parts.now set) }
{
    if (set as usize) < parts.sets.len() {
        wide(set_at(parts, set))
    }
}

fn has_number(parts: &Parts, instr: Instr)
    ensures { HasNumber parts.now instr }
{
    match instr {
        Instr::Const { value, .. } => {
            let _held = value;
        }
        Instr::Divides { step, .. } => {
            let _held = step;
        }
        Instr::Member { set, .. } => set_is_wide(parts, set),
        _ => {}
    }
}

fn instructions_have_numbers(parts: &Parts)
    ensures { Each (HasNumber parts.now) parts.now.instructions }
{
    for k in 0..parts.instructions.len() {
        has_number(parts, instruction_at(parts, k));
    }
}

fn rooms_are_narrow(parts: &Parts, n: usize)
    requires { n < length parts.now.routines }
    ensures { Each (λ v. v < 2 ^ 32) (routine_of parts.now n).buffers }
{
    let routine = routine_at(parts, n);
    narrow(routine.buffers.as_slice())
}

fn routines_have_numbers(parts: &Parts)
    ensures { Each (λ (r : Routine). Each (λ v. v < 2 ^ 32) r.buffers) parts.now.routines }
{
    for n in 0..parts.routines.len() {
        rooms_are_narrow(parts, n);
    }
}

/// Says of a code what the laws on its program ask beside the verifier's promises: its numbers are those of their types.
/// It looks at each instruction once, and changes nothing.
pub fn has_numbers(code: &Verified)
    ensures { HasNumbers code.now }
{
    let parts = code.code().parts();
    instructions_have_numbers(parts);
    routines_have_numbers(parts);
}
