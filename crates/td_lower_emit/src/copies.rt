//! Writes the code of bytes that are copied.
#![tactic(auto, using(crate::proofs::Writing::laid_then, crate::proofs::Writing::laid_stop, crate::proofs::Values::some_top))]

ghost use Rattle.std.specs.Prelude.{◌≤◌, ◌<◌, ◌^◌, ◌+◌, suc, IfOk};
ghost use Rattle.td_lower_blocks.specs.Constructs.{CopyAll};
ghost use Rattle.td_lower_blocks.specs.Lowered.{constant_step, copied_step};
ghost use Rattle.td_lower_blocks.specs.Tops.{term_top};
ghost use Rattle.td_expr.specs.Same.{constant_of};
ghost use Rattle.td_lower_emit.specs.Emission.{GoesOn};

use crate::expressions::write_value;
use crate::writer::Writer;
use std::alloc::AllocError;
use td_core::expressions::CoreExpr;
use td_core::module::CopyOut;
use td_expr::constant::constant_of;
use td_ir::constants::NOT_ENOUGH;
use td_ir::instructions::Instr;

// Writes a copy of a constant number of bytes; false where no message has so many, so that nothing behind it is reached.
fn write_copied_constant(
    code: &mut Writer,
    t: u16,
    site: u32,
    size: u64,
    buffer: u16,
) -> Result<bool, AllocError>
    requires { t + 1 < 2 ^ 16 }
    ensures { IfOk result (λ on. GoesOn on code.old code.new (constant_step t size site (CopyAll (suc t) buffer size site))) }
{
    if size >= 1 << 32 {
        code.write(Instr::Fail {
            reason: NOT_ENOUGH,
            site,
        })?;
        return Ok(false);
    }
    code.write(Instr::NarrowK { bytes: size, site })?;
    code.write(Instr::Const {
        into: t + 1,
        value: size,
    })?;
    code.write(Instr::Copy {
        size: t + 1,
        buffer,
        site,
    })?;
    code.write(Instr::Widen { site })?;
    Ok(true)
}

/// Writes the copy of so many bytes into a buffer, with registers above `t`. False: nothing behind it is reached.
/// `AllocError`: there was no memory for it.
pub(crate) fn write_copied(
    code: &mut Writer,
    t: u16,
    site: u32,
    size: &CoreExpr,
    copy: CopyOut,
) -> Result<bool, AllocError>
    requires registers { term_top (suc t) size.now ≤ 2 ^ 16 }
    requires buffer { copy.buffer < 2 ^ 16 }
    ensures { IfOk result (λ on. GoesOn on code.old code.new (copied_step t (constant_of size.now) copy size.now site)) }
{
    match constant_of(size) {
        None => {
            write_value(code, t + 1, size)?;
            code.write(Instr::Copy {
                size: t + 1,
                buffer: copy.buffer as u16,
                site,
            })?;
            Ok(true)
        }
        Some(n) => write_copied_constant(code, t, site, n, copy.buffer as u16),
    }
}
