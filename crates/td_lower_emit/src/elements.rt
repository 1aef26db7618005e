//! Writes the code of what stands in windows.
#![tactic(auto, using(crate::proofs::Writing::laid_then, crate::proofs::Writing::laid_stop, crate::proofs::Values::some_top))]

ghost use Rattle.std.specs.Prelude.{◌<◌, ◌^◌, ◌+◌, suc, cond, OnOk};
ghost use Rattle.td_num.specs.Numbers.{bytes_in};
ghost use Rattle.td_ir.specs.declared.instructions.Instr.TheVariants as i;
ghost use Rattle.td_lower_blocks.specs.Block.{Done, Then, Loop};
ghost use Rattle.td_lower_blocks.specs.Constructs.{listed, Uneven};
ghost use Rattle.td_lower_blocks.specs.Lowered.{order_code, evenly, exactly, each_inner, one_inner};
ghost use Rattle.td_lower_emit.specs.Emission.{Writes, WritesInner, FinishesInner};

use crate::expressions::land;
use crate::fields::write_listed;
use crate::writer::Writer;
use std::alloc::AllocError;
use td_core::module::Element;
use td_ir::constants::{EQ, LIST_SIZE};
use td_ir::instructions::Instr;
use td_num::number::NumberType;

/// Writes that elements of constant size fill as many bytes as register `u` says. `AllocError`: there was no memory for it.
pub fn write_evenly(
    code: &mut Writer,
    t: u16,
    step: Option<u64>,
    u: u16,
    site: u32,
) -> Result<(), AllocError>
    ensures { OnOk result (WritesInner code.old code.new (evenly t step u site)) }
{
    match step {
        None => Ok(()),
        Some(step) => {
            if step == 0 {
                return Ok(());
            }
            code.write(Instr::Divides {
                size: u,
                step,
                site,
            })?;
            Ok(())
        }
    }
}

/// Writes that an element of constant size takes as many bytes as register `u` says. `AllocError`: there was no memory for it.
pub fn write_exactly(
    code: &mut Writer,
    t: u16,
    step: Option<u64>,
    u: u16,
    site: u32,
) -> Result<(), AllocError>
    requires { u + 1 < 2 ^ 16 }
    ensures { OnOk result (WritesInner code.old code.new (exactly t step u site)) }
{
    match step {
        None => Ok(()),
        Some(step) => {
            code.write(Instr::Const {
                into: u + 1,
                value: step,
            })?;
            code.write(Instr::Op {
                into: u + 1,
                operator: EQ,
                left: u,
                right: u + 1,
            })?;
            let place = code.place();
            code.write(Instr::Mark)?;
            code.write(Instr::Fail {
                reason: LIST_SIZE,
                site,
            })?;
            land(code, place, true, u + 1);
            Ok(())
        }
    }
}

// Writes a loop over a call, whose arguments stand from register `t + 1` on.
fn write_calls(code: &mut Writer, t: u16, routine: u32, site: u32) -> Result<(), AllocError>
    requires { t + 1 < 2 ^ 16 }
    ensures { OnOk result (Writes code.old code.new (Loop (Then (i.Call (suc t) routine site site) Done))) }
{
    let place = code.place();
    code.write(Instr::Mark)?;
    code.write(Instr::Call {
        first: t + 1,
        routine,
        map: site as u64,
        site,
    })?;
    code.write(Instr::Again { target: place })?;
    let end = code.place();
    code.set(place, Instr::While { target: end });
    Ok(())
}

// Writes a loop over numbers of an enum.
fn write_each_listed(
    code: &mut Writer,
    t: u16,
    base: NumberType,
    set: u32,
    site: u32,
    u: u16,
) -> Result<(), AllocError>
    ensures { OnOk result (Writes code.old code.new (Loop (listed t (order_code base.order) (bytes_in base.width) set site u Done))) }
{
    let place = code.place();
    code.write(Instr::Mark)?;
    write_listed(code, t, base, set, site, u)?;
    code.write(Instr::Again { target: place })?;
    let end = code.place();
    code.set(place, Instr::While { target: end });
    Ok(())
}

/// Writes elements up to the end of a window; register `u` is used. `AllocError`: there was no memory for it.
pub fn write_each(
    code: &mut Writer,
    t: u16,
    u: u16,
    site: u32,
    element: &Element,
) -> Result<(), AllocError>
    requires { t + 1 < 2 ^ 16 }
    ensures { OnOk result (FinishesInner code.old code.new (each_inner t element.now u site)) }
{
    match element {
        Element::Number(_) => {
            code.write(Instr::Rest)?;
            Ok(())
        }
        Element::Listed { base, values } => {
            write_each_listed(code, t, *base, *values, site, u)?;
            Ok(())
        }
        Element::Named { definition, .. } => {
            write_calls(code, t, *definition, site)?;
            Ok(())
        }
        Element::Unit | Element::Rest | Element::Zeros => {
            code.write(Instr::Fail {
                reason: LIST_SIZE,
                site,
            })?;
            Ok(())
        }
    }
}

/// Writes one element of a window; register `u` is used. `AllocError`: there was no memory for it.
pub(crate) fn write_one(
    code: &mut Writer,
    t: u16,
    u: u16,
    site: u32,
    element: &Element,
) -> Result<(), AllocError>
    requires { t + 1 < 2 ^ 16 }
    ensures { OnOk result (FinishesInner code.old code.new (one_inner t element.now u site)) }
{
    match element {
        Element::Number(_) | Element::Rest => {
            code.write(Instr::Rest)?;
            Ok(())
        }
        Element::Listed { base, values } => {
            write_listed(code, t, *base, *values, site, u)?;
            Ok(())
        }
        Element::Named { definition, .. } => {
            code.write(Instr::Call {
                first: t + 1,
                routine: *definition,
                map: site as u64,
                site,
            })?;
            Ok(())
        }
        Element::Unit => Ok(()),
        Element::Zeros => {
            code.write(Instr::Zeros { site })?;
            Ok(())
        }
    }
}

/// Writes elements up to the end of a window of constant size, where they fit it. `AllocError`: there was no memory for it.
pub(crate) fn write_each_if(
    code: &mut Writer,
    t: u16,
    u: u16,
    site: u32,
    fit: bool,
    element: &Element,
) -> Result<(), AllocError>
    requires { t + 1 < 2 ^ 16 }
    ensures { OnOk result (FinishesInner code.old code.new (cond fit (each_inner t element.now u site) (Uneven site))) }
{
    if fit {
        write_each(code, t, u, site, element)?;
        return Ok(());
    }
    code.write(Instr::Fail {
        reason: LIST_SIZE,
        site,
    })?;
    Ok(())
}

/// Writes one element of a window of constant size, where it fits it. `AllocError`: there was no memory for it.
pub(crate) fn write_one_if(
    code: &mut Writer,
    t: u16,
    u: u16,
    site: u32,
    fit: bool,
    element: &Element,
) -> Result<(), AllocError>
    requires { t + 1 < 2 ^ 16 }
    ensures { OnOk result (FinishesInner code.old code.new (cond fit (one_inner t element.now u site) (Uneven site))) }
{
    if fit {
        write_one(code, t, u, site, element)?;
        return Ok(());
    }
    code.write(Instr::Fail {
        reason: LIST_SIZE,
        site,
    })?;
    Ok(())
}
