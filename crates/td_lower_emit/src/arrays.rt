//! Writes the code of arrays and of single elements.
#![tactic(auto, using(crate::proofs::Writing::laid_then, crate::proofs::Writing::laid_stop, crate::proofs::Values::some_top))]

ghost use Rattle.std.specs.Prelude.{◌≡◌, ◌≤◌, ◌<◌, ◌^◌, ◌+◌, suc, cond, max, OnOk, IfOk, length};
ghost use Rattle.td_meaning.specs.Meaning.{divides, equals};
ghost use Rattle.td_lower_blocks.specs.Constructs.{Uneven, BySize, Arguments};
ghost use Rattle.td_lower_blocks.specs.Lowered.{expr_of, terms_of, arguments, constant_step, evenly, exactly, each_inner, one_inner, filling_step, once_filling_step, up_to_zero_step, source_step, shape_step, content_step};
ghost use Rattle.td_expr.specs.Same.{constant_of};
ghost use Rattle.td_lower_blocks.specs.Tops.{term_top, terms_top, sized_top, source_top, shape_top, content_top, source_cells, extent_cells, copy_cells};
ghost use Rattle.td_lower_emit.specs.Emission.{Writes, WritesSteps, GoesOn};

use crate::copies::write_copied;
use crate::elements::{
    write_each, write_each_if, write_evenly, write_exactly, write_one, write_one_if,
};
use crate::expressions::write_value;
use crate::fields::{terms_of, write_once, write_values};
use crate::writer::Writer;
use std::alloc::AllocError;
use td_core::expressions::CoreExpr;
use td_core::module::{Element, Extent, Field, Source};
use td_expr::constant::constant_of;
use td_ir::constants::{NOT_ENOUGH, OR};
use td_ir::instructions::Instr;
use td_meaning::arrays::{divides, equals};
use td_num::number::byte_count;

// Writes an array of constant size; false where no message has so many bytes, so that nothing behind it is reached.
fn write_filling_constant(
    code: &mut Writer,
    t: u16,
    u: u16,
    site: u32,
    size: u64,
    step: Option<u64>,
    element: &Element,
) -> Result<bool, AllocError>
    requires { t + 1 < 2 ^ 16 }
    ensures { IfOk result (λ on. GoesOn on code.old code.new
        (constant_step t size site (cond (divides step size) (each_inner t element.now u site) (Uneven site)))) }
{
    if size >= 1 << 32 {
        code.write(Instr::Fail {
            reason: NOT_ENOUGH,
            site,
        })?;
        return Ok(false);
    }
    code.write(Instr::NarrowK { bytes: size, site })?;
    write_each_if(code, t, u, site, divides(step, size), element)?;
    code.write(Instr::Widen { site })?;
    Ok(true)
}

// Writes a single element of constant size; false where no message has so many bytes.
fn write_once_filling_constant(
    code: &mut Writer,
    t: u16,
    u: u16,
    site: u32,
    size: u64,
    step: Option<u64>,
    element: &Element,
) -> Result<bool, AllocError>
    requires { t + 1 < 2 ^ 16 }
    ensures { IfOk result (λ on. GoesOn on code.old code.new
        (constant_step t size site (cond (equals step size) (one_inner t element.now u site) (Uneven site)))) }
{
    if size >= 1 << 32 {
        code.write(Instr::Fail {
            reason: NOT_ENOUGH,
            site,
        })?;
        return Ok(false);
    }
    code.write(Instr::NarrowK { bytes: size, site })?;
    write_one_if(code, t, u, site, equals(step, size), element)?;
    code.write(Instr::Widen { site })?;
    Ok(true)
}

// Writes an array whose size is an expression's value.
fn write_filling_value(
    code: &mut Writer,
    t: u16,
    u: u16,
    site: u32,
    size: &CoreExpr,
    step: Option<u64>,
    element: &Element,
) -> Result<(), AllocError>
    requires room { t + 1 < 2 ^ 16 }
    requires more { u + 2 < 2 ^ 16 }
    requires size { term_top u size.now ≤ 2 ^ 16 }
    ensures { OnOk result (WritesSteps code.old code.new
        (BySize u site (expr_of size.now) (evenly t step u site (each_inner t element.now (suc u) site)))) }
{
    write_value(code, u, size)?;
    code.write(Instr::Narrow { size: u, site })?;
    write_evenly(code, t, step, u, site)?;
    write_each(code, t, u + 1, site, element)?;
    code.write(Instr::Widen { site })?;
    Ok(())
}

// Writes a single element whose size is an expression's value.
fn write_once_filling_value(
    code: &mut Writer,
    t: u16,
    u: u16,
    site: u32,
    size: &CoreExpr,
    step: Option<u64>,
    element: &Element,
) -> Result<(), AllocError>
    requires room { t + 1 < 2 ^ 16 }
    requires more { u + 2 < 2 ^ 16 }
    requires size { term_top u size.now ≤ 2 ^ 16 }
    ensures { OnOk result (WritesSteps code.old code.new
        (BySize u site (expr_of size.now) (exactly t step u site (one_inner t element.now (suc u) site)))) }
{
    write_value(code, u, size)?;
    code.write(Instr::Narrow { size: u, site })?;
    write_exactly(code, t, step, u, site)?;
    write_one(code, t, u + 1, site, element)?;
    code.write(Instr::Widen { site })?;
    Ok(())
}

// Writes the arguments of an array's element, which stand below everything else that it needs; answers the first register
// behind them.
fn write_arguments(code: &mut Writer, t: u16, element: &Element) -> Result<u16, AllocError>
    requires room { suc t + length (terms_of element.now) < 2 ^ 16 }
    requires args { terms_top (suc t) (terms_of element.now) ≤ 2 ^ 16 }
    ensures next { IfOk result (λ u. u ≡ suc t + length (terms_of element.now)) }
    ensures written { OnOk result (WritesSteps code.old code.new (Arguments (suc t) (arguments element.now))) }
{
    let args = terms_of(element);
    write_values(code, t as u32 + 1, args)?;
    Ok(t + 1 + args.len() as u16)
}

// Writes an array by its bytes.
fn write_filling(
    code: &mut Writer,
    t: u16,
    site: u32,
    size: &CoreExpr,
    step: Option<u64>,
    element: &Element,
) -> Result<bool, AllocError>
    requires { sized_top t element.now size.now ≤ 2 ^ 16 }
    ensures { IfOk result (λ on. GoesOn on code.old code.new
        (filling_step t (constant_of size.now) step element.now size.now site)) }
{
    let u = write_arguments(code, t, element)?;
    match constant_of(size) {
        None => {
            write_filling_value(code, t, u, site, size, step, element)?;
            Ok(true)
        }
        Some(n) => write_filling_constant(code, t, u, site, n, step, element),
    }
}

// Writes a single element by its bytes.
fn write_once_filling(
    code: &mut Writer,
    t: u16,
    site: u32,
    size: &CoreExpr,
    step: Option<u64>,
    element: &Element,
) -> Result<bool, AllocError>
    requires { sized_top t element.now size.now ≤ 2 ^ 16 }
    ensures { IfOk result (λ on. GoesOn on code.old code.new
        (once_filling_step t (constant_of size.now) step element.now size.now site)) }
{
    let u = write_arguments(code, t, element)?;
    match constant_of(size) {
        None => {
            write_once_filling_value(code, t, u, site, size, step, element)?;
            Ok(true)
        }
        Some(n) => write_once_filling_constant(code, t, u, site, n, step, element),
    }
}

// Writes numbers up to a zero. Only numbers stand so; nothing behind anything else is reached.
fn write_up_to_zero(
    code: &mut Writer,
    t: u16,
    site: u32,
    size: &CoreExpr,
    element: &Element,
) -> Result<bool, AllocError>
    requires { term_top (suc t) size.now ≤ 2 ^ 16 }
    ensures { IfOk result (λ on. GoesOn on code.old code.new (up_to_zero_step t element.now size.now site)) }
{
    match element {
        Element::Number(number_type) => {
            write_value(code, t + 1, size)?;
            code.write(Instr::Zeroterm {
                bound: t + 1,
                width: byte_count(number_type.width) as u16,
                site,
            })?;
            Ok(true)
        }
        Element::Listed { .. }
        | Element::Named { .. }
        | Element::Unit
        | Element::Rest
        | Element::Zeros => {
            code.write(Instr::Fail {
                reason: NOT_ENOUGH,
                site,
            })?;
            Ok(false)
        }
    }
}

// Writes the code of a number without bytes, which stands in register `slot` then; `t` is the unit's.
fn write_source(code: &mut Writer, t: u16, slot: u16, source: &Source) -> Result<(), AllocError>
    requires registers { source_top (suc t) source.now ≤ 2 ^ 16 }
    requires cells { source_cells source.now ≤ 2 ^ 16 }
    ensures { OnOk result (WritesSteps code.old code.new (source_step t source.now slot)) }
{
    match source {
        Source::Expression { value, .. } => {
            write_value(code, t + 1, value)?;
            code.write(Instr::Op {
                into: slot,
                operator: OR,
                left: t + 1,
                right: t + 1,
            })?;
            Ok(())
        }
        Source::Cell(cell) => {
            code.write(Instr::Get {
                into: slot,
                cell: *cell as u16,
            })?;
            Ok(())
        }
        Source::Left => {
            code.write(Instr::Left { into: slot })?;
            Ok(())
        }
    }
}

/// Writes the code of what stands in a field, with its number in register `slot` where it is read; `t` is the unit's, and
/// those above it are used. False: nothing behind it is reached. `AllocError`: there was no memory for it.
pub(crate) fn write_shape(
    code: &mut Writer,
    t: u16,
    needed: bool,
    slot: u16,
    site: u32,
    element: &Element,
    extent: &Extent,
) -> Result<bool, AllocError>
    requires registers { shape_top t element.now extent.now ≤ 2 ^ 16 }
    requires cells { extent_cells extent.now ≤ 2 ^ 16 }
    ensures { IfOk result (λ on. GoesOn on code.old code.new (shape_step t element.now extent.now needed slot site)) }
{
    match extent {
        Extent::Once => {
            write_once(code, t, needed, slot, site, element)?;
            Ok(true)
        }
        Extent::Filling { size, step } => write_filling(code, t, site, size, *step, element),
        Extent::OnceFilling { size, step } => {
            write_once_filling(code, t, site, size, *step, element)
        }
        Extent::UpToZero { size } => write_up_to_zero(code, t, site, size, element),
        Extent::Given(source) => {
            write_source(code, t, slot, source)?;
            Ok(true)
        }
    }
}

/// The same of a field, whose bytes may be copied.
pub(crate) fn write_content(
    code: &mut Writer,
    t: u16,
    needed: bool,
    slot: u16,
    site: u32,
    field: &Field,
) -> Result<bool, AllocError>
    requires registers { content_top t field.now.element field.now.extent field.now.copy ≤ 2 ^ 16 }
    requires cells { max (extent_cells field.now.extent) (copy_cells field.now.copy) ≤ 2 ^ 16 }
    ensures { IfOk result (λ on. GoesOn on code.old code.new
        (content_step t field.now.element field.now.extent field.now.copy needed slot site)) }
{
    let element = &field.element;
    let extent = &field.extent;
    let Some(c) = field.copy else {
        return write_shape(code, t, needed, slot, site, element, extent);
    };
    match extent {
        Extent::Filling { size, .. } => write_copied(code, t, site, size, c),
        Extent::Once => {
            write_once(code, t, needed, slot, site, element)?;
            Ok(true)
        }
        Extent::OnceFilling { size, step } => {
            write_once_filling(code, t, site, size, *step, element)
        }
        Extent::UpToZero { size } => write_up_to_zero(code, t, site, size, element),
        Extent::Given(source) => {
            write_source(code, t, slot, source)?;
            Ok(true)
        }
    }
}
