//! Writes the code of fields: what stands in one once, its parts, and fields one after the other.
#![tactic(auto, using(crate::proofs::Writing::laid_then, crate::proofs::Writing::laid_stop, crate::proofs::Values::some_top))]

ghost use Rattle.std.specs.Prelude.{◌≡◌, ◌≤◌, ◌<◌, ◌^◌, ◌+◌, suc, OnOk, length};
ghost use Rattle.td_num.specs.Numbers.{bytes_in};
ghost use Rattle.td_lower_blocks.specs.Constructs.{values, listed};
ghost use Rattle.td_lower_blocks.specs.Lowered.{exprs_of, order_code, terms_of, bits_step, test_step, action_step, is_read, number_slot, once_step, parts_steps};
ghost use Rattle.td_lower_blocks.specs.Tops.{terms_top, test_top, action_top, option_cells, bits_end, parts_top, parts_cells, parts_bits};
ghost use Rattle.td_lower_emit.specs.Emission.{Writes, WritesSteps};

use crate::actions::{write_action, write_test};
use crate::expressions::{land, write_value};
use crate::writer::Writer;
use std::alloc::AllocError;
use td_core::actions::Action;
use td_core::expressions::CoreExpr;
use td_core::module::{Bits, Element, Extent, Part};
use td_ir::constants::CONSTRAINT;
use td_ir::instructions::Instr;
use td_num::number::{ByteOrder, NumberType, byte_count};

/// The arguments of a type that is named; none of any other element.
pub(crate) fn terms_of(element: &Element) -> &[CoreExpr]
    ensures { result.now ≡ terms_of element.now }
{
    match element {
        Element::Named { args, .. } => args.as_slice(),
        Element::Number(_) | Element::Listed { .. } => &[],
        Element::Unit | Element::Rest | Element::Zeros => &[],
    }
}

/// The number of an order of bytes in code.
pub(crate) fn order_code(order: ByteOrder) -> u8
    ensures { result ≡ order_code order }
{
    match order {
        ByteOrder::LittleEndian => 0,
        ByteOrder::BigEndian => 1,
    }
}

/// Writes the code of arguments, the first of which stands in register `t`. `AllocError`: there was no memory for it.
pub(crate) fn write_values(code: &mut Writer, t: u32, args: &[CoreExpr]) -> Result<(), AllocError>
    requires { terms_top t args.now ≤ 2 ^ 16 }
    ensures { OnOk result (Writes code.old code.new (values t (exprs_of args.now))) }
{
    let Some((first, rest)) = args.split_first() else {
        return Ok(());
    };
    write_value(code, t as u16, first)?;
    write_values(code, t + 1, rest)?;
    Ok(())
}

/// Writes the code that reads a number into register `slot`, and fails where it isn't in an enum's set; register `t` is
/// used. `AllocError`: there was no memory for it.
pub(crate) fn write_listed(
    code: &mut Writer,
    slot: u16,
    base: NumberType,
    set: u32,
    site: u32,
    t: u16,
) -> Result<(), AllocError>
    ensures { OnOk result (Writes code.old code.new (listed slot (order_code base.order) (bytes_in base.width) set site t)) }
{
    code.write(Instr::Fetch {
        into: slot,
        order: order_code(base.order),
        width: byte_count(base.width) as u16,
        site,
    })?;
    code.write(Instr::Member {
        into: t,
        source: slot,
        set,
    })?;
    let place = code.place();
    code.write(Instr::Mark)?;
    code.write(Instr::Fail {
        reason: CONSTRAINT,
        site,
    })?;
    land(code, place, true, t);
    Ok(())
}

/// Writes the code of an element that stands once, with its number in register `slot` where it is read. The unit is
/// register `t`. `AllocError`: there was no memory for it.
pub(crate) fn write_once(
    code: &mut Writer,
    t: u16,
    needed: bool,
    slot: u16,
    site: u32,
    element: &Element,
) -> Result<(), AllocError>
    requires room { t + 2 ≤ 2 ^ 16 }
    requires args { terms_top (suc t) (terms_of element.now) ≤ 2 ^ 16 }
    ensures { OnOk result (WritesSteps code.old code.new (once_step t element.now needed slot site)) }
{
    match element {
        Element::Number(number_type) => {
            let width = byte_count(number_type.width);
            if needed {
                code.write(Instr::Fetch {
                    into: slot,
                    order: order_code(number_type.order),
                    width: width as u16,
                    site,
                })?;
                return Ok(());
            }
            code.write(Instr::SkipK {
                bytes: width as u64,
                site,
            })?;
            Ok(())
        }
        Element::Listed { base, values } => {
            write_listed(code, slot, *base, *values, site, t + 1)?;
            Ok(())
        }
        Element::Named {
            definition,
            args,
            ..
        } => {
            write_values(code, t as u32 + 1, args.as_slice())?;
            code.write(Instr::Call {
                first: t + 1,
                routine: *definition,
                map: site as u64,
                site,
            })?;
            Ok(())
        }
        Element::Unit => Ok(()),
        Element::Rest => {
            code.write(Instr::Rest)?;
            Ok(())
        }
        Element::Zeros => {
            code.write(Instr::Zeros { site })?;
            Ok(())
        }
    }
}

// Writes the code that takes a part's bits out of the unit in register `t`.
fn write_bits(code: &mut Writer, level: u32, t: u16, bits: Option<Bits>) -> Result<(), AllocError>
    requires level { level < 2 ^ 16 }
    requires within { bits_end bits ≤ 64 }
    ensures { OnOk result (WritesSteps code.old code.new (bits_step level t bits)) }
{
    match bits {
        None => Ok(()),
        Some(bits) => {
            code.write(Instr::Bits {
                into: level as u16,
                source: t,
                low: bits.low as u8,
                count: bits.width as u16,
            })?;
            Ok(())
        }
    }
}

// Writes a refinement, where there is one.
fn write_refinement(
    code: &mut Writer,
    t: u16,
    site: u32,
    test: &Option<CoreExpr>,
) -> Result<(), AllocError>
    requires { test_top (suc t) test.now ≤ 2 ^ 16 }
    ensures { OnOk result (WritesSteps code.old code.new (test_step t site test.now)) }
{
    match test {
        None => Ok(()),
        Some(e) => {
            write_test(code, t + 1, e, CONSTRAINT, site)?;
            Ok(())
        }
    }
}

// Writes an action, where there is one, with the place of its field in the register of the next level.
fn write_effect(
    code: &mut Writer,
    level: u32,
    t: u16,
    site: u32,
    action: &Option<Action>,
) -> Result<(), AllocError>
    requires registers { action_top (suc level) (suc t) action.now ≤ 2 ^ 16 }
    requires cells { option_cells action.now ≤ 2 ^ 16 }
    ensures { OnOk result (WritesSteps code.old code.new (action_step level t site action.now)) }
{
    match action {
        None => Ok(()),
        Some(action) => {
            code.write(Instr::Pos {
                into: (level + 1) as u16,
            })?;
            write_action(code, t + 1, site, level + 2, action)?;
            Ok(())
        }
    }
}

/// Writes the code of a field's parts, of which the first has a site and a level; the others follow. `read` says whether the
/// field's number is in its register. `AllocError`: there was no memory for it.
pub fn write_parts(
    code: &mut Writer,
    t: u16,
    read: bool,
    site: u32,
    level: u32,
    parts: &[Part],
) -> Result<(), AllocError>
    requires registers { parts_top level t parts.now ≤ 2 ^ 16 }
    requires cells { parts_cells parts.now ≤ 2 ^ 16 }
    requires bits { parts_bits parts.now ≤ 64 }
    requires sites { site + length parts.now < 2 ^ 32 }
    ensures { OnOk result (WritesSteps code.old code.new (parts_steps t read site level parts.now)) }
{
    let Some((part, rest)) = parts.split_first() else {
        return Ok(());
    };
    if read {
        write_bits(code, level, t, part.bits)?;
        write_refinement(code, t, site, &part.refinement)?;
        write_effect(code, level, t, site, &part.action)?;
        write_parts(code, t, read, site + 1, level + 1, rest)?;
        return Ok(());
    }
    write_refinement(code, t, site, &part.refinement)?;
    write_effect(code, level, t, site, &part.action)?;
    write_parts(code, t, read, site + 1, level + 1, rest)?;
    Ok(())
}

/// Whether a field's number is in its register behind it.
pub(crate) fn is_read(element: &Element, extent: &Extent, needed: bool) -> bool
    ensures { result ≡ is_read element.now extent.now needed }
{
    match extent {
        Extent::Once => match element {
            Element::Number(_) => needed,
            Element::Listed { .. } => true,
            Element::Named { .. } | Element::Unit | Element::Rest | Element::Zeros => false,
        },
        Extent::Given(_) => matches!(element, Element::Number(_)),
        Extent::Filling { .. } | Extent::OnceFilling { .. } | Extent::UpToZero { .. } => false,
    }
}

/// The register of a field's number: that of its value in scope, or the unit's where it has bit fields.
pub(crate) fn number_slot(level: u32, t: u16, parts: &[Part]) -> u32
    ensures { result ≡ number_slot level t parts.now }
{
    match parts.first() {
        None => t as u32,
        Some(part) => match part.bits {
            None => level,
            Some(_) => t as u32,
        },
    }
}
