//! Writes the code of definitions.
#![tactic(auto, using(crate::proofs::Writing::laid_then, crate::proofs::Writing::laid_stop, crate::proofs::Values::some_top, crate::proofs::Needs::needed_turned))]

ghost use Rattle.std.specs.Prelude.{◌≡◌, ◌≤◌, ◌<◌, ◌^◌, ◌+◌, ℕ, max, suc, OnOk, length};
ghost use Rattle.td_meaning_needed.specs.Needed.{needed_list};
ghost use Rattle.td_lower_blocks.specs.Constructs.{steps, cases, body};
ghost use Rattle.td_lower_blocks.specs.Lowered.{fields_steps, last_case, cases_of, body_of, definition_body, parts_in, default_parts, cases_parts, body_parts};
ghost use Rattle.td_lower_blocks.specs.Tops.{fields_top, fields_cells, fields_bits, default_top, default_cells, default_bits, cases_top, cases_cells, cases_bits, body_top, body_cells, body_bits, definition_top};
ghost use Rattle.td_lower_emit.specs.Emission.{Finishes};

use crate::actions::write_test;
use crate::arrays::write_content;
use crate::counts::count_parts;
use crate::expressions::{land, write_value};
use crate::fields::{is_read, number_slot, write_parts};
use crate::writer::Writer;
use std::alloc::{AllocError, Global};
use td_core::module::{Body, Case, Field, TypeDef};
use td_ir::constants::{CONSTRAINT, EQ, IMPOSSIBLE};
use td_ir::instructions::Instr;
use td_meaning_needed::flags::needed_of;
use td_num::items::Items;

// Writes fields one after the other, and a return; for each it is known whether its number is needed.
fn write_fields(
    code: &mut Writer,
    t: u16,
    site: u32,
    level: u32,
    fields: &[Field],
    needed: &[bool],
) -> Result<(), AllocError>
    requires needed { needed.now ≡ needed_list level fields.now }
    requires registers { fields_top level t fields.now ≤ 2 ^ 16 }
    requires cells { fields_cells fields.now ≤ 2 ^ 16 }
    requires bits { fields_bits fields.now ≤ 64 }
    requires sites { site + parts_in fields.now < 2 ^ 32 }
    requires levels { level + parts_in fields.now < 2 ^ 32 }
    ensures { OnOk result ((x : ℕ) → Finishes x code.old code.new (steps (fields_steps t site level fields.now))) }
{
    let Some((field, later)) = fields.split_first() else {
        code.write(Instr::Return)?;
        return Ok(());
    };
    let Some((need, further)) = needed.split_first() else {
        return Ok(());
    };
    let parts = field.parts.as_slice();
    code.write(Instr::Mark)?;
    let slot = number_slot(level, t, parts);
    let read = is_read(&field.element, &field.extent, *need);
    if !write_content(code, t, *need, slot as u16, site, field)? {
        return Ok(());
    }
    write_parts(code, t, read, site, level, parts)?;
    let count = parts.len() as u32;
    write_fields(code, t, count + site, count + level, later, further)?;
    Ok(())
}

// Writes the fields of a struct or a case, with so many values in scope before the first.
fn write_field_list(
    alloc: Global,
    code: &mut Writer,
    t: u16,
    site: u32,
    level: u32,
    fields: &[Field],
) -> Result<(), AllocError>
    requires registers { fields_top level t fields.now ≤ 2 ^ 16 }
    requires cells { fields_cells fields.now ≤ 2 ^ 16 }
    requires bits { fields_bits fields.now ≤ 64 }
    requires sites { site + parts_in fields.now < 2 ^ 32 }
    requires levels { level + parts_in fields.now < 2 ^ 32 }
    ensures { OnOk result ((x : ℕ) → Finishes x code.old code.new (steps (fields_steps t site level fields.now))) }
{
    let scope = vec![in alloc; 0; level as usize]?;
    let needed = needed_of(alloc, &scope, fields)?;
    let told = write_fields(code, t, site, level, fields, &needed);
    drop(needed);
    drop(scope);
    told
}

// What all cases of a switch value have in common.
#[derive(Clone, Copy)]
struct Switch {
    // The register of a unit; the switch value stands in the next.
    unit: u16,
    // The site of the switch value.
    site: u32,
    // How many values are in scope.
    level: u32,
}

// Writes what follows the cases, whose sites begin at one: the fields of `default`, or a failure.
fn write_default(
    alloc: Global,
    code: &mut Writer,
    switch: Switch,
    site: u32,
    default: &Option<Items<Field>>,
) -> Result<(), AllocError>
    requires registers { default_top switch.level switch.unit default.now ≤ 2 ^ 16 }
    requires cells { default_cells default.now ≤ 2 ^ 16 }
    requires bits { default_bits default.now ≤ 64 }
    requires sites { site + default_parts default.now < 2 ^ 32 }
    requires levels { switch.level + default_parts default.now < 2 ^ 32 }
    ensures { OnOk result ((x : ℕ) → Finishes x code.old code.new (cases (suc switch.unit) (last_case switch.unit switch.site site switch.level default.now))) }
{
    match default {
        None => {
            code.write(Instr::Fail {
                reason: IMPOSSIBLE,
                site: switch.site,
            })?;
            Ok(())
        }
        Some(fields) => write_field_list(
            alloc,
            code,
            switch.unit,
            site,
            switch.level,
            fields.as_slice(),
        ),
    }
}

// Writes the cases of a switch value, one behind the other, and what follows them; their sites begin at one.
fn write_cases(
    alloc: Global,
    code: &mut Writer,
    switch: Switch,
    site: u32,
    all: &[Case],
    default: &Option<Items<Field>>,
) -> Result<(), AllocError>
    requires room { switch.unit + 2 < 2 ^ 16 }
    requires registers { max (cases_top switch.level switch.unit all.now) (default_top switch.level switch.unit default.now) ≤ 2 ^ 16 }
    requires cells { max (cases_cells all.now) (default_cells default.now) ≤ 2 ^ 16 }
    requires bits { max (cases_bits all.now) (default_bits default.now) ≤ 64 }
    requires sites { site + (cases_parts all.now + default_parts default.now) < 2 ^ 32 }
    requires levels { switch.level + (cases_parts all.now + default_parts default.now) < 2 ^ 32 }
    ensures { OnOk result ((x : ℕ) → Finishes x code.old code.new (cases (suc switch.unit) (cases_of switch.unit switch.site site switch.level all.now default.now))) }
{
    let Some((case, rest)) = all.split_first() else {
        write_default(alloc, code, switch, site, default)?;
        return Ok(());
    };
    let t = switch.unit;
    code.write(Instr::Const {
        into: t + 2,
        value: case.value,
    })?;
    code.write(Instr::Op {
        into: t + 2,
        operator: EQ,
        left: t + 1,
        right: t + 2,
    })?;
    let place = code.place();
    code.write(Instr::Mark)?;
    let fields = case.fields.as_slice();
    write_field_list(alloc, code, t, site, switch.level, fields)?;
    land(code, place, false, t + 2);
    let next = count_parts(fields) + site;
    write_cases(alloc, code, switch, next, rest, default)?;
    Ok(())
}

// Writes the body of a definition.
fn write_body(
    alloc: Global,
    code: &mut Writer,
    t: u16,
    switch: u32,
    site: u32,
    level: u32,
    all: &Body,
) -> Result<(), AllocError>
    requires registers { body_top level t all.now ≤ 2 ^ 16 }
    requires cells { body_cells all.now ≤ 2 ^ 16 }
    requires bits { body_bits all.now ≤ 64 }
    requires sites { site + body_parts all.now < 2 ^ 32 }
    requires levels { level + body_parts all.now < 2 ^ 32 }
    ensures { OnOk result ((x : ℕ) → Finishes x code.old code.new (body (body_of t switch site level all.now))) }
{
    match all {
        Body::Struct(fields) => write_field_list(alloc, code, t, site, level, fields.as_slice()),
        Body::Casetype {
            switch: value,
            cases,
            default,
        } => {
            write_value(code, t + 1, value)?;
            let switch = Switch {
                unit: t,
                site: switch,
                level,
            };
            write_cases(alloc, code, switch, site, cases.as_slice(), default)?;
            Ok(())
        }
    }
}

/// Writes the code of a definition, whose sites begin at `first`; `t` is the register of a unit. `AllocError`: there was no
/// memory for it.
pub fn write_definition(
    alloc: Global,
    code: &mut Writer,
    first: u32,
    t: u16,
    d: &TypeDef,
) -> Result<(), AllocError>
    requires registers { definition_top t d.now ≤ 2 ^ 16 }
    requires cells { body_cells d.now.body ≤ 2 ^ 16 }
    requires bits { body_bits d.now.body ≤ 64 }
    requires sites { first + 2 + body_parts d.now.body < 2 ^ 32 }
    requires levels { length d.now.params + body_parts d.now.body < 2 ^ 32 }
    ensures { OnOk result ((x : ℕ) → Finishes x code.old code.new (body (definition_body first t d.now))) }
{
    let level = d.params.len() as u32;
    match &d.guard {
        None => write_body(alloc, code, t, first + 1, first + 2, level, &d.body),
        Some(e) => {
            write_test(code, t + 1, e, CONSTRAINT, first)?;
            write_body(alloc, code, t, first + 1, first + 2, level, &d.body)?;
            Ok(())
        }
    }
}
