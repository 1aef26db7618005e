//! The tables of a module's code.

ghost use Rattle.std.specs.Prelude.{◌≡◌, ◌+◌, ◌<◌, ◌++◌, length, IfOk, OnOk};
ghost use Rattle.td_lower.specs.Tables.{names_of, where_name, switch_name, site_for, parts_sites, fields_sites, default_sites, cases_sites, body_sites, definition_sites, definitions_sites, buffer_names, entry_for, entries_for};

use std::alloc::{AllocError, Global};
use td_core::full_name::FullName;
use td_core::module::{Body, Buffer, Case, Field, Module, NameId, Part, TypeDef};
use td_ir::tables::{EntryPoint, Site};
use td_num::items::Items;
use td_num::text::Text;

/// The names of the module, and those that stand for `where` and the switch value. `AllocError`: there was no memory for it.
pub fn names_of(alloc: Global, m: &Module) -> Result<Items<FullName>, AllocError>
    ensures { IfOk result (λ names. names ≡ names_of m.now) }
{
    let mut names = Items::new(alloc);
    for name in m.names.as_slice() {
        names.push(name.copy(alloc)?)?;
    }
    names.push(FullName::alone(Text::copy_of(alloc, b"where")?))?;
    names.push(FullName::alone(Text::copy_of(alloc, b"switch")?))?;
    Ok(names)
}

// The sites of parts.
fn push_parts(
    sites: &mut Items<Site>,
    routine: u32,
    ty: NameId,
    parts: &[Part],
) -> Result<(), AllocError>
    ensures { OnOk result (sites.new ≡ sites.old ++ parts_sites routine ty parts.now) }
{
    let Some((part, rest)) = parts.split_first() else {
        return Ok(());
    };
    sites.push(Site {
        ty,
        field: part.name,
        routine,
    })?;
    push_parts(sites, routine, ty, rest)?;
    Ok(())
}

// The sites of fields.
fn push_fields(
    sites: &mut Items<Site>,
    routine: u32,
    ty: NameId,
    fields: &[Field],
) -> Result<(), AllocError>
    ensures { OnOk result (sites.new ≡ sites.old ++ fields_sites routine ty fields.now) }
{
    let Some((field, rest)) = fields.split_first() else {
        return Ok(());
    };
    push_parts(sites, routine, ty, field.parts.as_slice())?;
    push_fields(sites, routine, ty, rest)?;
    Ok(())
}

// The sites of `default`, where there is one.
fn push_default(
    sites: &mut Items<Site>,
    routine: u32,
    ty: NameId,
    default: &Option<Items<Field>>,
) -> Result<(), AllocError>
    ensures { OnOk result (sites.new ≡ sites.old ++ default_sites routine ty default.now) }
{
    match default {
        None => Ok(()),
        Some(fields) => {
            push_fields(sites, routine, ty, fields.as_slice())?;
            Ok(())
        }
    }
}

// The sites of cases and of `default`.
fn push_cases(
    sites: &mut Items<Site>,
    routine: u32,
    ty: NameId,
    cases: &[Case],
    default: &Option<Items<Field>>,
) -> Result<(), AllocError>
    ensures { OnOk result (sites.new ≡ sites.old ++ cases_sites routine ty cases.now default.now) }
{
    let Some((case, rest)) = cases.split_first() else {
        push_default(sites, routine, ty, default)?;
        return Ok(());
    };
    push_fields(sites, routine, ty, case.fields.as_slice())?;
    push_cases(sites, routine, ty, rest, default)?;
    Ok(())
}

// The sites of a definition.
fn push_definition(
    sites: &mut Items<Site>,
    place: NameId,
    switch: NameId,
    routine: u32,
    d: &TypeDef,
) -> Result<(), AllocError>
    ensures { OnOk result (sites.new ≡ sites.old ++ definition_sites place switch routine d.now) }
{
    sites.push(Site {
        ty: d.name,
        field: place,
        routine,
    })?;
    sites.push(Site {
        ty: d.name,
        field: switch,
        routine,
    })?;
    match &d.body {
        Body::Struct(fields) => {
            push_fields(sites, routine, d.name, fields.as_slice())?;
            Ok(())
        }
        Body::Casetype { cases, default, .. } => {
            push_cases(sites, routine, d.name, cases.as_slice(), default)?;
            Ok(())
        }
    }
}

/// The sites of definitions, whose routines are numbered from `routine` on, with the names that stand for `where` and the
/// switch value. `AllocError`: there was no memory for it.
pub(crate) fn push_sites(
    sites: &mut Items<Site>,
    place: NameId,
    switch: NameId,
    routine: u32,
    definitions: &[TypeDef],
) -> Result<(), AllocError>
    requires { routine + length definitions.now < 4294967296 }
    ensures { OnOk result (sites.new ≡ sites.old ++ definitions_sites place switch routine definitions.now) }
{
    let Some((d, rest)) = definitions.split_first() else {
        return Ok(());
    };
    push_definition(sites, place, switch, routine, d)?;
    push_sites(sites, place, switch, routine + 1, rest)?;
    Ok(())
}

// The names of buffers.
fn push_buffer_names(names: &mut Items<NameId>, buffers: &[Buffer]) -> Result<(), AllocError>
    ensures { OnOk result (names.new ≡ names.old ++ buffer_names buffers.now) }
{
    let Some((buffer, rest)) = buffers.split_first() else {
        return Ok(());
    };
    names.push(buffer.name)?;
    push_buffer_names(names, rest)?;
    Ok(())
}

fn buffer_names(alloc: Global, buffers: &[Buffer]) -> Result<Items<NameId>, AllocError>
    ensures { IfOk result (λ names. names ≡ buffer_names buffers.now) }
{
    let mut names = Items::new(alloc);
    push_buffer_names(&mut names, buffers)?;
    Ok(names)
}

// The entry point at a definition; one without parameters, cells and buffers where there is none.
fn entry_for(alloc: Global, definitions: &[TypeDef], place: u32) -> Result<EntryPoint, AllocError>
    ensures { IfOk result (λ entry. entry ≡ entry_for definitions.now place) }
{
    match definitions.get(place as usize) {
        Some(d) => Ok(EntryPoint {
            routine: place,
            params: Items::copy_of(alloc, d.params.as_slice())?,
            cells: Items::copy_of(alloc, d.cells.as_slice())?,
            buffers: buffer_names(alloc, d.buffers.as_slice())?,
        }),
        None => Ok(EntryPoint {
            routine: place,
            params: Items::new(alloc),
            cells: Items::new(alloc),
            buffers: Items::new(alloc),
        }),
    }
}

/// The entry points at places of definitions. `AllocError`: there was no memory for it.
pub(crate) fn push_entries(
    alloc: Global,
    entries: &mut Items<EntryPoint>,
    definitions: &[TypeDef],
    places: &[u32],
) -> Result<(), AllocError>
    ensures { OnOk result (entries.new ≡ entries.old ++ entries_for definitions.now places.now) }
{
    let Some((place, rest)) = places.split_first() else {
        return Ok(());
    };
    entries.push(entry_for(alloc, definitions, *place)?)?;
    push_entries(alloc, entries, definitions, rest)?;
    Ok(())
}
