//! The cell maps of a module's code.
#![tactic(auto, using(crate::proofs::Mapping::in_map_then))]

ghost use Rattle.std.specs.Prelude.{◌≡◌, ◌++◌, ◌∷◌, [], OnOk};
ghost use Rattle.td_lower.specs.Tables.{number_for, in_map, map_for, own_of, empty_maps, parts_maps, fields_maps, default_maps, cases_maps, body_maps, definition_maps, definitions_maps};

use std::alloc::{AllocError, Global};
use td_core::module::{Body, Case, Element, Field, Part, TypeDef};
use td_num::items::Items;

// The cells of a type that is named; none of any other element.
fn own_of(element: &Element) -> &[u32]
    ensures { result.now ≡ own_of element.now }
{
    match element {
        Element::Named { cells, .. } => cells.as_slice(),
        Element::Number(_) | Element::Listed { .. } => &[],
        Element::Unit | Element::Rest | Element::Zeros => &[],
    }
}

// What stands in a map for a cell that is given, of a definition with so many cells: for the two of a buffer its number once.
fn number_for(cells: usize, cell: u32) -> Option<u32>
    ensures { result ≡ number_for cells cell }
{
    if (cell as usize) < cells {
        return Some(cell);
    }
    let behind = cell - cells as u32;
    if behind % 2 == 0 {
        Some(behind / 2)
    } else {
        None
    }
}

fn push_number(map: &mut Items<u32>, number: Option<u32>) -> Result<(), AllocError>
    ensures { OnOk result (map.new ≡ map.old ++ in_map number []) }
{
    match number {
        None => Ok(()),
        Some(number) => {
            map.push(number)?;
            Ok(())
        }
    }
}

fn push_numbers(map: &mut Items<u32>, cells: usize, own: &[u32]) -> Result<(), AllocError>
    ensures { OnOk result (map.new ≡ map.old ++ map_for cells own.now) }
{
    let Some((cell, rest)) = own.split_first() else {
        return Ok(());
    };
    push_number(map, number_for(cells, *cell))?;
    push_numbers(map, cells, rest)?;
    Ok(())
}

// A map, of a definition with so many cells.
fn push_map(
    alloc: Global,
    maps: &mut Items<Items<u32>>,
    cells: usize,
    own: &[u32],
) -> Result<(), AllocError>
    ensures { OnOk result (maps.new ≡ maps.old ++ map_for cells own.now ∷ []) }
{
    let mut map = Items::new(alloc);
    push_numbers(&mut map, cells, own)?;
    maps.push(map)?;
    Ok(())
}

// An empty map for each part.
fn push_empty(alloc: Global, maps: &mut Items<Items<u32>>, parts: &[Part]) -> Result<(), AllocError>
    ensures { OnOk result (maps.new ≡ maps.old ++ empty_maps parts.now) }
{
    let Some((_, rest)) = parts.split_first() else {
        return Ok(());
    };
    push_map(alloc, maps, 0, &[])?;
    push_empty(alloc, maps, rest)?;
    Ok(())
}

// The maps of a field.
fn push_field_maps(
    alloc: Global,
    maps: &mut Items<Items<u32>>,
    cells: usize,
    element: &Element,
    parts: &[Part],
) -> Result<(), AllocError>
    ensures { OnOk result (maps.new ≡ maps.old ++ parts_maps cells element.now parts.now) }
{
    let Some((_, rest)) = parts.split_first() else {
        return Ok(());
    };
    push_map(alloc, maps, cells, own_of(element))?;
    push_empty(alloc, maps, rest)?;
    Ok(())
}

// The maps of fields.
fn push_fields_maps(
    alloc: Global,
    maps: &mut Items<Items<u32>>,
    cells: usize,
    fields: &[Field],
) -> Result<(), AllocError>
    ensures { OnOk result (maps.new ≡ maps.old ++ fields_maps cells fields.now) }
{
    let Some((field, rest)) = fields.split_first() else {
        return Ok(());
    };
    push_field_maps(alloc, maps, cells, &field.element, field.parts.as_slice())?;
    push_fields_maps(alloc, maps, cells, rest)?;
    Ok(())
}

// The maps of `default`, where there is one.
fn push_default_maps(
    alloc: Global,
    maps: &mut Items<Items<u32>>,
    cells: usize,
    default: &Option<Items<Field>>,
) -> Result<(), AllocError>
    ensures { OnOk result (maps.new ≡ maps.old ++ default_maps cells default.now) }
{
    match default {
        None => Ok(()),
        Some(fields) => {
            push_fields_maps(alloc, maps, cells, fields.as_slice())?;
            Ok(())
        }
    }
}

// The maps of cases and of `default`.
fn push_cases_maps(
    alloc: Global,
    maps: &mut Items<Items<u32>>,
    cells: usize,
    cases: &[Case],
    default: &Option<Items<Field>>,
) -> Result<(), AllocError>
    ensures { OnOk result (maps.new ≡ maps.old ++ cases_maps cells cases.now default.now) }
{
    let Some((case, rest)) = cases.split_first() else {
        push_default_maps(alloc, maps, cells, default)?;
        return Ok(());
    };
    push_fields_maps(alloc, maps, cells, case.fields.as_slice())?;
    push_cases_maps(alloc, maps, cells, rest, default)?;
    Ok(())
}

// The maps of a definition.
fn push_definition_maps(
    alloc: Global,
    maps: &mut Items<Items<u32>>,
    d: &TypeDef,
) -> Result<(), AllocError>
    ensures { OnOk result (maps.new ≡ maps.old ++ definition_maps d.now) }
{
    push_map(alloc, maps, 0, &[])?;
    push_map(alloc, maps, 0, &[])?;
    let cells = d.cells.len();
    match &d.body {
        Body::Struct(fields) => {
            push_fields_maps(alloc, maps, cells, fields.as_slice())?;
            Ok(())
        }
        Body::Casetype { cases, default, .. } => {
            push_cases_maps(alloc, maps, cells, cases.as_slice(), default)?;
            Ok(())
        }
    }
}

/// A cell map for each site of definitions. `AllocError`: there was no memory for it.
pub(crate) fn push_maps(
    alloc: Global,
    maps: &mut Items<Items<u32>>,
    definitions: &[TypeDef],
) -> Result<(), AllocError>
    ensures { OnOk result (maps.new ≡ maps.old ++ definitions_maps definitions.now) }
{
    let Some((d, rest)) = definitions.split_first() else {
        return Ok(());
    };
    push_definition_maps(alloc, maps, d)?;
    push_maps(alloc, maps, rest)?;
    Ok(())
}
