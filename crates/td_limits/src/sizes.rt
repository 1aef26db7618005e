//! The limits by size.

ghost use Rattle.std.specs.Prelude.{◌≡◌, ◌+◌, ◌<◌, IfOk, OnOk, OnErr, length};
ghost use Rattle.td_limits.specs.Excesses.{capped, definition_name, first_excess};
ghost use Rattle.td_limits.specs.Depths.{uses_depth};
ghost use Rattle.td_limits.specs.Weights.{definition_weight};
ghost use Rattle.td_names.specs.Names.{declared};
ghost use Rattle.td_limits.specs.Sizes.{definition_sizes, items_of, member, sizes_passed, slots_of, sort_of, with_definition, with_members};

use crate::counts::name_span;
use crate::depths::uses_depth;
use crate::limits::{Excess, Limit, excess_over};
use crate::measures::{Measure, NameSort};
use crate::weights::{count_cells, definition_weight};
use std::alloc::{AllocError, Global};
use td_ast::definitions::{Def, ItemTree, ModuleTree};
use td_core::limits::{MOST_CELLS, MOST_DEPTH, MOST_WEIGHT};
use td_names::table::Table;

fn sort_of(definition: &Def) -> NameSort
    ensures { result ≡ sort_of definition.now }
{
    match definition {
        Def::Define(_) => NameSort::Constant,
        Def::Enum(_) => NameSort::TypeName,
        Def::Alias(_) => NameSort::TypeName,
        Def::Struct(_) => NameSort::TypeName,
        Def::Casetype(_) => NameSort::TypeName,
        Def::Output(_) => NameSort::TypeName,
    }
}

fn slots_of(definition: &Def) -> u64
    ensures { result ≡ slots_of definition.now }
{
    match definition {
        Def::Output(tree) => tree.slots.len() as u64,
        Def::Define(_) => 1,
        Def::Enum(_) => 1,
        Def::Alias(_) => 1,
        Def::Struct(_) => 1,
        Def::Casetype(_) => 1,
    }
}

// How large a definition is. Depth and weight stand still at the end of 64 bits.
fn measure(known: &Table<Measure>, definition: &Def) -> Measure
    ensures sort { result.sort ≡ sort_of definition.now }
    ensures cells { result.cells ≡ slots_of definition.now }
    ensures depth { result.depth ≡ capped (1 + uses_depth known.now definition.now) }
    ensures weight { result.weight ≡ capped (definition_weight known.now definition.now) }
{
    Measure {
        sort: sort_of(definition),
        cells: slots_of(definition),
        depth: uses_depth(known, definition).saturating_add(1),
        weight: definition_weight(known, definition),
    }
}

// The first limit by size that a definition of so many cells passes.
fn definition_sizes(cells: u64, measure: Measure, definition: &Def) -> Option<Excess>
    ensures { result ≡ first_excess (definition_sizes cells measure definition.now) }
{
    let span = name_span(definition);
    if cells > MOST_CELLS {
        return excess_over(MOST_CELLS, cells, Limit::Cells, span);
    }
    if measure.depth > MOST_DEPTH {
        return excess_over(MOST_DEPTH, measure.depth, Limit::Depth, span);
    }
    excess_over(MOST_WEIGHT, measure.weight, Limit::Weight, span)
}

// The names of an enum's members, after those that are known. `AllocError`: out of memory.
fn declare_members(
    alloc: Global,
    known: &mut Table<Measure>,
    items: &[ItemTree],
) -> Result<(), AllocError>
    ensures { OnOk result (known.new ≡ with_members known.old items.now) }
{
    let member = Measure {
        sort: NameSort::Member,
        cells: 1,
        depth: 0,
        weight: 0,
    };
    for item in items {
        known.declare(alloc, item.name.text.as_slice(), member)?;
    }
    Ok(())
}

// The bytes of a definition's name.
fn name_of(definition: &Def) -> &[u8]
    ensures { result.now ≡ (definition_name definition.now).text }
{
    match definition {
        Def::Define(tree) => tree.name.text.as_slice(),
        Def::Enum(tree) => tree.name.text.as_slice(),
        Def::Alias(tree) => tree.name.text.as_slice(),
        Def::Struct(tree) => tree.name.text.as_slice(),
        Def::Casetype(tree) => tree.name.text.as_slice(),
        Def::Output(tree) => tree.name.text.as_slice(),
    }
}

// The items of an enum; of another definition none.
fn items_of(definition: &Def) -> &[ItemTree]
    ensures { result.now ≡ items_of definition.now }
{
    match definition {
        Def::Enum(tree) => tree.items.as_slice(),
        Def::Define(_) => &[],
        Def::Alias(_) => &[],
        Def::Struct(_) => &[],
        Def::Casetype(_) => &[],
        Def::Output(_) => &[],
    }
}

// The names of one more definition, after those that are known. `AllocError`: out of memory.
fn declare(
    alloc: Global,
    known: &mut Table<Measure>,
    definition: &Def,
    measure: Measure,
) -> Result<(), AllocError>
    ensures { OnOk result (known.new ≡ with_members (declared known.old (definition_name definition.now).text measure) (items_of definition.now)) }
{
    known.declare(alloc, name_of(definition), measure)?;
    declare_members(alloc, known, items_of(definition))
}

/// The first limit by size that a text passes which breaks no rule: how many cells a definition has, how deep it is, and
/// how heavy. `AllocError`: there is a definition, and there was no memory for its name.
pub fn sizes_passed(alloc: Global, tree: &ModuleTree) -> Result<Option<Excess>, AllocError>
    ensures ok { IfOk result (λ passed. passed ≡ sizes_passed tree.now) }
    ensures memory { OnErr result (0 < length tree.now.definitions) }
{
    let definitions = tree.definitions.as_slice();
    let mut known = Table::new(alloc);
    for definition in definitions {
        let cells = count_cells(&known, definition);
        let measure = measure(&known, definition);
        let passed = definition_sizes(cells, measure, definition);
        if passed.is_some() {
            return Ok(passed);
        }
        declare(alloc, &mut known, definition, measure)?;
    }
    Ok(None)
}
