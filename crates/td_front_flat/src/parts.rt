//! Parts as they stand in the whole text.

ghost use Rattle.std.specs.Prelude.{◌≡◌, ◌++◌, [], map, IfOk, OnOk};
ghost use Rattle.td_front_flat.specs.Definitions as specs;

use crate::definitions::flat_definition;
use crate::own::Own;
use std::alloc::{AllocError, Global};
use td_ast::definitions::{Def, ItemTree};
use td_ast::parts::PartTree;
use td_names::names::Names;
use td_num::items::Items;

fn see_items(alloc: Global, names: &mut Names, items: &[ItemTree]) -> Result<(), AllocError>
    ensures { OnOk result (names.new ≡ specs.with_items names.old items.now) }
{
    for item in items {
        names.see(alloc, item.name.text.as_slice())?;
    }
    Ok(())
}

fn see_literals(alloc: Global, names: &mut Names, definition: &Def) -> Result<(), AllocError>
    ensures { OnOk result (names.new ≡ specs.with_literals names.old definition.now) }
{
    match definition {
        Def::Define(tree) => names.see(alloc, tree.name.text.as_slice()),
        Def::Enum(tree) => see_items(alloc, names, tree.items.as_slice()),
        Def::Alias(_) | Def::Struct(_) | Def::Casetype(_) | Def::Output(_) => Ok(()),
    }
}

fn see_all_literals(alloc: Global, names: &mut Names, definitions: &[Def]) -> Result<(), AllocError>
    ensures { OnOk result (names.new ≡ specs.all_literals names.old definitions.now) }
{
    for definition in definitions {
        see_literals(alloc, names, definition)?;
    }
    Ok(())
}

// The names of the constants and members of a part.
fn literals_of(alloc: Global, part: &PartTree) -> Result<Names, AllocError>
    ensures { IfOk result (λ names. names ≡ specs.all_literals [] part.now.definitions) }
{
    let mut literals = Names::new(alloc);
    see_all_literals(alloc, &mut literals, part.definitions.as_slice())?;
    Ok(literals)
}

// Adds definitions of a part, as they stand in the whole text.
fn add_definitions(
    alloc: Global,
    whole: &mut Items<Def>,
    own: &Own,
    definitions: &[Def],
) -> Result<(), AllocError>
    ensures { OnOk result (whole.new ≡ whole.old ++ map (specs.flat_definition own.now) definitions.now) }
{
    for definition in definitions {
        whole.push(flat_definition(alloc, own, definition)?)?;
    }
    Ok(())
}

/// Adds the definitions of the part with this number, as they stand in the whole text, where `own` has the names of all parts,
/// and then is of this part. `AllocError`: out of memory.
pub(crate) fn add_part(
    alloc: Global,
    whole: &mut Items<Def>,
    own: &mut Own,
    number: u32,
    part: &PartTree,
) -> Result<(), AllocError>
    ensures whole { OnOk result (whole.new ≡ whole.old ++ specs.flat_part own.old.parts number part.now) }
    ensures parts { OnOk result (own.new.parts ≡ own.old.parts) }
{
    own.number = number;
    own.literals = literals_of(alloc, part)?;
    add_definitions(alloc, whole, own, part.definitions.as_slice())
}
