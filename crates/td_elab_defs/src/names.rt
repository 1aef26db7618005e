//! The names of a module, as they are seen first.

ghost use Rattle.std.specs.Prelude.{◌≡◌, ◌<◌, [], IfOk, OnOk, OnErr, length};
ghost use Rattle.td_elab_rules.specs.Modules.{see_params, see_fields, see_cases, see_default, see_struct, see_casetype, see_definition, all_names};

use crate::records::see_slots;
use std::alloc::{AllocError, Global};
use td_ast::definitions::{CaseTree, CasetypeTree, Def, StructTree};
use td_ast::fields::FieldTree;
use td_ast::parameters::ParamTree;
use td_names::names::Names;
use td_num::items::Items;

/// The names of parameters. `AllocError`: out of memory.
fn see_params(alloc: Global, trees: &[ParamTree], names: &mut Names) -> Result<(), AllocError>
    ensures { OnOk result (names.new ≡ see_params names.old trees.now) }
{
    for tree in trees {
        let (ParamTree::Value(_, name)
        | ParamTree::Mutable(_, name)
        | ParamTree::Bytes { name, .. }) = tree;
        names.see(alloc, name.text.as_slice())?;
    }
    Ok(())
}

/// The names of fields. `AllocError`: out of memory.
fn see_fields(alloc: Global, trees: &[FieldTree], names: &mut Names) -> Result<(), AllocError>
    ensures { OnOk result (names.new ≡ see_fields names.old trees.now) }
{
    for tree in trees {
        names.see(alloc, tree.name.text.as_slice())?;
    }
    Ok(())
}

/// The names of the fields of cases. `AllocError`: out of memory.
fn see_cases(alloc: Global, trees: &[CaseTree], names: &mut Names) -> Result<(), AllocError>
    ensures { OnOk result (names.new ≡ see_cases names.old trees.now) }
{
    for tree in trees {
        see_fields(alloc, tree.fields.as_slice(), names)?;
    }
    Ok(())
}

/// The names of the fields of `default`. `AllocError`: out of memory.
fn see_default(
    alloc: Global,
    tree: &Option<Items<FieldTree>>,
    names: &mut Names,
) -> Result<(), AllocError>
    ensures { OnOk result (names.new ≡ see_default names.old tree.now) }
{
    match tree {
        Some(trees) => see_fields(alloc, trees.as_slice(), names),
        None => Ok(()),
    }
}

/// The names of a struct's parameters and fields, and then its own. `AllocError`: out of memory.
fn see_struct(alloc: Global, tree: &StructTree, names: &mut Names) -> Result<(), AllocError>
    ensures { OnOk result (names.new ≡ see_struct names.old tree.now) }
{
    see_params(alloc, tree.head.params.as_slice(), names)?;
    see_fields(alloc, tree.fields.as_slice(), names)?;
    names.see(alloc, tree.name.text.as_slice())
}

/// The names of a casetype's parameters and fields, and then its own. `AllocError`: out of memory.
fn see_casetype(alloc: Global, tree: &CasetypeTree, names: &mut Names) -> Result<(), AllocError>
    ensures { OnOk result (names.new ≡ see_casetype names.old tree.now) }
{
    see_params(alloc, tree.head.params.as_slice(), names)?;
    see_cases(alloc, tree.cases.as_slice(), names)?;
    see_default(alloc, &tree.default, names)?;
    names.see(alloc, tree.name.text.as_slice())
}

/// The names of a definition. `AllocError`: out of memory.
fn see_definition(alloc: Global, tree: &Def, names: &mut Names) -> Result<(), AllocError>
    ensures { OnOk result (names.new ≡ see_definition names.old tree.now) }
{
    match tree {
        Def::Define(_) | Def::Enum(_) | Def::Alias(_) => Ok(()),
        Def::Struct(d) => see_struct(alloc, d, names),
        Def::Casetype(d) => see_casetype(alloc, d, names),
        Def::Output(d) => see_slots(alloc, d.slots.as_slice(), names),
    }
}

/// The names of all definitions. `AllocError`: there is a definition, and out of memory.
pub fn all_names(alloc: Global, trees: &[Def]) -> Result<Names, AllocError>
    ensures names { IfOk result (λ n. n ≡ all_names [] trees.now) }
    ensures memory { OnErr result (0 < length trees.now) }
{
    let mut names = Names::new(alloc);
    for tree in trees {
        see_definition(alloc, tree, &mut names)?;
    }
    Ok(names)
}
