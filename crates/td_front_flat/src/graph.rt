//! Which parts use which.

ghost use Rattle.std.specs.Prelude.{◌≡◌, ◌⊎◌, [], None, Some, map, IfOk, IfErr};
ghost use Rattle.td_ast.specs.declared.token.Span.{Span};
ghost use Rattle.td_front_flat.specs.Uses as uses;
ghost use Rattle.td_front_flat.specs.Order as specs;
ghost use Rattle.td_front_flat.specs.declared.error.FlatError.TheVariants.{Twice, NoMemory};

use crate::error::FlatError;
use crate::uses::part_uses;
use std::alloc::{AllocError, Global};
use td_ast::names::Name;
use td_ast::parts::PartTree;
use td_names::names::Names;
use td_num::items::Items;

/// The names of parts, or the place of the first that an earlier part has. `FlatError::NoMemory`: out of memory.
pub(crate) fn names_of(alloc: Global, parts: &[PartTree]) -> Result<Names, FlatError>
    ensures ok { IfOk result (λ names. (names ≡ specs.names_of parts.now) × (specs.first_twice [] parts.now ≡ None)) }
    ensures err { IfErr result (λ e. (e ≡ NoMemory) ⊎ ((at : Span) × (e ≡ Twice at) × (specs.first_twice [] parts.now ≡ Some at))) }
{
    let mut names = Names::new(alloc);
    for part in parts {
        if names.contains(part.name.text.as_slice()) {
            return Err(FlatError::Twice {
                span: part.name.span,
            });
        }
        names.see(alloc, part.name.text.as_slice())?;
    }
    Ok(names)
}

/// What each part uses. `AllocError`: out of memory.
pub(crate) fn all_uses(alloc: Global, parts: &[PartTree]) -> Result<Items<Items<Name>>, AllocError>
    ensures { IfOk result (λ all. all ≡ map uses.part_uses parts.now) }
{
    let mut all = Items::new(alloc);
    for part in parts {
        all.push(part_uses(alloc, part)?)?;
    }
    Ok(all)
}

fn numbers_of(alloc: Global, names: &Names, uses: &[Name]) -> Result<Items<u32>, AllocError>
    ensures { IfOk result (λ numbers. numbers ≡ specs.numbers_of names.now uses.now) }
{
    let mut numbers = Items::new(alloc);
    for name in uses {
        if names.contains(name.text.as_slice()) {
            numbers.push(names.number(name.text.as_slice()))?;
        }
    }
    Ok(numbers)
}

/// For each part those that it uses, by their numbers. `AllocError`: out of memory.
pub(crate) fn graph_of(
    alloc: Global,
    names: &Names,
    all: &[Items<Name>],
) -> Result<Items<Items<u32>>, AllocError>
    ensures { IfOk result (λ graph. graph ≡ map (specs.numbers_of names.now) all.now) }
{
    let mut graph = Items::new(alloc);
    for uses in all {
        graph.push(numbers_of(alloc, names, uses.as_slice())?)?;
    }
    Ok(graph)
}
