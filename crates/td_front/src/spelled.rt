//! Names of the one tree of parts, as they are spelled.

ghost use Rattle.std.specs.Prelude.{◌≡◌, ◌++◌, [], ◌∷◌, map, get_or, IfOk};
ghost use Rattle.td_num.specs.declared.text.TheConstants.{DOT};
ghost use Rattle.td_front_flat.specs.Names.{spelled};
ghost use Rattle.td_front_flat.specs.Order.{names_of};
ghost use Rattle.td_front.specs.Inputs.{with_names};

use std::alloc::{AllocError, Global};
use std::marker::Model;
use std::sync::Arc;
use td_ast::parts::PartTree;
use td_core::full_name::FullName;
use td_core::module::Module;
use td_front_flat::marks::{is_numbered, number_in, own_name};
use td_num::items::Items;
use td_num::text::{DOT, Text};

// A part's name, which the names in the part share. A contract sees the list of its bytes.
#[derive(Drop)]
struct PartName {
    text: Arc<Text, Global>,
}

impl Model for PartName {
    ghost use Rattle.std.specs.Prelude.{List, ℕ};
    ghost use Rattle.std.specs.Arc.{arc_value};

    ghost Value = { List ℕ };

    ghost view = { λ p. arc_value p.text };
}

impl PartName {
    // A copy of these bytes.
    fn copy_of(alloc: Global, name: &[u8]) -> Result<PartName, AllocError>
        ensures { IfOk result (λ part. part ≡ name.now) }
    {
        let text = Arc::new(alloc, Text::copy_of(alloc, name)?)?;
        Ok(PartName { text })
    }

    // A name in the part.
    fn with(&self, alloc: Global, own: &[u8]) -> Result<FullName, AllocError>
        ensures { IfOk result (λ name. name ≡ self.now ++ DOT ∷ own.now) }
    {
        let own = Text::copy_of(alloc, own)?;
        let part = Arc::try_clone(&self.text)?;
        Ok(FullName::joined(part, own))
    }
}

// The names of parts.
fn part_names(alloc: Global, parts: &[PartTree]) -> Result<Items<PartName>, AllocError>
    ensures { IfOk result (λ names. names ≡ names_of parts.now) }
{
    let mut names = Items::new(alloc);
    for part in parts {
        names.push(PartName::copy_of(alloc, part.name.text.as_slice())?)?;
    }
    Ok(names)
}

// A name behind a dot, as that of a part without a name.
fn dotted(alloc: Global, own: &[u8]) -> Result<FullName, AllocError>
    ensures { IfOk result (λ name. name ≡ DOT ∷ own.now) }
{
    let mut bytes = Vec::from_slice(alloc, &[DOT])?;
    bytes.extend_from_slice(own)?;
    Ok(FullName::alone(Text::of(bytes)))
}

// The name of the part with this number, a dot and a name in it; the part's is empty where there is no such part.
fn joined(
    alloc: Global,
    names: &[PartName],
    number: u64,
    own: &[u8],
) -> Result<FullName, AllocError>
    ensures { IfOk result (λ name. name ≡ get_or names.now number [] ++ DOT ∷ own.now) }
{
    match names.get(number as usize) {
        None => dotted(alloc, own),
        Some(part) => part.with(alloc, own),
    }
}

// The bytes of a name.
fn bytes_of(alloc: Global, name: &FullName) -> Result<Text, AllocError>
    ensures { IfOk result (λ text. text ≡ name.now) }
{
    let pieces = name.pieces();
    let mut bytes = Vec::from_slice(alloc, pieces.part)?;
    bytes.extend_from_slice(pieces.dot)?;
    bytes.extend_from_slice(pieces.own)?;
    Ok(Text::of(bytes))
}

fn spelled_name(alloc: Global, names: &[PartName], name: &FullName) -> Result<FullName, AllocError>
    ensures { IfOk result (λ told. told ≡ spelled names.now name.now) }
{
    let text = bytes_of(alloc, name)?;
    let bytes = text.as_slice();
    if !is_numbered(bytes) {
        return Ok(FullName::alone(text));
    }
    joined(alloc, names, number_in(bytes), own_name(bytes))
}

fn spelled_names(
    alloc: Global,
    parts: &[PartName],
    names: &[FullName],
) -> Result<Items<FullName>, AllocError>
    ensures { IfOk result (λ told. told ≡ map (spelled parts.now) names.now) }
{
    let mut told = Items::new(alloc);
    for name in names {
        told.push(spelled_name(alloc, parts, name)?)?;
    }
    Ok(told)
}

// Names of the one tree of parts, as they are spelled.
fn names_spelled(
    alloc: Global,
    parts: &[PartTree],
    names: &[FullName],
) -> Result<Items<FullName>, AllocError>
    ensures { IfOk result (λ told. told ≡ map (spelled (names_of parts.now)) names.now) }
{
    let parts = part_names(alloc, parts)?;
    let told = spelled_names(alloc, parts.as_slice(), names);
    drop(parts);
    told
}

/// A module of the one tree of parts, with its names as they are spelled; the names in one part share the part's name.
/// `AllocError`: out of memory.
pub(crate) fn spelled_module(
    alloc: Global,
    parts: &[PartTree],
    found: Module,
) -> Result<Module, AllocError>
    ensures { IfOk result (λ m. m ≡ with_names (map (spelled (names_of parts.now)) found.names) found) }
{
    match names_spelled(alloc, parts, found.names.as_slice()) {
        Ok(names) => {
            let mut module = found;
            module.names = names;
            Ok(module)
        }
        Err(error) => {
            // Let go where the function ends, its variants would each be a way through the function.
            drop(found);
            Err(error)
        }
    }
}
