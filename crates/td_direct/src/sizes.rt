//! Which definitions are passed over without a look: structs without a `where`, of fields of constant size that aren't
//! tested, read, copied or named.

ghost use Rattle.std.specs.Prelude.{◌≡◌, ℕ, ◌+◌, ◌<◌, ◌≤◌, List, length, IfOk, OnErr, IfSome, true, false, Some};
ghost use Rattle.td_core.specs.Outcome.{accepted};
ghost use Rattle.td_core.specs.Term.{number};
ghost use Rattle.td_direct.specs.Imports.{Scalar};
ghost use Rattle.td_meaning.specs.Words64.{below, definition_meaning};
ghost use Rattle.td_meaning.specs.Naming.{element_names, extent_names};
ghost use Rattle.td_direct.specs.Passing.{AreSizes, ArePlainParts, IsShapePassed, IsQuiet, AreQuiet};

use crate::passing::{Types, passed_size, passes_all};
use std::alloc::{AllocError, Global};
use td_core::expressions::{CoreExpr, Node};
use td_core::module::{Body, Element, Extent, Field, Module, Part, TypeDef};
use td_meaning::arrays::{divides, equals};

// The number that a literal is.
fn literal(e: &CoreExpr) -> Option<u64>
    ensures { IfSome result (λ n. (w : Scalar) × (e.now ≡ number n w)) }
{
    match &e.node {
        Node::Number { value, .. } => Some(*value),
        _ => None,
    }
}

// The size of what stands in a field, where it may be passed over without a look.
fn passed_shape(types: &Types, bound: usize, element: &Element, extent: &Extent) -> Option<u64>
    ensures shape { IfSome result (λ size. IsShapePassed types.now.module.now bound element.now extent.now size) }
    ensures names { IfSome result (λ size. (i : ℕ) → extent_names i extent.now ≡ false) }
{
    match extent {
        Extent::Once => passed_size(types, bound, element),
        Extent::Filling { size, step } => {
            let size = literal(size)?;
            if divides(*step, size) && passes_all(passed_size(types, bound, element), size) {
                Some(size)
            } else {
                None
            }
        }
        Extent::OnceFilling { size, step } => {
            let size = literal(size)?;
            let one = passed_size(types, bound, element)?;
            if equals(*step, size) && one == size {
                Some(size)
            } else {
                None
            }
        }
        Extent::UpToZero { .. } => None,
        Extent::Given(_) => None,
    }
}

// Whether an element names no value.
fn names_nothing(element: &Element) -> bool
    ensures { result ≡ true → (i : ℕ) → element_names i element.now ≡ false }
{
    match element {
        Element::Named { args, .. } => args.as_slice().is_empty(),
        _ => true,
    }
}

// Whether parts have neither a test nor an action.
fn are_plain(parts: &[Part]) -> bool
    ensures { result ≡ true → ArePlainParts parts.now }
{
    let Some((part, parts)) = parts.split_first() else {
        return true;
    };
    part.refinement.is_none() && part.action.is_none() && are_plain(parts)
}

// The size of a field that may be passed over without a look.
fn quiet_size(types: &Types, bound: usize, field: &Field) -> Option<u64>
    ensures { IfSome result (λ size. IsQuiet types.now.module.now bound field.now size) }
{
    let size = passed_shape(types, bound, &field.element, &field.extent)?;
    if field.copy.is_none() && names_nothing(&field.element) && are_plain(field.parts.as_slice()) {
        Some(size)
    } else {
        None
    }
}

// The size of fields that may be passed over without a look.
fn quiet_sum(types: &Types, bound: usize, fields: &[Field]) -> Option<u64>
    ensures { IfSome result (λ size. AreQuiet types.now.module.now bound fields.now size) }
{
    let Some((field, later)) = fields.split_first() else {
        return Some(0);
    };
    let first = quiet_size(types, bound, field)?;
    let rest = quiet_sum(types, bound, later)?;
    first.checked_add(rest)
}

// The size of a definition that may be passed over without a look, made of those below a bound.
fn passed_definition(types: &Types, bound: usize, definition: &TypeDef) -> Option<u64>
    ensures { IfSome result (λ size. (args places cells b : List ℕ) (p end : ℕ) → p + size ≤ end
        → definition_meaning types.now.module.now.listed (below types.now.module.now.listed types.now.module.now.definitions bound)
        (Some definition.now) args places cells b p end ≡ accepted (p + size) cells) }
{
    if definition.guard.is_some() {
        return None;
    }
    match &definition.body {
        Body::Struct(fields) => quiet_sum(types, bound, fields.as_slice()),
        Body::Casetype { .. } => None,
    }
}

/// For each definition of a module the size of what may be passed over without a look, where it is such a one.
/// `AllocError`: there is a definition, and there was no memory for their sizes.
pub(crate) fn sizes_of(alloc: Global, m: &Module) -> Result<Vec<Option<u64>>, AllocError>
    ensures sizes { IfOk result (λ sizes. AreSizes m.now sizes.items) }
    ensures many { IfOk result (λ sizes. length sizes.items ≡ length m.now.definitions) }
    ensures memory { OnErr result (0 < length m.now.definitions) }
{
    let definitions = m.definitions.as_slice();
    let mut sizes = Vec::new(alloc);
    for place in 0..definitions.len() {
        let size = {
            let types = Types {
                module: m,
                sizes: sizes.as_slice(),
            };
            passed_definition(&types, place, &definitions[place])
        };
        sizes.push(size)?;
    }
    Ok(sizes)
}
