//! The first operator of fields that isn't safe.

ghost use Rattle.std.specs.Prelude.{◌≡◌, ◌≢◌, ◌+◌, ◌<◌, None, length, IfOk, OnOk, OnErr, IsSomeAnd};
ghost use Rattle.td_core.specs.Copying.{HasOperands};
ghost use Rattle.td_arith.specs.Known.{facts_in};
ghost use Rattle.td_arith.specs.SafeModule.{option_unsafe, known_after, list_unsafe, element_unsafe, part_unsafe, parts_unsafe, known_after_parts, room_unsafe, copy_unsafe, field_unsafe, known_after_field, fields_unsafe};

use crate::actions::action_unsafe;
use crate::comparisons::Known;
use crate::expressions::first_of;
use crate::learning::{learn_condition, learn_part};
use crate::values::{ValueRange, look_at_extent};
use crate::walk::{expression_unsafe, passes};
use std::alloc::{AllocError, Global};
use td_core::expressions::CoreExpr;
use td_core::module::{CopyOut, Element, Extent, Field, Part};
use td_expr::safety::Unsafe;

/// The first operator of a test that isn't safe, where there is a test. On `Ok` what is known is as before. `AllocError`:
/// there is a test with operands, and there was no memory to look at them.
pub(crate) fn test_unsafe<'a>(
    alloc: Global,
    test: &'a Option<CoreExpr>,
    known: &mut Vec<Known<'a>>,
) -> Result<Option<Unsafe>, AllocError>
    ensures first { IfOk result (λ u. u ≡ option_unsafe (facts_in known.old.items) test.now) }
    ensures same { OnOk result (known.new.items ≡ known.old.items) }
    ensures memory { OnErr result (IsSomeAnd test.now (λ e. HasOperands e)) }
{
    match test {
        Some(e) => expression_unsafe(alloc, e, known),
        None => Ok(None),
    }
}

/// Adds what is known once a test passed. `AllocError`: there is a test, and there was no memory for it.
pub fn learn<'a>(test: &'a Option<CoreExpr>, known: &mut Vec<Known<'a>>) -> Result<(), AllocError>
    ensures known { OnOk result (facts_in known.new.items ≡ known_after (facts_in known.old.items) test.now) }
    ensures memory { OnErr result (test.now ≢ None) }
{
    if let Some(condition) = test {
        learn_condition(true, condition, known)?;
    }
    Ok(())
}

/// The first operator of fields that isn't safe where conditions are known to hold and so many values are in scope. What is known
/// afterwards is of no further use. `AllocError`: there is a field, and there was no memory to look, or 2^64 values or more are in
/// scope.
pub(crate) fn fields_unsafe<'a>(
    alloc: Global,
    level: u64,
    fields: &'a [Field],
    known: &mut Vec<Known<'a>>,
) -> Result<Option<Unsafe>, AllocError>
    ensures first { IfOk result (λ u. u ≡ fields_unsafe level (facts_in known.old.items) fields.now) }
    ensures memory { OnErr result (0 < length fields.now) }
{
    let mut found = None;
    let mut here = level;
    for field in fields {
        let own = field_unsafe(alloc, here, field, known)?;
        found = first_of(found, own);
        here = next_level(here, field.parts.len() as u64)?;
    }
    Ok(found)
}

/// The arguments of a type that is named.
fn args_unsafe<'a>(
    alloc: Global,
    args: &'a [CoreExpr],
    known: &mut Vec<Known<'a>>,
) -> Result<Option<Unsafe>, AllocError>
    ensures first { IfOk result (λ u. u ≡ list_unsafe (facts_in known.old.items) args.now) }
    ensures same { OnOk result (known.new.items ≡ known.old.items) }
{
    let mut found = None;
    for e in args {
        let own = expression_unsafe(alloc, e, known)?;
        found = first_of(found, own);
    }
    Ok(found)
}

fn element_unsafe<'a>(
    alloc: Global,
    element: &'a Element,
    known: &mut Vec<Known<'a>>,
) -> Result<Option<Unsafe>, AllocError>
    ensures first { IfOk result (λ u. u ≡ element_unsafe (facts_in known.old.items) element.now) }
    ensures same { OnOk result (known.new.items ≡ known.old.items) }
{
    match element {
        Element::Named { args, .. } => args_unsafe(alloc, args.as_slice(), known),
        _ => Ok(None),
    }
}

/// A part's refinement, and then its action, where the refinement is known.
fn part_unsafe<'a>(
    alloc: Global,
    part: &'a Part,
    known: &mut Vec<Known<'a>>,
) -> Result<Option<Unsafe>, AllocError>
    ensures first { IfOk result (λ u. u ≡ part_unsafe (facts_in known.old.items) part.now) }
    ensures learned { OnOk result (facts_in known.new.items ≡
        known_after (facts_in known.old.items) part.now.refinement) }
{
    let own = test_unsafe(alloc, &part.refinement, known)?;
    learn(&part.refinement, known)?;
    let acted = action_unsafe(alloc, &part.action, known)?;
    Ok(first_of(own, acted))
}

/// The next level. `AllocError`: there are 2^64 values in scope.
fn next_level(level: u64, more: u64) -> Result<u64, AllocError>
    ensures { IfOk result (λ n. n ≡ level + more) }
{
    level.checked_add(more).ok_or(AllocError)
}

/// The parts of a field, of which the first has this level. What is known of its value, and their refinements, are known from then
/// on.
fn parts_unsafe<'a>(
    alloc: Global,
    level: u64,
    range: Option<ValueRange>,
    parts: &'a [Part],
    known: &mut Vec<Known<'a>>,
) -> Result<Option<Unsafe>, AllocError>
    ensures first { IfOk result (λ u. u ≡ parts_unsafe level (facts_in known.old.items) range parts.now) }
    ensures learned { OnOk result (facts_in known.new.items ≡
        known_after_parts level (facts_in known.old.items) range parts.now) }
{
    let mut found = None;
    let mut here = level;
    for part in parts {
        learn_part(here, range, part.bits, known)?;
        let own = part_unsafe(alloc, part, known)?;
        found = first_of(found, own);
        here = next_level(here, 1)?;
    }
    Ok(found)
}

/// A copy as a finding, where its bytes may pass the room.
fn room_of(copy: CopyOut, passes: bool) -> Option<Unsafe>
    ensures { result ≡ room_unsafe copy passes }
{
    if passes {
        Some(Unsafe::Room { span: copy.span })
    } else {
        None
    }
}

/// A copy of an array by bytes.
fn copy_unsafe<'a>(
    alloc: Global,
    copy: Option<CopyOut>,
    extent: &'a Extent,
    known: &mut Vec<Known<'a>>,
) -> Result<Option<Unsafe>, AllocError>
    ensures first { IfOk result (λ u. u ≡ copy_unsafe (facts_in known.old.items) copy extent.now) }
    ensures same { OnOk result (known.new.items ≡ known.old.items) }
{
    match (copy, extent) {
        (Some(c), Extent::Filling { size, .. }) => {
            let greater = passes(alloc, c.room, size, known)?;
            Ok(room_of(c, greater))
        }
        _ => Ok(None),
    }
}

/// A field: its element's arguments, its size or value, its copy, its parts, of which the first has this level.
fn field_unsafe<'a>(
    alloc: Global,
    level: u64,
    field: &'a Field,
    known: &mut Vec<Known<'a>>,
) -> Result<Option<Unsafe>, AllocError>
    ensures first { IfOk result (λ u. u ≡ field_unsafe level (facts_in known.old.items) field.now) }
    ensures learned { OnOk result (facts_in known.new.items ≡
        known_after_field level (facts_in known.old.items) field.now) }
{
    let element = element_unsafe(alloc, &field.element, known)?;
    let extent = look_at_extent(alloc, &field.element, &field.extent, known)?;
    let copy = copy_unsafe(alloc, field.copy, &field.extent, known)?;
    let parts = parts_unsafe(alloc, level, extent.range, field.parts.as_slice(), known)?;
    Ok(first_of(element, first_of(extent.unsafe_at, first_of(copy, parts))))
}
