//! The first operator of a definition that isn't safe.

ghost use Rattle.std.specs.Prelude.{◌≡◌, ◌≢◌, ◌<◌, ◌⊎◌, [], None, length, IfOk, OnErr};
ghost use Rattle.td_core.specs.Copying.{HasOperands};
ghost use Rattle.td_expr.specs.Safe.{first, first_unsafe};
ghost use Rattle.td_arith.specs.Memory.{HasInside};
ghost use Rattle.td_arith.specs.SafeModule.{known_after, fields_unsafe, cases_unsafe, default_unsafe, body_unsafe, definition_unsafe};

use crate::comparisons::Known;
use crate::expressions::first_of;
use crate::fields::{fields_unsafe, learn, test_unsafe};
use crate::walk::expression_unsafe;
use std::alloc::{AllocError, Global};
use td_core::expressions::CoreExpr;
use td_core::module::{Body, Case, Field, TypeDef};
use td_expr::safety::Unsafe;
use td_num::items::Items;

/// The first operator of a struct or a casetype that isn't safe. `AllocError`: it has a `where`, a field, a switch with
/// operands, a case or a `default`, and there was no memory to look at it.
pub(crate) fn definition_unsafe(
    alloc: Global,
    definition: &TypeDef,
) -> Result<Option<Unsafe>, AllocError>
    ensures first { IfOk result (λ u. u ≡ definition_unsafe definition.now) }
    ensures memory { OnErr result ((definition.now.guard ≢ None) ⊎ HasInside definition.now.body) }
{
    let mut known: Vec<Known> = Vec::new(alloc);
    let guard = test_unsafe(alloc, &definition.guard, &mut known)?;
    let level = definition.params.len() as u64;
    let body = body_unsafe(alloc, level, &definition.guard, &definition.body)?;
    Ok(first_of(guard, body))
}

/// Fields where a definition's `where` is known, and so many values are in scope.
fn fields_under(
    alloc: Global,
    level: u64,
    guard: &Option<CoreExpr>,
    fields: &[Field],
) -> Result<Option<Unsafe>, AllocError>
    ensures first { IfOk result (λ u. u ≡ fields_unsafe level (known_after [] guard.now) fields.now) }
    ensures memory { OnErr result ((guard.now ≢ None) ⊎ (0 < length fields.now)) }
{
    let mut known: Vec<Known> = Vec::new(alloc);
    learn(guard, &mut known)?;
    fields_unsafe(alloc, level, fields, &mut known)
}

fn switch_unsafe(
    alloc: Global,
    guard: &Option<CoreExpr>,
    switch: &CoreExpr,
) -> Result<Option<Unsafe>, AllocError>
    ensures first { IfOk result (λ u. u ≡ first_unsafe (known_after [] guard.now) switch.now) }
    ensures memory { OnErr result ((guard.now ≢ None) ⊎ HasOperands switch.now) }
{
    let mut known: Vec<Known> = Vec::new(alloc);
    learn(guard, &mut known)?;
    expression_unsafe(alloc, switch, &mut known)
}

fn cases_unsafe(
    alloc: Global,
    level: u64,
    guard: &Option<CoreExpr>,
    cases: &[Case],
) -> Result<Option<Unsafe>, AllocError>
    ensures first { IfOk result (λ u. u ≡ cases_unsafe level (known_after [] guard.now) cases.now) }
    ensures memory { OnErr result (0 < length cases.now) }
{
    let mut found = None;
    for case in cases {
        let own = fields_under(alloc, level, guard, case.fields.as_slice())?;
        found = first_of(found, own);
    }
    Ok(found)
}

fn default_unsafe(
    alloc: Global,
    level: u64,
    guard: &Option<CoreExpr>,
    default: &Option<Items<Field>>,
) -> Result<Option<Unsafe>, AllocError>
    ensures first { IfOk result (λ u. u ≡ default_unsafe level (known_after [] guard.now) default.now) }
    ensures memory { OnErr result (default.now ≢ None) }
{
    match default {
        Some(fields) => fields_under(alloc, level, guard, fields.as_slice()),
        None => Ok(None),
    }
}

/// The switch, the cases and `default`, each where `where` is known.
fn casetype_unsafe(
    alloc: Global,
    level: u64,
    guard: &Option<CoreExpr>,
    switch: &CoreExpr,
    cases: &[Case],
    default: &Option<Items<Field>>,
) -> Result<Option<Unsafe>, AllocError>
    ensures first { IfOk result (λ u. u ≡ first (first_unsafe (known_after [] guard.now) switch.now)
        (first (cases_unsafe level (known_after [] guard.now) cases.now) (default_unsafe level
        (known_after [] guard.now) default.now))) }
    ensures memory { OnErr result ((guard.now ≢ None)
        ⊎ (HasOperands switch.now ⊎ ((0 < length cases.now) ⊎ (default.now ≢ None)))) }
{
    let own = switch_unsafe(alloc, guard, switch)?;
    let inside = cases_unsafe(alloc, level, guard, cases)?;
    let otherwise = default_unsafe(alloc, level, guard, default)?;
    Ok(first_of(own, first_of(inside, otherwise)))
}

fn body_unsafe(
    alloc: Global,
    level: u64,
    guard: &Option<CoreExpr>,
    body: &Body,
) -> Result<Option<Unsafe>, AllocError>
    ensures first { IfOk result (λ u. u ≡ body_unsafe level (known_after [] guard.now) body.now) }
    ensures memory { OnErr result ((guard.now ≢ None) ⊎ HasInside body.now) }
{
    match body {
        Body::Struct(fields) => fields_under(alloc, level, guard, fields.as_slice()),
        Body::Casetype {
            switch,
            cases,
            default,
        } => casetype_unsafe(alloc, level, guard, switch, cases.as_slice(), default),
    }
}
