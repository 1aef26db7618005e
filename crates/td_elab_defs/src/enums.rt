//! Enums.

ghost use Rattle.std.specs.Prelude.{◌≡◌, OnOk, IfOk, Some, []};
ghost use Rattle.td_core.specs.Formed.{scalar_of};
ghost use Rattle.td_elab_rules.specs.Breach.{first_of};
ghost use Rattle.td_elab_rules.specs.Known.{no_scope};
ghost use Rattle.td_elab_rules.specs.Enums.{next_value, item_value, item_place, value_breaches, is_item_past, item_breaches, items_breaches, items_after, item_values, enum_breaches, after_enum};

use crate::constants::{
    check_constant, check_global, check_literal, constant_span, constant_value, declare, is_past,
    number_or_zero,
};
use crate::numbers::{add_value, is_value_among, next_place};
use crate::scopes::no_scope;
use std::alloc::{AllocError, Global};
use td_ast::definitions::{EnumTree, ItemTree};
use td_ast::names::ConstTree;
use td_ast::token::Span;
use td_core::expressions::Scalar;
use td_elab_actions::scopes::scalar_of;
use td_elab_exprs::findings::Findings;
use td_elab_rules::breach::Rule;
use td_elab_rules::known::{Known, Meaning, Scope};
use td_names::numbers::Numbers;
use td_num::items::Items;
use td_num::number::NumberType;

/// The number after one; none past 2^64 - 1.
fn next_value(value: Option<u64>) -> Option<u64>
    ensures { result ≡ next_value value }
{
    match value {
        Some(n) => n.checked_add(1),
        None => None,
    }
}

/// The value of an item: the written one, or the next.
fn item_value(known: &Known, outside: &Scope, next: Option<u64>, tree: &ItemTree) -> Option<u64>
    requires { outside.now ≡ no_scope }
    ensures { result ≡ item_value known.now next tree.now }
{
    match &tree.value {
        Some(constant) => constant_value(known, outside, constant),
        None => next,
    }
}

/// Where a breach of the value of an item stands.
fn item_place(tree: &ItemTree) -> Span
    ensures { result ≡ item_place tree.now }
{
    match &tree.value {
        Some(constant) => constant_span(constant),
        None => tree.name.span,
    }
}

/// Whether the value of an item doesn't fit the base.
fn is_item_past(
    known: &Known,
    outside: &Scope,
    base: Scalar,
    next: Option<u64>,
    tree: &Option<ConstTree>,
) -> bool
    requires { outside.now ≡ no_scope }
    ensures { result ≡ is_item_past known.now base next tree.now }
{
    match tree {
        Some(constant) => is_past(base, constant_value(known, outside, constant)),
        None => next.is_none() || is_past(base, next),
    }
}

/// Notes what a written value breaks.
fn check_value(known: &Known, outside: &Scope, tree: &Option<ConstTree>, findings: &mut Findings)
    requires { outside.now ≡ no_scope }
    ensures { findings.new.first ≡ first_of findings.old.first (value_breaches known.now tree.now) }
{
    if let Some(constant) = tree {
        check_constant(known, outside, constant, findings);
    }
}

/// Notes what an item breaks, after values that were given before.
#[tactic(auto, using(td_elab_exprs::proofs::Steps::first_append))]
fn check_item(
    known: &Known,
    outside: &Scope,
    base: NumberType,
    before: &Numbers,
    next: Option<u64>,
    tree: &ItemTree,
    findings: &mut Findings,
)
    requires { outside.now ≡ no_scope }
    ensures { findings.new.first ≡ first_of findings.old.first (item_breaches known.now base before.now next tree.now) }
{
    check_literal(known, &tree.name, findings);
    check_value(known, outside, &tree.value, findings);
    let value = item_value(known, outside, next, tree);
    let place = item_place(tree);
    findings.note_if(is_value_among(before, value), Rule::Twice, place);
    let is_past = is_item_past(known, outside, scalar_of(base.width), next, &tree.value);
    findings.note_if(is_past, Rule::Narrowing, place);
}

/// The values of items, whose names are then known. `AllocError`: out of memory.
fn items(
    alloc: Global,
    known: &mut Known,
    outside: &Scope,
    base: NumberType,
    trees: &[ItemTree],
    findings: &mut Findings,
) -> Result<Items<u64>, AllocError>
    requires { outside.now ≡ no_scope }
    ensures values { IfOk result (λ vs. vs ≡ item_values known.old (Some 0) trees.now) }
    ensures first { OnOk result (findings.new.first ≡ first_of findings.old.first (items_breaches known.old base [] (Some 0) trees.now)) }
    ensures known { OnOk result (known.new ≡ items_after known.old (Some 0) trees.now) }
{
    let mut before = Numbers::new(alloc);
    let mut numbers = Items::new(alloc);
    let mut next = Some(0);
    for tree in trees {
        check_item(known, outside, base, &before, next, tree, findings);
        let value = item_value(known, outside, next, tree);
        let number = number_or_zero(value);
        declare(
            alloc,
            known,
            tree.name.text.as_slice(),
            Meaning::Member(number),
        )?;
        add_value(&mut before, value)?;
        numbers.push(number)?;
        next = next_value(value);
    }
    Ok(numbers)
}

/// What is known after an enum. `AllocError`: out of memory.
#[tactic(auto, using(td_elab_exprs::proofs::Steps::first_append))]
pub fn enumerate(
    alloc: Global,
    known: &mut Known,
    tree: &EnumTree,
    findings: &mut Findings,
) -> Result<(), AllocError>
    ensures known { OnOk result (known.new ≡ after_enum known.old tree.now) }
    ensures first { OnOk result (findings.new.first ≡ first_of findings.old.first (enum_breaches known.old tree.now)) }
{
    let count = next_place(known.count as usize + 1)?;
    let place = next_place(known.listed.len())?;
    check_global(known, &tree.name, findings);
    let meaning = Meaning::Enum(tree.base.number, place);
    declare(alloc, known, tree.name.text.as_slice(), meaning)?;
    let outside = no_scope(alloc);
    let values = items(
        alloc,
        known,
        &outside,
        tree.base.number,
        tree.items.as_slice(),
        findings,
    );
    // Where a scope is let go, each of its parts is a step of every way after it. By a call it is one step.
    drop(outside);
    let values = values?;
    known.listed.push(values)?;
    known.count = count;
    Ok(())
}
