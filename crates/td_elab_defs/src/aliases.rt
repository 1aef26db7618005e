//! Other names for types.

ghost use Rattle.std.specs.Prelude.{◌≡◌, ◌+◌, ◌-◌, ◌^◌, ◌≤◌, ◌⊎◌, false, is_some, OnErr, OnOk};
ghost use Rattle.td_names.specs.Names.{looked_up};
ghost use Rattle.td_elab_rules.specs.Breach.{first_of};
ghost use Rattle.td_elab_rules.specs.Known.{no_scope, signature_at};
ghost use Rattle.td_elab_rules.specs.Aliases.{plain_type, alias_found, alias_meaning, target_name_breaches, target_breaches, meaning_or_none, alias_breaches, after_alias};

use crate::constants::{check_global, declare};
use crate::numbers::next_place;
use crate::scopes::no_scope;
use std::alloc::{AllocError, Global};
use td_ast::definitions::AliasTree;
use td_ast::names::PlainTree;
use td_ast::token::Span;
use td_elab_exprs::findings::Findings;
use td_elab_exprs::look_up::{is_nothing, look_up, signature_at};
use td_elab_rules::breach::Rule;
use td_elab_rules::known::{Found, Known, Meaning, Scope};

/// What another name for what was found stands for.
fn alias_found(known: &Known, found: Found) -> Option<Meaning>
    ensures { result ≡ alias_found known.now found }
{
    match found {
        Found::Global(Meaning::Number(number)) => Some(Meaning::Number(number)),
        Found::Global(Meaning::Enum(base, place)) => Some(Meaning::Enum(base, place)),
        Found::Global(Meaning::Type(place)) => plain_type(known, place),
        _ => None,
    }
}

/// A struct or casetype that takes nothing.
fn plain_type(known: &Known, place: u32) -> Option<Meaning>
    ensures { result ≡ plain_type place (signature_at known.now place) }
{
    match signature_at(known, place) {
        [] => Some(Meaning::Type(place)),
        _ => None,
    }
}

/// What another name for a type stands for.
fn alias_meaning(known: &Known, outside: &Scope, tree: &PlainTree) -> Option<Meaning>
    requires { outside.now ≡ no_scope }
    ensures { result ≡ alias_meaning known.now tree.now }
{
    match tree {
        PlainTree::Number(number) => Some(Meaning::Number(number.number)),
        PlainTree::Named(name) => alias_found(known, look_up(known, outside, name.text.as_slice())),
    }
}

/// Notes a target that isn't known, or is no type without parameters.
fn check_target(known: &Known, outside: &Scope, tree: &PlainTree, findings: &mut Findings)
    requires { outside.now ≡ no_scope }
    ensures { findings.new.first ≡ first_of findings.old.first (target_breaches known.now tree.now) }
{
    if let PlainTree::Named(name) = tree {
        let found = look_up(known, outside, name.text.as_slice());
        check_target_name(known, found, name.span, findings);
    }
}

/// Notes that of what was found.
#[tactic(auto, using(td_elab_exprs::proofs::Steps::first_append))]
fn check_target_name(known: &Known, found: Found, at: Span, findings: &mut Findings)
    ensures { findings.new.first ≡ first_of findings.old.first (target_name_breaches known.now found at) }
{
    findings.note_if(is_nothing(found), Rule::Unknown, at);
    let is_type = alias_found(known, found).is_some();
    findings.note_if(!is_nothing(found) && !is_type, Rule::Mismatch, at);
}

/// What the name stands for; where the rule is broken, it counts as a constant.
fn meaning_or_none(meaning: Option<Meaning>) -> Meaning
    ensures { result ≡ meaning_or_none meaning }
{
    match meaning {
        Some(meaning) => meaning,
        None => Meaning::Constant(0),
    }
}

/// What is known after another name for a type. `AllocError`: the name isn't known yet, and out of memory, or with it
/// there are 2^32 - 1 definitions or more.
#[tactic(auto, using(td_elab_exprs::proofs::Steps::first_append))]
pub fn alias(
    alloc: Global,
    known: &mut Known,
    tree: &AliasTree,
    findings: &mut Findings,
) -> Result<(), AllocError>
    ensures known { OnOk result (known.new ≡ after_alias known.old tree.now) }
    ensures cause { OnErr result ((is_some (looked_up known.old.globals tree.now.name.text) ≡ false) ⊎ (2 ^ 32 - 1 ≤ known.old.count + 1)) }
    ensures first { OnOk result (findings.new.first ≡ first_of findings.old.first (alias_breaches known.old tree.now)) }
{
    let count = next_place(known.count as usize + 1)?;
    let outside = no_scope(alloc);
    check_target(known, &outside, &tree.target, findings);
    check_global(known, &tree.name, findings);
    let meaning = meaning_or_none(alias_meaning(known, &outside, &tree.target));
    // Where a scope is let go, each of its parts is a step of every way after it. By a call it is one step.
    drop(outside);
    declare(alloc, known, tree.name.text.as_slice(), meaning)?;
    known.count = count;
    Ok(())
}
