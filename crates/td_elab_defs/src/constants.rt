//! What stands at a constant's place, and distinct names.

ghost use Rattle.std.specs.Prelude.{◌≡◌, ◌+◌, ◌-◌, ◌^◌, ◌≤◌, ◌⊎◌, false, is_some, OnErr, OnOk};
ghost use Rattle.td_names.specs.Names.{looked_up};
ghost use Rattle.td_elab_rules.specs.Breach.{first_of};
ghost use Rattle.td_elab_rules.specs.Constants.{global_breaches, literal_breaches, with_global, found_number, constant_value, constant_span, number_name_breaches, constant_breaches, number_or_zero, is_past};
ghost use Rattle.td_elab_rules.specs.Definitions.{after_define};

use crate::numbers::next_place;
use std::alloc::{AllocError, Global};
use td_ast::definitions::DefineTree;
use td_ast::names::{ConstTree, Name};
use td_ast::token::Span;
use td_core::expressions::Scalar;
use td_elab_exprs::findings::Findings;
use td_elab_exprs::look_up::{is_nothing, look_up};
use td_elab_exprs::sorts::fits;
use td_elab_rules::breach::Rule;
use td_elab_rules::known::{Found, Known, Meaning, Scope};

/// Notes a name of a definition that was given before.
pub fn check_global(known: &Known, name: &Name, findings: &mut Findings)
    ensures { findings.new.first ≡ first_of findings.old.first (global_breaches known.now name.now) }
{
    let is_given = known.globals.contains(name.text.as_slice());
    findings.note_if(is_given, Rule::Twice, name.span);
}

/// Notes a name of a constant or member that was given before.
pub fn check_literal(known: &Known, name: &Name, findings: &mut Findings)
    ensures { findings.new.first ≡ first_of findings.old.first (literal_breaches known.now name.now) }
{
    let text = name.text.as_slice();
    let is_given = known.globals.contains(text) || known.used.contains(text);
    findings.note_if(is_given, Rule::Twice, name.span);
}

/// One more name of a definition, constant or member. `AllocError`: it isn't known yet, and out of memory.
pub fn declare(
    alloc: Global,
    known: &mut Known,
    name: &[u8],
    meaning: Meaning,
) -> Result<(), AllocError>
    ensures known { OnOk result (known.new ≡ with_global known.old name.now meaning) }
    ensures unseen { OnErr result (is_some (looked_up known.old.globals name.now) ≡ false) }
{
    known.globals.declare(alloc, name, meaning)
}

/// The number that a name stands for.
fn found_number(found: Found) -> Option<u64>
    ensures { result ≡ found_number found }
{
    match found {
        Found::Global(Meaning::Constant(n) | Meaning::Member(n)) => Some(n),
        _ => None,
    }
}

/// The value at a constant's place, where there is one.
pub fn constant_value(known: &Known, scope: &Scope, tree: &ConstTree) -> Option<u64>
    ensures { result ≡ constant_value known.now scope.now tree.now }
{
    match tree {
        ConstTree::Number(n) => Some(n.value),
        ConstTree::Named(n) => found_number(look_up(known, scope, n.text.as_slice())),
    }
}

/// The place of a constant.
pub fn constant_span(tree: &ConstTree) -> Span
    ensures { result ≡ constant_span tree.now }
{
    match tree {
        ConstTree::Number(n) => n.span,
        ConstTree::Named(n) => n.span,
    }
}

/// Notes what a constant breaks.
#[tactic(auto, using(td_elab_exprs::proofs::Steps::first_append))]
pub fn check_constant(known: &Known, scope: &Scope, tree: &ConstTree, findings: &mut Findings)
    ensures { findings.new.first ≡ first_of findings.old.first (constant_breaches known.now scope.now tree.now) }
{
    if let ConstTree::Named(n) = tree {
        let found = look_up(known, scope, n.text.as_slice());
        check_number_name(found, n.span, findings);
    }
}

/// Notes a name that isn't known, or stands for no number.
#[tactic(auto, using(td_elab_exprs::proofs::Steps::first_append))]
fn check_number_name(found: Found, at: Span, findings: &mut Findings)
    ensures { findings.new.first ≡ first_of findings.old.first (number_name_breaches found at) }
{
    findings.note_if(is_nothing(found), Rule::Unknown, at);
    let is_number = found_number(found).is_some();
    findings.note_if(!is_nothing(found) && !is_number, Rule::NotConstant, at);
}

/// Whether a number doesn't fit a type.
pub fn is_past(scalar: Scalar, value: Option<u64>) -> bool
    ensures { result ≡ is_past scalar value }
{
    match value {
        Some(n) => !fits(n, scalar),
        None => false,
    }
}

/// The number, or 0.
pub fn number_or_zero(value: Option<u64>) -> u64
    ensures { result ≡ number_or_zero value }
{
    match value {
        Some(n) => n,
        None => 0,
    }
}

/// What is known after a constant. `AllocError`: its name isn't known yet, and out of memory, or with it there are
/// 2^32 - 1 definitions or more.
pub fn define(alloc: Global, known: &mut Known, tree: &DefineTree) -> Result<(), AllocError>
    ensures known { OnOk result (known.new ≡ after_define known.old tree.now) }
    ensures cause { OnErr result ((is_some (looked_up known.old.globals tree.now.name.text) ≡ false) ⊎ (2 ^ 32 - 1 ≤ known.old.count + 1)) }
{
    let count = next_place(known.count as usize + 1)?;
    let meaning = Meaning::Constant(tree.value.value);
    declare(alloc, known, tree.name.text.as_slice(), meaning)?;
    known.count = count;
    Ok(())
}
