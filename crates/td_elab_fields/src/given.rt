//! Fields without bytes: what gives them their value.

ghost use Rattle.std.specs.Prelude.{◌≡◌, ◌||◌, cond, is_none, None, Some, IfOk, OnErr, OnOk};
ghost use Rattle.td_core.specs.declared.module.Source.TheVariants.{Expression, Left};
ghost use Rattle.td_elab_rules.specs.Breach.{first_of};
ghost use Rattle.td_elab_rules.specs.Given.{is_left, is_shorter, tree_breaches, wider_breaches, held_breaches, element_number, tree_source, held_source, given_extent};
ghost use Rattle.td_elab_exprs.specs.Memory.{HasOperator};

use std::alloc::{AllocError, Global};
use td_ast::expressions::{Expr, ExprKind};
use td_ast::token::Span;
use td_core::expressions::CoreExpr;
use td_core::module::{Element, Extent, Source};
use td_elab_actions::cells::{check_read, check_target};
use td_elab_exprs::expressions::{number, span_of};
use td_elab_exprs::findings::Findings;
use td_elab_rules::actions::Target;
use td_elab_rules::breach::Rule;
use td_elab_rules::known::{Known, Scope};
use td_num::number::{NumberType, byte_count};

/// `bytes_left`, where it is all of an expression.
fn is_left(e: &Expr) -> bool
    ensures { result ≡ is_left e.now }
{
    match &e.kind {
        ExprKind::Name(name) => name.text.as_slice() == b"bytes_left".as_slice(),
        _ => false,
    }
}

/// Whether a number has fewer bytes than so many.
fn is_shorter(number: Option<NumberType>, bytes: u32) -> bool
    ensures { result ≡ is_shorter number bytes }
{
    match number {
        Some(number) => byte_count(number.width) < bytes,
        None => false,
    }
}

/// The type of a number that stands there.
pub(crate) fn element_number(element: &Element) -> Option<NumberType>
    ensures { result ≡ element_number element.now }
{
    match element {
        Element::Number(number) => Some(*number),
        _ => None,
    }
}

/// How many bytes are left, as the value of a number of this type.
fn left_source(number: Option<NumberType>) -> Option<Source>
    ensures { result ≡ cond (is_none number || is_shorter number 4) None (Some Left) }
{
    match number {
        Some(_) if !is_shorter(number, 4) => Some(Source::Left),
        _ => None,
    }
}

/// An expression, as the value of a number of this type.
fn expression_source(number: Option<NumberType>, span: Span, value: CoreExpr) -> Option<Source>
    ensures { result ≡ cond (is_none number) None (Some (Expression span value)) }
{
    match number {
        Some(_) => Some(Source::Expression { span, value }),
        None => {
            drop(value);
            None
        }
    }
}

/// What an expression behind `=` gives to a number, where the field's type is one; its breaches are noted. `AllocError`: it has
/// an operator or is `is_range_okay`, and out of memory.
#[tactic(auto, using(td_elab_exprs::proofs::Steps::first_append))]
pub(crate) fn tree_source(
    alloc: Global,
    known: &Known,
    scope: &Scope,
    base: Option<NumberType>,
    own: Option<NumberType>,
    e: &Expr,
    findings: &mut Findings,
) -> Result<Option<Source>, AllocError>
    ensures memory { OnErr result (HasOperator e.now) }
    ensures core { IfOk result (λ s. s ≡ tree_source known.now scope.now own e.now) }
    ensures first { OnOk result (findings.new.first ≡ first_of findings.old.first (tree_breaches known.now scope.now base e.now)) }
{
    if is_left(e) {
        findings.note_if(is_shorter(base, 4), Rule::Narrowing, span_of(e));
        return Ok(left_source(own));
    }
    let value = number(alloc, known, scope, e, findings)?.core;
    Ok(expression_source(own, span_of(e), value))
}

/// Notes a cell with more bits than the field, by the `*`.
fn check_wider(base: Option<NumberType>, target: Target, star: Span, findings: &mut Findings)
    ensures { findings.new.first ≡ first_of findings.old.first (wider_breaches base target star) }
{
    match target {
        Target::Number(_, number) => {
            let is_wider = is_shorter(base, byte_count(number.width));
            findings.note_if(is_wider, Rule::Narrowing, star);
        }
        Target::Unknown | Target::NoCell | Target::Pointer(_) => {}
    }
}

/// Notes what a cell behind `= *` breaks, where the field's type is a number.
#[tactic(auto, using(td_elab_exprs::proofs::Steps::first_append))]
pub(crate) fn check_held(
    base: Option<NumberType>,
    target: Target,
    star: Span,
    at: Span,
    findings: &mut Findings,
)
    ensures { findings.new.first ≡ first_of findings.old.first (held_breaches base target star at) }
{
    check_target(target, at, findings);
    check_read(target, star, findings);
    check_wider(base, target, star, findings);
}

/// A cell, as the value of a number of this type.
pub(crate) fn held_source(number: Option<NumberType>, target: Target) -> Option<Source>
    ensures { result ≡ held_source number target }
{
    match (number, target) {
        (Some(_), Target::Number(cell, held)) => {
            if is_shorter(number, byte_count(held.width)) {
                None
            } else {
                Some(Source::Cell(cell))
            }
        }
        _ => None,
    }
}

/// A field without bytes, where something gives its value.
pub(crate) fn given_extent(source: Option<Source>) -> Extent
    ensures { result ≡ given_extent source }
{
    match source {
        Some(source) => Extent::Given(source),
        None => Extent::Once,
    }
}
