//! Expressions as they stand in the whole text.

ghost use Rattle.std.specs.Prelude.{◌≡◌, cond, codes, map, IfOk};
ghost use Rattle.std.specs.Str.{bytes_eq};
ghost use Rattle.td_front_flat.specs.Expressions as specs;

use crate::names::{copied_name, meant, used_name};
use crate::own::Own;
use std::alloc::{AllocError, Global};
use td_ast::expressions::{Expr, ExprKind, SizeofOperand};
use td_ast::names::Name;
use td_names::names::Names;
use td_num::items::Items;

fn flat_operand(
    alloc: Global,
    own: &Own,
    scope: &Names,
    operand: &SizeofOperand,
) -> Result<SizeofOperand, AllocError>
    ensures { IfOk result (λ z. z ≡ specs.flat_operand own.now scope.now operand.now) }
{
    match operand {
        SizeofOperand::Number(number) => Ok(SizeofOperand::Number(*number)),
        SizeofOperand::Name(name) => {
            let text = meant(alloc, own, scope, name.as_slice())?;
            Ok(SizeofOperand::Name(text))
        }
        SizeofOperand::This => Ok(SizeofOperand::This),
    }
}

// A box with such an expression.
#[cycle(expression)]
fn flat_boxed(alloc: Global, own: &Own, scope: &Names, e: &Expr) -> Result<Box<Expr>, AllocError>
    ensures { IfOk result (λ boxed. boxed.value ≡ specs.flat_tree own.now scope.now e.now) }
{
    let flat = flat_tree(alloc, own, scope, e)?;
    Ok(Box::new(alloc, flat)?)
}

// Two such boxes.
#[cycle(expression)]
fn flat_two(
    alloc: Global,
    own: &Own,
    scope: &Names,
    a: &Expr,
    b: &Expr,
) -> Result<(Box<Expr>, Box<Expr>), AllocError>
    ensures { IfOk result (λ two. (two.0.value ≡ specs.flat_tree own.now scope.now a.now) × (two.1.value ≡ specs.flat_tree own.now scope.now b.now)) }
{
    let a = flat_boxed(alloc, own, scope, a)?;
    let b = flat_boxed(alloc, own, scope, b)?;
    Ok((a, b))
}

// Three such boxes.
#[cycle(expression)]
fn flat_three(
    alloc: Global,
    own: &Own,
    scope: &Names,
    a: &Expr,
    b: &Expr,
    c: &Expr,
) -> Result<(Box<Expr>, Box<Expr>, Box<Expr>), AllocError>
    ensures { IfOk result (λ three. (three.0.value ≡ specs.flat_tree own.now scope.now a.now) × (three.1.value ≡ specs.flat_tree own.now scope.now b.now) × (three.2.value ≡ specs.flat_tree own.now scope.now c.now)) }
{
    let (a, b) = flat_two(alloc, own, scope, a, b)?;
    let c = flat_boxed(alloc, own, scope, c)?;
    Ok((a, b, c))
}

/// An expression as it stands in the whole text, where these locals are in scope. `AllocError`: out of memory.
#[cycle(expression)]
pub(crate) fn flat_tree(
    alloc: Global,
    own: &Own,
    scope: &Names,
    e: &Expr,
) -> Result<Expr, AllocError>
    ensures { IfOk result (λ flat. flat ≡ specs.flat_tree own.now scope.now e.now) }
{
    let kind = match &e.kind {
        ExprKind::Number(value, base) => ExprKind::Number(*value, *base),
        ExprKind::Truth(value) => ExprKind::Truth(*value),
        ExprKind::Name(name) => ExprKind::Name(used_name(alloc, own, scope, name)?),
        ExprKind::FieldPos(at) => ExprKind::FieldPos(*at),
        ExprKind::Sizeof(at, operand, place) => {
            ExprKind::Sizeof(*at, flat_operand(alloc, own, scope, operand)?, *place)
        }
        ExprKind::RangeOkay(a, b, c) => {
            let (a, b, c) = flat_three(alloc, own, scope, a, b, c)?;
            ExprKind::RangeOkay(a, b, c)
        }
        ExprKind::Unary(operator, at, a) => {
            ExprKind::Unary(*operator, *at, flat_boxed(alloc, own, scope, a)?)
        }
        ExprKind::Binary(operator, at, a, b) => {
            let (a, b) = flat_two(alloc, own, scope, a, b)?;
            ExprKind::Binary(*operator, *at, a, b)
        }
        ExprKind::Choice(at, a, b, c) => {
            let (a, b, c) = flat_three(alloc, own, scope, a, b, c)?;
            ExprKind::Choice(*at, a, b, c)
        }
    };
    Ok(Expr { span: e.span, kind })
}

// A name that is all that stands behind a field's `=`: `bytes_left` stays.
fn given_word(alloc: Global, own: &Own, scope: &Names, name: &Name) -> Result<Name, AllocError>
    ensures { IfOk result (λ n. n ≡ cond (bytes_eq name.now.text (codes "bytes_left")) name.now (specs.used_name own.now scope.now name.now)) }
{
    if name.text.as_slice() == b"bytes_left".as_slice() {
        return copied_name(alloc, name);
    }
    used_name(alloc, own, scope, name)
}

/// What stands behind a field's `=`, as it stands in the whole text. `AllocError`: out of memory.
pub(crate) fn flat_given(
    alloc: Global,
    own: &Own,
    scope: &Names,
    e: &Expr,
) -> Result<Expr, AllocError>
    ensures { IfOk result (λ flat. flat ≡ specs.flat_given own.now scope.now e.now) }
{
    match &e.kind {
        ExprKind::Name(name) => {
            let name = given_word(alloc, own, scope, name)?;
            Ok(Expr {
                span: e.span,
                kind: ExprKind::Name(name),
            })
        }
        _ => flat_tree(alloc, own, scope, e),
    }
}

/// The same, where there is one.
pub(crate) fn flat_option(
    alloc: Global,
    own: &Own,
    scope: &Names,
    e: &Option<Expr>,
) -> Result<Option<Expr>, AllocError>
    ensures { IfOk result (λ flat. flat ≡ specs.flat_option own.now scope.now e.now) }
{
    match e {
        None => Ok(None),
        Some(e) => {
            let flat = flat_tree(alloc, own, scope, e)?;
            Ok(Some(flat))
        }
    }
}

/// The same of several.
pub(crate) fn flat_trees(
    alloc: Global,
    own: &Own,
    scope: &Names,
    es: &[Expr],
) -> Result<Items<Expr>, AllocError>
    ensures { IfOk result (λ flat. flat ≡ map (specs.flat_tree own.now scope.now) es.now) }
{
    let mut flat = Items::new(alloc);
    for e in es {
        flat.push(flat_tree(alloc, own, scope, e)?)?;
    }
    Ok(flat)
}
