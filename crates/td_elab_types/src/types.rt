//! Types of fields.

ghost use Rattle.std.specs.Prelude.{◌≡◌, ◌<◌, length, IfOk, OnErr, OnOk};
ghost use Rattle.td_elab_rules.specs.Breach.{first_of};
ghost use Rattle.td_elab_rules.specs.Types.{same_order, same_number, number_found, number_type, is_byte, found_breaches, type_breaches, found_element, element_of};
ghost use Rattle.td_elab_types.specs.Memory.{HasArguments};

use crate::arguments::{apply, check_applied};
use std::alloc::{AllocError, Global};
use td_ast::expressions::Expr;
use td_ast::fields::{TypeKind, TypeTree};
use td_ast::token::Span;
use td_core::module::Element;
use td_elab_exprs::findings::Findings;
use td_elab_exprs::look_up::look_up;
use td_elab_rules::breach::Rule;
use td_elab_rules::known::{Found, Known, Meaning, Scope};
use td_num::number::{ByteOrder, NumberType, Width, byte_count};

/// Whether both are of one byte order.
fn same_order(a: ByteOrder, b: ByteOrder) -> bool
    ensures { result ≡ same_order a b }
{
    match a {
        ByteOrder::LittleEndian => match b {
            ByteOrder::LittleEndian => true,
            ByteOrder::BigEndian => false,
        },
        ByteOrder::BigEndian => match b {
            ByteOrder::LittleEndian => false,
            ByteOrder::BigEndian => true,
        },
    }
}

/// Whether both are one number type.
pub fn same_number(a: NumberType, b: NumberType) -> bool
    ensures { result ≡ same_number a b }
{
    byte_count(a.width) == byte_count(b.width) && same_order(a.order, b.order)
}

/// The number type that a name stands for.
fn number_found(found: Found) -> Option<NumberType>
    ensures { result ≡ number_found found }
{
    match found {
        Found::Global(Meaning::Number(number)) => Some(number),
        _ => None,
    }
}

/// The number type that a type is, or stands for.
pub fn number_type(known: &Known, scope: &Scope, tree: &TypeTree) -> Option<NumberType>
    ensures { result ≡ number_type known.now scope.now tree.now }
{
    match &tree.kind {
        TypeKind::Number(number) => Some(*number),
        TypeKind::Unit | TypeKind::AllBytes | TypeKind::AllZeros => None,
        TypeKind::Named(name, _) => number_found(look_up(known, scope, name.as_slice())),
    }
}

/// Whether it is `UINT8`.
pub fn is_byte(number: Option<NumberType>) -> bool
    ensures { result ≡ is_byte number }
{
    let byte = NumberType {
        width: Width::One,
        order: ByteOrder::LittleEndian,
    };
    match number {
        Some(number) => same_number(number, byte),
        None => false,
    }
}

/// The element of what a type's name stands for, with its arguments; its breaches are noted. `AllocError`: there is an
/// argument, and out of memory.
fn named(
    alloc: Global,
    known: &Known,
    scope: &Scope,
    found: Found,
    at: Span,
    args: &[Expr],
    findings: &mut Findings,
) -> Result<Element, AllocError>
    ensures memory { OnErr result (0 < length args.now) }
    ensures core { IfOk result (λ e. e ≡ found_element known.now scope.now found args.now) }
    ensures first { OnOk result (findings.new.first ≡ first_of findings.old.first (found_breaches known.now scope.now found at args.now)) }
{
    match found {
        Found::Global(Meaning::Number(number)) => {
            check_applied(known, scope, at, &[], args, findings);
            Ok(Element::Number(number))
        }
        Found::Global(Meaning::Enum(base, values)) => {
            check_applied(known, scope, at, &[], args, findings);
            Ok(Element::Listed { base, values })
        }
        Found::Global(Meaning::Type(place)) => apply(
            alloc, known, scope, place, at, args, findings,
        ),
        Found::Nothing => {
            findings.note(Rule::Unknown, at);
            Ok(Element::Unit)
        }
        Found::Local(_) | Found::Global(_) => {
            findings.note(Rule::Mismatch, at);
            Ok(Element::Unit)
        }
    }
}

/// The element of a type; its breaches are noted. `AllocError`: the type has arguments, and out of memory.
pub fn element(
    alloc: Global,
    known: &Known,
    scope: &Scope,
    tree: &TypeTree,
    findings: &mut Findings,
) -> Result<Element, AllocError>
    ensures memory { OnErr result (HasArguments tree.now.kind) }
    ensures core { IfOk result (λ e. e ≡ element_of known.now scope.now tree.now) }
    ensures first { OnOk result (findings.new.first ≡ first_of findings.old.first (type_breaches known.now scope.now tree.now)) }
{
    match &tree.kind {
        TypeKind::Number(number) => Ok(Element::Number(*number)),
        TypeKind::Unit => Ok(Element::Unit),
        TypeKind::AllBytes => Ok(Element::Rest),
        TypeKind::AllZeros => Ok(Element::Zeros),
        TypeKind::Named(name, args) => {
            let found = look_up(known, scope, name.as_slice());
            named(
                alloc,
                known,
                scope,
                found,
                tree.span,
                args.as_slice(),
                findings,
            )
        }
    }
}
