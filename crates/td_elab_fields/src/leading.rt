//! The size of the leading fields of a struct, for `sizeof(this)`.

ghost use Rattle.std.specs.Prelude.{◌≡◌, ◌<◌, ◌≤◌, ◌+◌, ◌^◌, None, Some, IfOk, OnErr, OnOk, length};
ghost use Rattle.td_elab_rules.specs.Sorts.{size_found};
ghost use Rattle.td_elab_rules.specs.Types.{number_type, is_byte};
ghost use Rattle.td_elab_rules.specs.Leading.{holds_this, array_size, kind_size, names_type, sized, unit_size, bits_size, given_size, leading_field, leading_size};
ghost use Rattle.td_kinds.specs.declared.sizes.TheConstants.{SIZE_CAP};
ghost use Rattle.td_kinds.specs.Kinds.{up_to};
ghost use Rattle.td_elab_exprs.specs.Memory.{HasOperator};
ghost use Rattle.td_elab_actions.specs.Scopes.{Grows};

use crate::arrays::bit_width;
use crate::bit_fields::fits_room;
use crate::flat::add_field;
use std::alloc::{AllocError, Global};
use td_ast::expressions::{Expr, ExprKind, SizeofOperand};
use td_ast::fields::{ExtentTree, FieldTree, TypeKind};
use td_elab_actions::scopes::cut_back;
use td_elab_exprs::expressions::number;
use td_elab_exprs::findings::Findings;
use td_elab_exprs::look_up::{is_type, look_up, size_found};
use td_elab_rules::fields::UnitRoom;
use td_elab_rules::known::{Known, Scope};
use td_elab_types::types::{is_byte, number_type};
use td_expr::constant::constant_of;
use td_kinds::sizes::SIZE_CAP;
use td_num::number::{NumberType, byte_count};

/// Whether `sizeof(this)` is in an expression.
fn holds_this(e: &Expr) -> bool
    ensures { result ≡ holds_this e.now }
{
    match &e.kind {
        ExprKind::Number(_, _) | ExprKind::Truth(_) | ExprKind::Name(_) | ExprKind::FieldPos(_) => {
            false
        }
        ExprKind::Sizeof(_, SizeofOperand::This, _) => true,
        ExprKind::Sizeof(_, _, _) => false,
        ExprKind::RangeOkay(z, o, a) => holds_this(z) || (holds_this(o) || holds_this(a)),
        ExprKind::Unary(_, _, a) => holds_this(a),
        ExprKind::Binary(_, _, a, b) => holds_this(a) || holds_this(b),
        ExprKind::Choice(_, c, a, b) => holds_this(c) || (holds_this(a) || holds_this(b)),
    }
}

/// A size that kinds have.
fn up_to_cap(size: Option<u64>) -> Option<u64>
    ensures { result ≡ up_to SIZE_CAP size }
{
    match size {
        Some(n) if n <= SIZE_CAP => Some(n),
        _ => None,
    }
}

/// The size of an array, where it is constant and breaks no rule. `AllocError`: e has an operator or is
/// `is_range_okay`, and out of memory.
fn array_size(
    alloc: Global,
    known: &Known,
    scope: &Scope,
    e: &Expr,
) -> Result<Option<u64>, AllocError>
    ensures memory { OnErr result (HasOperator e.now) }
    ensures size { IfOk result (λ n. n ≡ array_size known.now scope.now e.now) }
{
    let mut unheard = Findings::new();
    let typing = number(alloc, known, scope, e, &mut unheard)?;
    let constant = constant_of(&typing.core);
    // by a call, as each way through its variants, where it is let go, is a way through the function
    drop(typing);
    if holds_this(e) || unheard.first.is_some() {
        return Ok(None);
    }
    Ok(up_to_cap(constant))
}

/// The size of a type, whatever its arguments.
fn kind_size(known: &Known, scope: &Scope, kind: &TypeKind) -> Option<u64>
    ensures { result ≡ kind_size known.now scope.now kind.now }
{
    match kind {
        TypeKind::Number(number) => Some(u64::from(byte_count(number.width))),
        TypeKind::Unit => Some(0),
        TypeKind::AllBytes | TypeKind::AllZeros => None,
        TypeKind::Named(name, _) => {
            up_to_cap(size_found(known, look_up(known, scope, name.as_slice())))
        }
    }
}

/// Whether it is a type.
fn names_type(known: &Known, scope: &Scope, kind: &TypeKind) -> bool
    ensures { result ≡ names_type known.now scope.now kind.now }
{
    match kind {
        TypeKind::Named(name, _) => is_type(look_up(known, scope, name.as_slice())),
        _ => true,
    }
}

/// A field of this size.
fn sized(size: Option<u64>) -> Option<(u64, Option<UnitRoom>)>
    ensures { result ≡ sized size }
{
    match size {
        Some(n) => Some((n, None)),
        None => None,
    }
}

/// Bits after a unit.
fn unit_size(room: Option<UnitRoom>, base: NumberType, width: u32) -> (u64, Option<UnitRoom>)
    ensures { Some result ≡ unit_size room base width }
{
    match room {
        Some(unit) if fits_room(room, base, width) => {
            let filled = unit.filled + width;
            let base = unit.base;
            (0, Some(UnitRoom { base, filled }))
        }
        _ => {
            let unit = UnitRoom {
                base,
                filled: width,
            };
            (u64::from(byte_count(base.width)), Some(unit))
        }
    }
}

/// A bit field after a unit.
fn bits_size(
    room: Option<UnitRoom>,
    base: Option<NumberType>,
    width: Option<u32>,
) -> Option<(u64, Option<UnitRoom>)>
    ensures { result ≡ bits_size room base width }
{
    match base {
        Some(base) => match width {
            Some(width) => Some(unit_size(room, base, width)),
            None => None,
        },
        None => None,
    }
}

/// A value that is given, which takes no bytes.
fn given_size(base: Option<NumberType>) -> Option<(u64, Option<UnitRoom>)>
    ensures { result ≡ given_size base }
{
    match base {
        Some(_) => sized(Some(0)),
        None => None,
    }
}

/// A leading field, after a unit. `AllocError`: out of memory.
fn leading_field(
    alloc: Global,
    known: &Known,
    scope: &Scope,
    room: Option<UnitRoom>,
    tree: &FieldTree,
) -> Result<Option<(u64, Option<UnitRoom>)>, AllocError>
    ensures { IfOk result (λ l. l ≡ leading_field known.now scope.now room tree.now) }
{
    if !names_type(known, scope, &tree.type_tree.kind) {
        return Ok(None);
    }
    match &tree.extent {
        None => Ok(sized(kind_size(known, scope, &tree.type_tree.kind))),
        Some(ExtentTree::Bytes(e)) => {
            if is_byte(number_type(known, scope, &tree.type_tree)) {
                Ok(sized(array_size(alloc, known, scope, e)?))
            } else {
                Ok(None)
            }
        }
        Some(ExtentTree::ByteSize(e) | ExtentTree::SingleElement(e)) => {
            Ok(sized(array_size(alloc, known, scope, e)?))
        }
        Some(ExtentTree::Zeroterm(_)) => Ok(None),
        Some(ExtentTree::Bits(_)) => {
            let base = number_type(known, scope, &tree.type_tree);
            let width = bit_width(known, scope, &tree.type_tree, &tree.extent);
            Ok(bits_size(room, base, width))
        }
        Some(ExtentTree::Given(_) | ExtentTree::OfCell(_, _)) => {
            Ok(given_size(number_type(known, scope, &tree.type_tree)))
        }
    }
}

/// The size with a field more. `AllocError`: it is 2^64 or more.
fn size_with(total: u64, size: u64) -> Result<u64, AllocError>
    ensures size { IfOk result (λ n. n ≡ total + size) }
    ensures full { OnErr result (2 ^ 64 ≤ total + size) }
{
    total.checked_add(size).ok_or(AllocError)
}

/// The size of the leading fields, which are then in scope. `AllocError`: there is a field, and out of memory, or the
/// size is 2^64 or more.
fn sum(
    alloc: Global,
    known: &Known,
    scope: &mut Scope,
    trees: &[FieldTree],
) -> Result<u64, AllocError>
    ensures size { IfOk result (λ n. n ≡ leading_size known.now scope.old None trees.now) }
    ensures scope { OnOk result (Grows scope.old scope.new) }
    ensures memory { OnErr result (0 < length trees.now) }
{
    let mut total = 0u64;
    let mut room = None;
    for tree in trees {
        match leading_field(alloc, known, scope, room, tree)? {
            Some((size, after)) => {
                total = size_with(total, size)?;
                add_field(alloc, known, scope, tree)?;
                room = after;
            }
            None => return Ok(total),
        }
    }
    Ok(total)
}

/// The size of the leading fields of a struct, with which `sizeof(this)` stands. The scope is then as before.
/// `AllocError`: there is a field, and out of memory, or the size is 2^64 or more.
pub fn leading_size(
    alloc: Global,
    known: &Known,
    scope: &mut Scope,
    trees: &[FieldTree],
) -> Result<u64, AllocError>
    ensures size { IfOk result (λ n. n ≡ leading_size known.now scope.old None trees.now) }
    ensures scope { OnOk result (scope.new ≡ scope.old) }
    ensures memory { OnErr result (0 < length trees.now) }
{
    let (locals, levels) = (scope.locals.len(), scope.levels);
    let size = sum(alloc, known, scope, trees)?;
    cut_back(scope, locals, levels);
    Ok(size)
}
