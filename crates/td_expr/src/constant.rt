//! Constant parts of expressions.

ghost use Rattle.std.specs.Prelude.{◌≡◌, ◌<◌, ◌%◌, pos, Some, None};
ghost use Rattle.std.specs.Option.{ForSome};
ghost use Rattle.td_expr.specs.Imports.{Truth};
ghost use Rattle.td_core.specs.Types.{limit, computed_type, type_of};
ghost use Rattle.td_expr.specs.Value.{computed, complemented, number_of};
ghost use Rattle.td_expr.specs.Same.{fitting, constant_of};

use crate::types::{computed_type_of, greatest_of, wider_of};
use crate::value::{compare, shift_left, shift_right};
use td_core::expressions::{Binary, CoreExpr, Node, Scalar};

/// The value and the type of a constant part.
#[derive(Clone, Copy)]
struct Constant {
    value: u64,
    scalar: Scalar,
}

/// The value of an expression of literals alone in which every value (also on a branch that isn't taken) fits its type;
/// none of any other expression. It goes along the expression once.
pub fn constant_of(e: &CoreExpr) -> Option<u64>
    ensures { result ≡ constant_of e.now }
{
    match typed_constant(e) {
        Some(constant) => Some(constant.value),
        None => None,
    }
}

/// The same, with the type.
fn typed_constant(e: &CoreExpr) -> Option<Constant>
    ensures value { ForSome result (λ c. constant_of e.now ≡ Some c.value) }
    ensures scalar { ForSome result (λ c. c.scalar ≡ type_of e.now) }
    ensures none { result ≡ None → constant_of e.now ≡ None }
{
    match &e.node {
        Node::Number { value, scalar } => Some(Constant {
            value: *value,
            scalar: *scalar,
        }),
        Node::Name { .. } => None,
        Node::Complement(a) => {
            let a = typed_constant(a)?;
            with_type(a.scalar, complement_constant(a.scalar, a.value))
        }
        Node::Not(a) => {
            let a = typed_constant(a)?;
            truth(a.value == 0)
        }
        Node::Compute(op, _, a, b) => {
            let a = typed_constant(a)?;
            let b = typed_constant(b)?;
            with_type(
                computed_type_of(*op, a.scalar, b.scalar),
                compute_constant(*op, a.scalar, b.scalar, a.value, b.value),
            )
        }
        Node::Compare(relation, a, b) => {
            let a = typed_constant(a)?;
            let b = typed_constant(b)?;
            truth(compare(*relation, a.value, b.value))
        }
        Node::Both(a, b) => {
            let a = typed_constant(a)?;
            let b = typed_constant(b)?;
            truth(a.value != 0 && b.value != 0)
        }
        Node::Either(a, b) => {
            let a = typed_constant(a)?;
            let b = typed_constant(b)?;
            truth(a.value != 0 || b.value != 0)
        }
        Node::Choice(c, a, b) => {
            let c = typed_constant(c)?;
            let a = typed_constant(a)?;
            let b = typed_constant(b)?;
            let wide = wider_of(a.scalar, b.scalar);
            with_type(
                wide,
                fit(wide, if c.value == 0 { b.value } else { a.value }),
            )
        }
        Node::RangeOkay(s, o, a) => {
            let size = typed_constant(s)?;
            let offset = typed_constant(o)?;
            let access = typed_constant(a)?;
            truth(access.value <= size.value && offset.value <= size.value - access.value)
        }
    }
}

/// A value, where there is one, with its type.
fn with_type(scalar: Scalar, value: Option<u64>) -> Option<Constant>
    ensures value { ForSome result (λ c. value ≡ Some c.value) }
    ensures scalar { ForSome result (λ c. c.scalar ≡ scalar) }
    ensures none { result ≡ None → value ≡ None }
{
    let value = value?;
    Some(Constant { value, scalar })
}

/// A value, where it fits a type.
fn fit(scalar: Scalar, n: u64) -> Option<u64>
    ensures { result ≡ fitting scalar (pos n) }
{
    if n <= greatest_of(scalar) {
        Some(n)
    } else {
        None
    }
}

/// The number of a truth value, with its type.
fn truth(holds: bool) -> Option<Constant>
    ensures value { ForSome result (λ c. fitting Truth (number_of holds) ≡ Some c.value) }
    ensures scalar { ForSome result (λ c. c.scalar ≡ Truth) }
    ensures some { result ≡ None → fitting Truth (number_of holds) ≡ None }
{
    Some(Constant {
        value: u64::from(holds),
        scalar: Scalar::Truth,
    })
}

/// What a type's width leaves of a number.
fn reduced(scalar: Scalar, n: u64) -> u64
    ensures value { result ≡ n % limit scalar }
    ensures small { result < limit scalar }
{
    n & greatest_of(scalar)
}

/// The complement of a constant, where it fits its type.
fn complement_constant(scalar: Scalar, n: u64) -> Option<u64>
    ensures { result ≡ fitting scalar (complemented scalar (pos n)) }
{
    fit(scalar, greatest_of(scalar) - reduced(scalar, n))
}

/// What an operator makes of two constants, where it fits its type.
fn compute_constant(op: Binary, left: Scalar, right: Scalar, x: u64, y: u64) -> Option<u64>
    ensures { result ≡ fitting (computed_type op left right) (computed op left right (pos x) (pos y)) }
{
    let wide = wider_of(left, right);
    match op {
        Binary::Add => match x.checked_add(y) {
            Some(n) => fit(wide, n),
            None => None,
        },
        Binary::Subtract => if y <= x { fit(wide, x - y) } else { None },
        Binary::Multiply => match x.checked_mul(y) {
            Some(n) => fit(wide, n),
            None => None,
        },
        Binary::Divide => fit(wide, if y == 0 { 0 } else { x / y }),
        Binary::Remainder => fit(wide, if y == 0 { 0 } else { x % y }),
        Binary::BitAnd => fit(wide, reduced(wide, x) & reduced(wide, y)),
        Binary::BitOr => fit(wide, reduced(wide, x) | reduced(wide, y)),
        Binary::BitXor => fit(wide, reduced(wide, x) ^ reduced(wide, y)),
        Binary::ShiftLeft => fit(left, shift_left(left, reduced(left, x), reduced(right, y))),
        Binary::ShiftRight => fit(left, shift_right(reduced(left, x), reduced(right, y))),
    }
}
