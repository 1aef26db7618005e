//! Comparisons that are known to be true.

ghost use Rattle.std.specs.Prelude.{◌≡◌};
ghost use Rattle.td_expr.specs.Same.{constant_of};
ghost use Rattle.td_arith.specs.Sides.{side_of};

use td_arith_ranges::same::constant_difference;
use td_core::expressions::{CoreExpr, Relation, Scalar};
use td_expr::constant::constant_of;

/// One side of a comparison: an expression; the difference of two, which `is_range_okay` compares and nobody wrote; or, of a field
/// without bytes, its name or an end of its range.
#[derive(Clone, Copy)]
pub enum Side<'a> {
    Whole(&'a CoreExpr),
    Difference(&'a CoreExpr, &'a CoreExpr),
    /// A value in scope by its level, its type, and the greatest value that it can have.
    Name {
        level: u64,
        scalar: Scalar,
        most: u64,
    },
    /// A number of a type.
    Number {
        value: u64,
        scalar: Scalar,
    },
}

/// A comparison that is known to be true, with the value of each side that is constant. A side is worked out once, when the
/// comparison gets known, since each look at an expression asks for it again.
#[derive(Drop)]
pub struct Known<'a> {
    pub(crate) relation: Relation,
    pub(crate) left: Side<'a>,
    pub(crate) right: Side<'a>,
    pub(crate) left_value: Option<u64>,
    pub(crate) right_value: Option<u64>,
    ghost left_is: { left_value ≡ constant_of (side_of left) },
    ghost right_is: { right_value ≡ constant_of (side_of right) },
}

/// The value of a side, where it is constant.
fn value_of(side: Side) -> Option<u64>
    ensures { result ≡ constant_of (side_of side.entry) }
{
    match side {
        Side::Whole(e) => constant_of(e),
        Side::Difference(a, b) => constant_difference(a, b),
        Side::Name { .. } => None,
        Side::Number { value, .. } => Some(value),
    }
}

/// A comparison, with the values of its sides.
pub(crate) fn compared<'a>(relation: Relation, left: Side<'a>, right: Side<'a>) -> Known<'a>
    ensures relation { result.relation ≡ relation }
    ensures left { result.left ≡ left.entry }
    ensures right { result.right ≡ right.entry }
{
    Known {
        relation,
        left,
        right,
        left_value: value_of(left),
        right_value: value_of(right),
    }
}
