//! What is known where an expression stands.

ghost use Rattle.std.specs.Prelude.{◌≡◌, ◌&&◌, ◌<◌, length, IfOk, OnErr};
ghost use Rattle.td_arith.specs.Imports.{Subtract};
ghost use Rattle.td_core.specs.Term.{number, name, compute};
ghost use Rattle.td_expr.specs.Same.{same};
ghost use Rattle.td_expr.specs.Facts.{no_span, some_fact};
ghost use Rattle.td_expr.specs.Range.{cut_where, cut_by, cut_by_all, narrowed};
ghost use Rattle.td_expr.specs.Safe.{up_to, is_zero, bounds_sum};
ghost use Rattle.td_arith_ranges.specs.Ends.{range_in};
ghost use Rattle.td_arith.specs.Sides.{side_of};
ghost use Rattle.td_arith.specs.Known.{fact_in, facts_in, asks};

use crate::comparisons::{Known, Side};
use std::alloc::{AllocError, Global};
use td_arith_ranges::ends::{Ends, constant_or, cut};
use td_arith_ranges::relations::mirrored;
use td_arith_ranges::same::{is_same, is_same_difference};
use td_core::expressions::{Binary, CoreExpr, Node, Relation, Scalar};
use td_expr::constant::constant_of;
use td_expr::types::{bits_of, type_of};

/// What is asked of a fact: whether one expression is at most another, isn't 0, or whether the sum of two is bounded by a
/// number no wider than a type.
#[derive(Clone, Copy)]
pub enum Question<'a> {
    UpTo(&'a CoreExpr, &'a CoreExpr),
    NotZero(&'a CoreExpr),
    Sum(Scalar, &'a CoreExpr, &'a CoreExpr),
}

/// Whether an expression is the name of a value in scope: by its level, its type and the greatest value that it can have.
fn is_name(level: u64, scalar: Scalar, most: u64, e: &CoreExpr) -> bool
    ensures { result ≡ same (name level scalar most) e.now }
{
    match &e.node {
        Node::Name {
            level: own,
            scalar: own_scalar,
            most: own_most,
        } => level == u64::from(*own) && scalar == *own_scalar && most == *own_most,
        _ => false,
    }
}

/// Whether an expression has the value of a number of a type.
fn is_number(value: u64, scalar: Scalar, e: &CoreExpr) -> bool
    ensures { result ≡ same (number value scalar) e.now }
{
    match constant_of(e) {
        Some(n) => value == n && scalar == type_of(e),
        None => false,
    }
}

/// Whether a side is this expression.
fn is_side(side: Side, e: &CoreExpr) -> bool
    ensures { result ≡ same (side_of side.entry) e.now }
{
    match side {
        Side::Whole(a) => is_same(a, e),
        Side::Difference(a, b) => is_same_difference(a, b, e),
        Side::Name {
            level,
            scalar,
            most,
        } => is_name(level, scalar, most, e),
        Side::Number { value, scalar } => is_number(value, scalar, e),
    }
}

/// The range of an expression, by its value where it is constant and by what is known. `AllocError`: something is known,
/// and there was no memory to compare.
pub fn narrowed(
    alloc: Global,
    known: &[Known],
    e: &CoreExpr,
    ends: Ends,
) -> Result<Ends, AllocError>
    ensures range { IfOk result (λ r. range_in r ≡ narrowed (facts_in known.now) e.now (range_in ends)) }
    ensures memory { OnErr result (0 < length known.now) }
{
    cut_by_known(alloc, known, e, constant_or(constant_of(e), ends))
}

/// Cuts a range of an expression by all that is known.
fn cut_by_known(
    alloc: Global,
    known: &[Known],
    e: &CoreExpr,
    ends: Ends,
) -> Result<Ends, AllocError>
    ensures range { IfOk result (λ r. range_in r ≡ cut_by_all (facts_in known.now) e.now (range_in ends)) }
    ensures memory { OnErr result (0 < length known.now) }
{
    let mut left = ends;
    for k in known {
        left = cut_by(alloc, k, e, left)?;
    }
    Ok(left)
}

/// Cuts a range of an expression by one comparison.
fn cut_by(alloc: Global, k: &Known, e: &CoreExpr, ends: Ends) -> Result<Ends, AllocError>
    ensures { IfOk result (λ r. range_in r ≡ cut_by (fact_in k.now) e.now (range_in ends)) }
{
    let once = cut_by_side(alloc, k.left, k.relation, k.right_value, e, ends)?;
    cut_by_side(alloc, k.right, mirrored(k.relation), k.left_value, e, once)
}

/// Cuts a range of an expression where one side of a comparison is that expression, and the other a constant. The side is compared
/// with it only where there is a constant.
#[tactic(auto, using(crate::proofs::Cutting::no_bound))]
fn cut_by_side(
    alloc: Global,
    side: Side,
    relation: Relation,
    bound: Option<u64>,
    e: &CoreExpr,
    ends: Ends,
) -> Result<Ends, AllocError>
    ensures { IfOk result (λ r. range_in r ≡ cut_where (same (side_of side.entry) e.now) relation bound (range_in ends)) }
{
    match bound {
        Some(c) => if is_side(side, e) {
            cut(alloc, relation, c, ends)
        } else {
            Ok(ends)
        },
        None => Ok(ends),
    }
}

/// Whether something that is known answers a question.
pub(crate) fn some_known(question: Question, known: &[Known]) -> bool
    ensures { result ≡ some_fact (asks question.entry) (facts_in known.now) }
{
    for k in known {
        if is_answer(question, k) {
            return true;
        }
    }
    false
}

/// Whether a comparison is what is asked. Expressions are compared only where the relation lets it be.
fn is_answer(question: Question, k: &Known) -> bool
    ensures { result ≡ asks question.entry (fact_in k.now) }
{
    match question {
        Question::UpTo(a, b) => (is_up_to(k.relation) && are_sides(k.left, a, k.right, b))
            || (is_up_to(mirrored(k.relation)) && are_sides(k.right, a, k.left, b)),
        Question::NotZero(a) => match k.relation {
            Relation::NotEqual => (is_side(k.left, a) && is_zero(k.right_value))
                || (is_side(k.right, a) && is_zero(k.left_value)),
            _ => false,
        },
        Question::Sum(w, a, b) => match k.relation {
            Relation::LessEqual => is_bound(w, a, b, k.left, k.right),
            _ => false,
        },
    }
}

/// Whether two sides are these expressions.
fn are_sides(left: Side, a: &CoreExpr, right: Side, b: &CoreExpr) -> bool
    ensures { result ≡ (same (side_of left.entry) a.now && same (side_of right.entry) b.now) }
{
    is_side(left, a) && is_side(right, b)
}

fn is_up_to(relation: Relation) -> bool
    ensures { result ≡ up_to relation }
{
    match relation {
        Relation::Equal | Relation::Less | Relation::LessEqual => true,
        _ => false,
    }
}

fn is_zero(constant: Option<u64>) -> bool
    ensures { result ≡ is_zero constant }
{
    match constant {
        Some(n) => n == 0,
        None => false,
    }
}

/// Whether the right side is a difference of which the left side bounds the sum of two expressions.
fn is_bound(w: Scalar, a: &CoreExpr, b: &CoreExpr, left: Side, right: Side) -> bool
    ensures { result ≡ bounds_sum w a.now b.now (side_of left.entry) (side_of right.entry) }
{
    match right {
        Side::Whole(e) => match &e.node {
            Node::Compute(Binary::Subtract, _, c, d) => bounds(w, a, b, left, c, d),
            _ => false,
        },
        Side::Difference(c, d) => bounds(w, a, b, left, c, d),
        Side::Name { .. } | Side::Number { .. } => false,
    }
}

/// Whether one of the two is at most a number of this width less the other.
fn bounds(w: Scalar, a: &CoreExpr, b: &CoreExpr, left: Side, c: &CoreExpr, d: &CoreExpr) -> bool
    ensures { result ≡ bounds_sum w a.now b.now (side_of left.entry) (compute Subtract no_span c.now d.now) }
{
    bits_of(type_of(c)) <= bits_of(w)
        && ((is_side(left, a) && is_same(d, b)) || (is_side(left, b) && is_same(d, a)))
}
