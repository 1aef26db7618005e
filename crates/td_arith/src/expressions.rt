//! When an operator is safe, and the range of what it gives.

ghost use Rattle.std.specs.Prelude.{◌≡◌, ◌||◌, ◌+ℤ◌, ◌*ℤ◌, int_lt, IfOk, None, true, pos};
ghost use Rattle.td_core.specs.Types.{limit, bits, type_of, wider};
ghost use Rattle.td_expr.specs.Facts.{some_fact};
ghost use Rattle.td_expr.specs.Value.{flip};
ghost use Rattle.td_arith.specs.Imports.{Operator};
ghost use Rattle.td_expr.specs.Range.{narrowed, whole, computed_range, range_of};
ghost use Rattle.td_expr.specs.Safe.{is_safe, is_below, first, unless_safe, says_sum, says_up_to, says_not_zero};
ghost use Rattle.td_arith_ranges.specs.Ends.{range_in, spanned};
ghost use Rattle.td_arith.specs.Known.{facts_in};

use crate::comparisons::Known;
use crate::facts::{Question, narrowed, some_known};
use std::alloc::{AllocError, Global};
use td_arith_ranges::ends::{Ends, computed, span, whole};
use td_ast::token::Span;
use td_bigint::whole::Whole;
use td_core::expressions::{Binary, CoreExpr, Scalar};
use td_expr::safety::Unsafe;
use td_expr::types::{bits_of, greatest_of, type_of, wider_of};

/// The first of two findings.
pub fn first_of(one: Option<Unsafe>, other: Option<Unsafe>) -> Option<Unsafe>
    ensures { result ≡ first one other }
{
    match one {
        Some(u) => Some(u),
        None => other,
    }
}

/// A number of a type, or less than 0.
fn is_within(alloc: Global, n: &Whole, scalar: Scalar) -> Result<bool, AllocError>
    ensures { IfOk result (λ b. b ≡ is_below n.now (limit scalar)) }
{
    n.is_below(alloc, &Whole::small(i128::from(greatest_of(scalar)) + 1))
}

/// An amount by which a number of a type may be shifted, or less than 0.
fn is_amount(alloc: Global, n: &Whole, scalar: Scalar) -> Result<bool, AllocError>
    ensures { IfOk result (λ b. b ≡ is_below n.now (bits scalar)) }
{
    n.is_below(alloc, &Whole::small(i128::from(bits_of(scalar))))
}

fn is_safe_sum(
    alloc: Global,
    known: &[Known],
    a: &CoreExpr,
    b: &CoreExpr,
    left: &Whole,
    right: &Whole,
) -> Result<bool, AllocError>
    ensures { IfOk result (λ s. s ≡
        (is_below (left.now +ℤ right.now) (limit (wider (type_of a.now) (type_of b.now)))
        || some_fact (says_sum (wider (type_of a.now) (type_of b.now)) a.now b.now) (facts_in known.now))) }
{
    let scalar = wider_of(type_of(a), type_of(b));
    let sum = left.plus(alloc, right)?;
    let within = is_within(alloc, &sum, scalar)?;
    Ok(within || some_known(Question::Sum(scalar, a, b), known))
}

fn is_safe_product(
    alloc: Global,
    a: &CoreExpr,
    b: &CoreExpr,
    left: &Whole,
    right: &Whole,
) -> Result<bool, AllocError>
    ensures { IfOk result (λ s. s ≡
        is_below (left.now *ℤ right.now) (limit (wider (type_of a.now) (type_of b.now)))) }
{
    let product = left.times(alloc, right)?;
    is_within(alloc, &product, wider_of(type_of(a), type_of(b)))
}

fn is_safe_difference(
    alloc: Global,
    known: &[Known],
    a: &CoreExpr,
    b: &CoreExpr,
    left: &Whole,
    right: &Whole,
) -> Result<bool, AllocError>
    ensures { IfOk result (λ s. s ≡
        (some_fact (says_up_to b.now a.now) (facts_in known.now) || flip (int_lt left.now right.now))) }
{
    let below = left.is_below(alloc, right)?;
    Ok(some_known(Question::UpTo(b, a), known) || !below)
}

fn is_safe_quotient(
    alloc: Global,
    known: &[Known],
    b: &CoreExpr,
    low: &Whole,
) -> Result<bool, AllocError>
    ensures { IfOk result (λ s. s ≡
        (int_lt (pos 0) low.now || some_fact (says_not_zero b.now) (facts_in known.now))) }
{
    let positive = Whole::small(0).is_below(alloc, low)?;
    Ok(positive || some_known(Question::NotZero(b), known))
}

/// Whether an operator is safe, given the ranges of its operands.
pub(crate) fn is_safe(
    alloc: Global,
    known: &[Known],
    op: Binary,
    a: &CoreExpr,
    b: &CoreExpr,
    left: &Ends,
    right: &Ends,
) -> Result<bool, AllocError>
    requires left { range_in left.now ≡ range_of (facts_in known.now) a.now }
    requires right { range_in right.now ≡ range_of (facts_in known.now) b.now }
    ensures { IfOk result (λ s. s ≡ is_safe (facts_in known.now) op a.now b.now) }
{
    match op {
        Binary::Add => is_safe_sum(alloc, known, a, b, &left.high, &right.high),
        Binary::Subtract => is_safe_difference(alloc, known, a, b, &left.low, &right.high),
        Binary::Multiply => is_safe_product(alloc, a, b, &left.high, &right.high),
        Binary::Divide | Binary::Remainder => is_safe_quotient(alloc, known, b, &right.low),
        Binary::BitAnd | Binary::BitOr | Binary::BitXor => Ok(true),
        Binary::ShiftLeft | Binary::ShiftRight => is_amount(alloc, &right.high, type_of(a)),
    }
}

/// The operator as a finding, unless it is safe.
pub(crate) fn unless(safe: bool, span: Span, op: Binary) -> Option<Unsafe>
    ensures { result ≡ unless_safe safe (Operator span op) }
{
    if safe {
        None
    } else {
        Some(Unsafe::Operator { span, op })
    }
}

/// The range of an expression of which only its type is known, cut by what is known.
pub(crate) fn whole_range(alloc: Global, e: &CoreExpr, known: &[Known]) -> Result<Ends, AllocError>
    ensures { IfOk result (λ r. range_in r ≡
        narrowed (facts_in known.now) e.now (whole (type_of e.now))) }
{
    narrowed(alloc, known, e, whole(type_of(e)))
}

/// The range of an operator's result, cut by what is known.
pub(crate) fn computed_range(
    alloc: Global,
    op: Binary,
    e: &CoreExpr,
    left: &Ends,
    right: &Ends,
    known: &[Known],
) -> Result<Ends, AllocError>
    ensures { IfOk result (λ r. range_in r ≡ narrowed (facts_in known.now) e.now
        (computed_range op (type_of e.now) (range_in left.now) (range_in right.now))) }
{
    let ends = computed(alloc, op, type_of(e), left, right)?;
    narrowed(alloc, known, e, ends)
}

/// The range of what spans two branches, cut by what is known.
pub(crate) fn spanned_range(
    alloc: Global,
    e: &CoreExpr,
    one: Ends,
    other: Ends,
    known: &[Known],
) -> Result<Ends, AllocError>
    ensures { IfOk result (λ r. range_in r ≡
        narrowed (facts_in known.now) e.now (spanned (range_in one) (range_in other))) }
{
    let ends = span(alloc, one, other)?;
    narrowed(alloc, known, e, ends)
}
