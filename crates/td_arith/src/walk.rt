//! The first operator of an expression that isn't safe. Ranges are worked out of the operands of operators that compute, and of
//! what these are made of, alone: for each of them all that is known is gone through.

ghost use Rattle.std.specs.Prelude.{◌≡◌, ◌++◌, pos, int_lt, IfOk, OnOk, OnErr, true, false};
ghost use Rattle.td_core.specs.Copying.{HasOperands};
ghost use Rattle.td_core.specs.Types.{type_of};
ghost use Rattle.td_expr.specs.Facts.{facts_of};
ghost use Rattle.td_arith.specs.Imports.{Operator};
ghost use Rattle.td_expr.specs.Range.{narrowed, computed_range, range_of};
ghost use Rattle.td_expr.specs.Safe.{is_safe, first, first_unsafe, unless_safe};
ghost use Rattle.td_arith_ranges.specs.Ends.{range_in, spanned};
ghost use Rattle.td_arith.specs.Known.{facts_in};
ghost use Rattle.td_arith.specs.SafeModule.{value_range};

use crate::comparisons::Known;
use crate::expressions::{computed_range, first_of, is_safe, spanned_range, unless, whole_range};
use crate::facts::narrowed;
use crate::learning::learn_condition;
use std::alloc::{AllocError, Global};
use td_arith_ranges::ends::{Ends, cut, up_to};
use td_ast::token::Span;
use td_bigint::whole::Whole;
use td_core::expressions::{Binary, CoreExpr, Node, Relation};
use td_expr::safety::Unsafe;
use td_expr::types::{greatest_of, type_of};

// Where a value is let go, each way through its variants is a way through the function. So what has many is let go by a call.

/// What a look at an expression tells: its range, and its first operator that isn't safe.
#[derive(Drop)]
pub(crate) struct Seen {
    pub(crate) ends: Ends,
    pub(crate) unsafe_at: Option<Unsafe>,
}

/// What a look at an operator that computes tells: the ranges of its operands, and the first operator that isn't safe among
/// theirs and itself.
#[derive(Drop)]
struct Operands {
    left: Ends,
    right: Ends,
    unsafe_at: Option<Unsafe>,
}

/// The first operator of an expression that isn't safe where conditions are known to hold. On `Ok` the list of them is as
/// before. `AllocError`: it has operands, and there was no memory to look at them.
#[cycle(walk)]
pub(crate) fn expression_unsafe<'a>(
    alloc: Global,
    e: &'a CoreExpr,
    known: &mut Vec<Known<'a>>,
) -> Result<Option<Unsafe>, AllocError>
    ensures first { IfOk result (λ u. u ≡ first_unsafe (facts_in known.old.items) e.now) }
    ensures same { OnOk result (known.new.items ≡ known.old.items) }
    ensures memory { OnErr result (HasOperands e.now) }
{
    match &e.node {
        Node::Number { .. } | Node::Name { .. } => Ok(None),
        Node::Complement(a) | Node::Not(a) => expression_unsafe(alloc, a, known),
        Node::Compute(op, span, a, b) => {
            let operands = look_operands(alloc, *op, *span, a, b, known)?;
            let found = operands.unsafe_at;
            drop(operands);
            Ok(found)
        }
        Node::Compare(_, a, b) => pair_unsafe(alloc, a, b, known),
        Node::Both(a, b) => second_unsafe(alloc, true, a, b, known),
        Node::Either(a, b) => second_unsafe(alloc, false, a, b, known),
        Node::Choice(c, a, b) => choice_unsafe(alloc, c, a, b, known),
        Node::RangeOkay(s, o, a) => {
            let size = expression_unsafe(alloc, s, known)?;
            let rest = pair_unsafe(alloc, o, a, known)?;
            Ok(first_of(size, rest))
        }
    }
}

/// Of two operands, of which none is known to hold in the other.
#[cycle(walk)]
fn pair_unsafe<'a>(
    alloc: Global,
    a: &'a CoreExpr,
    b: &'a CoreExpr,
    known: &mut Vec<Known<'a>>,
) -> Result<Option<Unsafe>, AllocError>
    ensures first { IfOk result (λ u. u ≡
        first (first_unsafe (facts_in known.old.items) a.now) (first_unsafe (facts_in known.old.items) b.now)) }
    ensures same { OnOk result (known.new.items ≡ known.old.items) }
{
    let left = expression_unsafe(alloc, a, known)?;
    let right = expression_unsafe(alloc, b, known)?;
    Ok(first_of(left, right))
}

/// `&&`, where the left side is known to be true in the right one, or `||`, where it is known to be false.
#[cycle(walk)]
fn second_unsafe<'a>(
    alloc: Global,
    truth: bool,
    a: &'a CoreExpr,
    b: &'a CoreExpr,
    known: &mut Vec<Known<'a>>,
) -> Result<Option<Unsafe>, AllocError>
    ensures first { IfOk result (λ u. u ≡
        first (first_unsafe (facts_in known.old.items) a.now)
        (first_unsafe (facts_in known.old.items ++ facts_of truth a.now) b.now)) }
    ensures same { OnOk result (known.new.items ≡ known.old.items) }
{
    let left = expression_unsafe(alloc, a, known)?;
    let right = unsafe_under(alloc, truth, a, b, known)?;
    Ok(first_of(left, right))
}

/// `?:`, where the condition is known to be true in the first branch, and to be false in the second.
#[cycle(walk)]
fn choice_unsafe<'a>(
    alloc: Global,
    c: &'a CoreExpr,
    a: &'a CoreExpr,
    b: &'a CoreExpr,
    known: &mut Vec<Known<'a>>,
) -> Result<Option<Unsafe>, AllocError>
    ensures first { IfOk result (λ u. u ≡
        first (first_unsafe (facts_in known.old.items) c.now)
        (first (first_unsafe (facts_in known.old.items ++ facts_of true c.now) a.now)
        (first_unsafe (facts_in known.old.items ++ facts_of false c.now) b.now))) }
    ensures same { OnOk result (known.new.items ≡ known.old.items) }
{
    let test = expression_unsafe(alloc, c, known)?;
    let one = unsafe_under(alloc, true, c, a, known)?;
    let other = unsafe_under(alloc, false, c, b, known)?;
    Ok(first_of(test, first_of(one, other)))
}

/// Of an expression where a condition is known to be true, or to be false.
#[cycle(walk)]
fn unsafe_under<'a>(
    alloc: Global,
    truth: bool,
    condition: &'a CoreExpr,
    e: &'a CoreExpr,
    known: &mut Vec<Known<'a>>,
) -> Result<Option<Unsafe>, AllocError>
    ensures first { IfOk result (λ u. u ≡
        first_unsafe (facts_in known.old.items ++ facts_of truth condition.now) e.now) }
    ensures same { OnOk result (known.new.items ≡ known.old.items) }
{
    let before = known.len();
    learn_condition(truth, condition, known)?;
    let found = expression_unsafe(alloc, e, known)?;
    known.truncate(before);
    Ok(found)
}

/// The range of an expression, and its first operator that isn't safe.
#[cycle(walk)]
fn look<'a>(alloc: Global, e: &'a CoreExpr, known: &mut Vec<Known<'a>>) -> Result<Seen, AllocError>
    ensures range { IfOk result (λ s. range_in s.ends ≡ range_of (facts_in known.old.items) e.now) }
    ensures first { IfOk result (λ s. s.unsafe_at ≡ first_unsafe (facts_in known.old.items) e.now) }
    ensures same { OnOk result (known.new.items ≡ known.old.items) }
{
    match &e.node {
        Node::Name { most, .. } => Ok(Seen {
            ends: narrowed(alloc, known, e, up_to(*most))?,
            unsafe_at: None,
        }),
        Node::Compute(op, span, a, b) => look_computed(alloc, e, *op, *span, a, b, known),
        Node::Choice(c, a, b) => look_choice(alloc, e, c, a, b, known),
        Node::Number { .. }
        | Node::Complement(_)
        | Node::Not(_)
        | Node::Compare(_, _, _)
        | Node::Both(_, _)
        | Node::Either(_, _)
        | Node::RangeOkay(_, _, _) => {
            let unsafe_at = expression_unsafe(alloc, e, known)?;
            let ends = whole_range(alloc, e, known)?;
            Ok(Seen { ends, unsafe_at })
        }
    }
}

/// The operands of an operator that computes a number.
#[cycle(walk)]
fn look_operands<'a>(
    alloc: Global,
    op: Binary,
    span: Span,
    a: &'a CoreExpr,
    b: &'a CoreExpr,
    known: &mut Vec<Known<'a>>,
) -> Result<Operands, AllocError>
    ensures left { IfOk result (λ o. range_in o.left ≡ range_of (facts_in known.old.items) a.now) }
    ensures right { IfOk result (λ o. range_in o.right ≡ range_of (facts_in known.old.items) b.now) }
    ensures first { IfOk result (λ o. o.unsafe_at ≡
        first (first_unsafe (facts_in known.old.items) a.now)
        (first (unless_safe (is_safe (facts_in known.old.items) op a.now b.now) (Operator span op))
        (first_unsafe (facts_in known.old.items) b.now))) }
    ensures same { OnOk result (known.new.items ≡ known.old.items) }
{
    let left = look(alloc, a, known)?;
    let right = match look(alloc, b, known) {
        Ok(right) => right,
        Err(error) => {
            drop(left);
            return Err(error);
        }
    };
    match is_safe(alloc, known, op, a, b, &left.ends, &right.ends) {
        Ok(safe) => {
            let here = unless(safe, span, op);
            Ok(Operands {
                left: left.ends,
                right: right.ends,
                unsafe_at: first_of(left.unsafe_at, first_of(here, right.unsafe_at)),
            })
        }
        Err(error) => {
            drop(left);
            drop(right);
            Err(error)
        }
    }
}

/// An operator that computes a number.
#[cycle(walk)]
fn look_computed<'a>(
    alloc: Global,
    e: &'a CoreExpr,
    op: Binary,
    span: Span,
    a: &'a CoreExpr,
    b: &'a CoreExpr,
    known: &mut Vec<Known<'a>>,
) -> Result<Seen, AllocError>
    ensures range { IfOk result (λ s. range_in s.ends ≡ narrowed (facts_in known.old.items) e.now
        (computed_range op (type_of e.now) (range_of (facts_in known.old.items) a.now)
        (range_of (facts_in known.old.items) b.now))) }
    ensures first { IfOk result (λ s. s.unsafe_at ≡
        first (first_unsafe (facts_in known.old.items) a.now)
        (first (unless_safe (is_safe (facts_in known.old.items) op a.now b.now) (Operator span op))
        (first_unsafe (facts_in known.old.items) b.now))) }
    ensures same { OnOk result (known.new.items ≡ known.old.items) }
{
    let operands = look_operands(alloc, op, span, a, b, known)?;
    let unsafe_at = operands.unsafe_at;
    let told = computed_range(alloc, op, e, &operands.left, &operands.right, known);
    drop(operands);
    let ends = told?;
    Ok(Seen { ends, unsafe_at })
}

/// `?:`, where the condition is known to be true in the first branch, and to be false in the second.
#[cycle(walk)]
fn look_choice<'a>(
    alloc: Global,
    e: &'a CoreExpr,
    c: &'a CoreExpr,
    a: &'a CoreExpr,
    b: &'a CoreExpr,
    known: &mut Vec<Known<'a>>,
) -> Result<Seen, AllocError>
    ensures range { IfOk result (λ s. range_in s.ends ≡ narrowed (facts_in known.old.items) e.now
        (spanned (range_of (facts_in known.old.items ++ facts_of true c.now) a.now)
        (range_of (facts_in known.old.items ++ facts_of false c.now) b.now))) }
    ensures first { IfOk result (λ s. s.unsafe_at ≡
        first (first_unsafe (facts_in known.old.items) c.now)
        (first (first_unsafe (facts_in known.old.items ++ facts_of true c.now) a.now)
        (first_unsafe (facts_in known.old.items ++ facts_of false c.now) b.now))) }
    ensures same { OnOk result (known.new.items ≡ known.old.items) }
{
    let test = expression_unsafe(alloc, c, known)?;
    let one = look_under(alloc, true, c, a, known)?;
    let other = match look_under(alloc, false, c, b, known) {
        Ok(other) => other,
        Err(error) => {
            drop(one);
            return Err(error);
        }
    };
    let found = first_of(test, first_of(one.unsafe_at, other.unsafe_at));
    let ends = spanned_range(alloc, e, one.ends, other.ends, known)?;
    Ok(Seen {
        ends,
        unsafe_at: found,
    })
}

/// An expression where a condition is known to be true, or to be false.
#[cycle(walk)]
fn look_under<'a>(
    alloc: Global,
    truth: bool,
    condition: &'a CoreExpr,
    e: &'a CoreExpr,
    known: &mut Vec<Known<'a>>,
) -> Result<Seen, AllocError>
    ensures range { IfOk result (λ s. range_in s.ends ≡
        range_of (facts_in known.old.items ++ facts_of truth condition.now) e.now) }
    ensures first { IfOk result (λ s. s.unsafe_at ≡
        first_unsafe (facts_in known.old.items ++ facts_of truth condition.now) e.now) }
    ensures same { OnOk result (known.new.items ≡ known.old.items) }
{
    let before = known.len();
    learn_condition(truth, condition, known)?;
    let seen = look(alloc, e, known)?;
    known.truncate(before);
    Ok(seen)
}

/// Whether an expression may be greater than a number where conditions are known to hold. On `Ok` the list of them is as
/// before.
pub(crate) fn passes<'a>(
    alloc: Global,
    most: u32,
    e: &'a CoreExpr,
    known: &mut Vec<Known<'a>>,
) -> Result<bool, AllocError>
    ensures passes { IfOk result (λ b. b ≡ int_lt (pos most) (range_of (facts_in known.old.items) e.now).high) }
    ensures same { OnOk result (known.new.items ≡ known.old.items) }
{
    let size = look(alloc, e, known)?;
    let told = Whole::small(i128::from(most)).is_below(alloc, &size.ends.high);
    drop(size);
    told
}

/// Between which numbers the value of an expression lies, and its first operator that isn't safe. On `Ok` what is known is as
/// before.
pub(crate) fn look_at_value<'a>(
    alloc: Global,
    e: &'a CoreExpr,
    known: &mut Vec<Known<'a>>,
) -> Result<Seen, AllocError>
    ensures range { IfOk result (λ s. range_in s.ends ≡ value_range (facts_in known.old.items) e.now) }
    ensures first { IfOk result (λ s. s.unsafe_at ≡ first_unsafe (facts_in known.old.items) e.now) }
    ensures same { OnOk result (known.new.items ≡ known.old.items) }
{
    let told = look(alloc, e, known)?;
    let most = greatest_of(type_of(e));
    Ok(Seen {
        ends: cut(alloc, Relation::LessEqual, most, told.ends)?,
        unsafe_at: told.unsafe_at,
    })
}
