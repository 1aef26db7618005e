//! The core expressions that parts of an expression stand for.

ghost use Rattle.std.specs.Prelude.{◌≡◌, IfOk};
ghost use Rattle.td_core.specs.Term.{choice};
ghost use Rattle.td_elab_rules.specs.Sorts.{literal_of, literal_alone, truth_core, found_core, start_core, size_core, unary_core, operation_core, range_core, beside};

use crate::expressions::Typing;
use crate::sorts::{fits, literal_type, narrowest, operation};
use std::alloc::{AllocError, Global};
use td_ast::expressions::UnaryOperator;
use td_ast::names::Name;
use td_ast::token::Span;
use td_core::expressions::{CoreExpr, Node, Scalar};
use td_elab_rules::expressions::{Operation, Sort};
use td_elab_rules::known::{Found, Local, Meaning};
use td_expr::types::{type_of, wider_of};

/// A literal of a type; 0 where the type doesn't hold it.
pub(crate) fn literal(n: u64, w: Scalar) -> CoreExpr
    ensures { result ≡ literal_of n w }
{
    let value = if fits(n, w) { n } else { 0 };
    CoreExpr {
        node: Node::Number { value, scalar: w },
    }
}

/// A number that stands alone.
pub(crate) fn literal_alone(n: u64) -> CoreExpr
    ensures { result ≡ literal_alone n }
{
    literal(n, narrowest(n))
}

/// `true`, `false`, and what stands in place of a broken part.
pub(crate) fn truth(b: bool) -> CoreExpr
    ensures { result ≡ truth_core b }
{
    CoreExpr {
        node: Node::Number {
            value: u64::from(b),
            scalar: Scalar::Truth,
        },
    }
}

/// The value of a name.
pub(crate) fn found_core(found: Found) -> CoreExpr
    ensures { result ≡ found_core found }
{
    match found {
        Found::Local(
            Local::Value {
                level,
                scalar,
                most,
            },
        ) => CoreExpr {
            node: Node::Name {
                level,
                scalar,
                most,
            },
        },
        Found::Global(Meaning::Constant(n) | Meaning::Member(n)) => literal_alone(n),
        _ => truth(false),
    }
}

/// The value of `field_pos`.
pub fn start_core(start: Option<u32>) -> CoreExpr
    ensures { result ≡ start_core start }
{
    let node = match start {
        Some(level) => Node::Name {
            level,
            scalar: Scalar::ThirtyTwo,
            most: u64::from(u32::MAX),
        },
        None => Node::Number {
            value: 0,
            scalar: Scalar::ThirtyTwo,
        },
    };
    CoreExpr { node }
}

/// A size, where there is one.
pub(crate) fn size_core(size: Option<u64>) -> CoreExpr
    ensures { result ≡ size_core size }
{
    match size {
        Some(n) => literal_alone(n),
        None => truth(false),
    }
}

/// An operand beside one of that sort: a literal is settled to its type.
pub(crate) fn settled(a: Sort, other: Sort, e: CoreExpr) -> CoreExpr
    ensures { result ≡ beside a other e }
{
    match a {
        Sort::Literal(n) => literal(n, literal_type(n, other)),
        Sort::Broken | Sort::Untyped | Sort::Truth | Sort::Typed(_) => e,
    }
}

/// Its core expression, from its operands.
pub(crate) fn range_core(
    alloc: Global,
    size: Typing,
    offset: Typing,
    access: Typing,
) -> Result<CoreExpr, AllocError>
    ensures { IfOk result (λ c. c ≡ range_core size.sort offset.sort access.sort size.core offset.core access.core) }
{
    let total = settled(size.sort, access.sort, size.core);
    let part = settled(access.sort, size.sort, access.core);
    let between = Sort::Typed(wider_of(type_of(&total), type_of(&part)));
    let offset = settled(offset.sort, between, offset.core);
    Ok(CoreExpr {
        node: Node::RangeOkay(
            Box::new(alloc, total)?,
            Box::new(alloc, offset)?,
            Box::new(alloc, part)?,
        ),
    })
}

/// Its core expression, from its operand.
pub(crate) fn unary_core(
    alloc: Global,
    operator: UnaryOperator,
    operand: CoreExpr,
) -> Result<CoreExpr, AllocError>
    ensures { IfOk result (λ c. c ≡ unary_core operator operand) }
{
    let operand = Box::new(alloc, operand)?;
    let node = match operator {
        UnaryOperator::Not => Node::Not(operand),
        UnaryOperator::Complement => Node::Complement(operand),
    };
    Ok(CoreExpr { node })
}

/// Its core expression, from its operands.
pub(crate) fn operation_core(
    alloc: Global,
    operation: Operation,
    at: Span,
    a: Typing,
    b: Typing,
) -> Result<CoreExpr, AllocError>
    ensures { IfOk result (λ c. c ≡ operation_core operation at a.sort b.sort a.core b.core) }
{
    let (left, right) = match operation {
        Operation::Computes(_) | Operation::Compares(_) => (
            settled(a.sort, b.sort, a.core),
            settled(b.sort, a.sort, b.core),
        ),
        Operation::Both | Operation::Either => (a.core, b.core),
    };
    let left = Box::new(alloc, left)?;
    let right = Box::new(alloc, right)?;
    let node = match operation {
        Operation::Computes(op) => Node::Compute(op, at, left, right),
        Operation::Compares(relation) => Node::Compare(relation, left, right),
        Operation::Both => Node::Both(left, right),
        Operation::Either => Node::Either(left, right),
    };
    Ok(CoreExpr { node })
}

/// Its core expression, from its condition and branches.
pub(crate) fn choice_core(
    alloc: Global,
    condition: CoreExpr,
    a: Typing,
    b: Typing,
) -> Result<CoreExpr, AllocError>
    ensures { IfOk result (λ c. c ≡ choice condition (beside a.sort b.sort a.core) (beside b.sort a.sort b.core)) }
{
    let first = settled(a.sort, b.sort, a.core);
    let second = settled(b.sort, a.sort, b.core);
    Ok(CoreExpr {
        node: Node::Choice(
            Box::new(alloc, condition)?,
            Box::new(alloc, first)?,
            Box::new(alloc, second)?,
        ),
    })
}
