//! Values of expressions in 64 bits. They are the expressions' values where each part that is evaluated has its value in
//! its type's range, and elsewhere some number: nothing here can overflow.

ghost use Rattle.std.specs.Prelude.{◌≡◌, ◌<◌, length, IfOk, OnErr, Option};
ghost use Rattle.td_core.specs.Term.{Term};
ghost use Rattle.td_meaning.specs.Words64.{truth_number, is_truth, applied, value_of, values, is_met};

use std::alloc::{AllocError, Global};
use td_core::expressions::{Binary, CoreExpr, Node, Relation, Scalar};
use td_expr::types::{greatest_of, type_of};
use td_expr::value::{compare, shift_left, shift_right};

/// The number that stands for a truth value: 1 for true, 0 for false.
pub(crate) fn truth_number(truth: bool) -> u64
    ensures { result ≡ truth_number truth }
{
    if truth { 1 } else { 0 }
}

/// Whether a number stands for true: each but 0.
pub fn is_truth(value: u64) -> bool
    ensures { result ≡ is_truth value }
{
    value != 0
}

/// What an operator gives for two numbers, the left one of this type.
fn applied(op: Binary, scalar: Scalar, x: u64, y: u64) -> u64
    ensures { result ≡ applied op scalar x y }
{
    match op {
        Binary::Add => x.saturating_add(y),
        Binary::Subtract => x.saturating_sub(y),
        Binary::Multiply => x.saturating_mul(y),
        Binary::Divide => if y == 0 { 0 } else { x / y },
        Binary::Remainder => if y == 0 { 0 } else { x % y },
        Binary::BitAnd => x & y,
        Binary::BitOr => x | y,
        Binary::BitXor => x ^ y,
        Binary::ShiftLeft => shift_left(scalar, x, y),
        Binary::ShiftRight => shift_right(x, y),
    }
}

/// The value of an expression for the values in scope; a value past them is 0.
#[tactic(auto, unfolding(crate::specs::Words64::value_of))]
pub fn value_of(e: &CoreExpr, env: &[u64]) -> u64
    ensures { result ≡ value_of e.now env.now }
{
    match &e.node {
        Node::Number { value, .. } => *value,
        Node::Name { level, .. } => env.get(*level as usize).copied().unwrap_or(0),
        Node::Complement(a) => greatest_of(type_of(a)).saturating_sub(value_of(a, env)),
        Node::Not(a) => truth_number(!is_truth(value_of(a, env))),
        Node::Compute(op, _, a, b) => applied(*op, type_of(a), value_of(a, env), value_of(b, env)),
        Node::Compare(relation, a, b) => {
            truth_number(compare(*relation, value_of(a, env), value_of(b, env)))
        }
        Node::Both(a, b) => {
            truth_number(is_truth(value_of(a, env)) && is_truth(value_of(b, env)))
        }
        Node::Either(a, b) => {
            truth_number(is_truth(value_of(a, env)) || is_truth(value_of(b, env)))
        }
        Node::Choice(c, a, b) => if is_truth(value_of(c, env)) {
            value_of(a, env)
        } else {
            value_of(b, env)
        },
        Node::RangeOkay(size, offset, access) => {
            let size = value_of(size, env);
            let offset = value_of(offset, env);
            let access = value_of(access, env);
            truth_number(
                compare(Relation::LessEqual, access, size)
                    && compare(Relation::LessEqual, offset, size.saturating_sub(access)),
            )
        }
    }
}

/// The values of expressions. `AllocError`: there are some, and there was no memory for their values.
pub fn values_of(alloc: Global, exprs: &[CoreExpr], env: &[u64]) -> Result<Vec<u64>, AllocError>
    ensures ok { IfOk result (λ numbers. numbers.items ≡ values exprs.now env.now) }
    ensures memory { OnErr result (0 < length exprs.now) }
{
    let mut numbers = Vec::new(alloc);
    for expr in exprs {
        numbers.push(value_of(expr, env))?;
    }
    Ok(numbers)
}

/// Whether a test, where there is one, is met.
#[tactic(auto, unfolding(crate::specs::Words64::is_met))]
pub fn is_met(test: &Option<CoreExpr>, env: &[u64]) -> bool
    ensures { result ≡ is_met test.now env.now }
{
    match test {
        None => true,
        Some(expr) => is_truth(value_of(expr, env)),
    }
}
