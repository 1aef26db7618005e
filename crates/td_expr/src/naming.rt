//! Which values in scope an expression or an action names.

ghost use Rattle.std.specs.Prelude.{◌≡◌};
ghost use Rattle.td_expr.specs.Naming.{names, deed_names};

use td_core::actions::{Action, ActionStep};
use td_core::expressions::{CoreExpr, Node};

/// Whether an expression names the value at a level (its place in scope, from 0).
pub(crate) fn expression_names(level: usize, e: &CoreExpr) -> bool
    ensures { result ≡ names level e.now }
{
    match &e.node {
        Node::Number { .. } => false,
        Node::Name { level: other, .. } => level == *other as usize,
        Node::Complement(a) | Node::Not(a) => expression_names(level, a),
        Node::Compute(_, _, a, b)
        | Node::Compare(_, a, b)
        | Node::Both(a, b)
        | Node::Either(a, b) => expression_names(level, a) || expression_names(level, b),
        Node::Choice(a, b, c) | Node::RangeOkay(a, b, c) => {
            expression_names(level, a) || (expression_names(level, b) || expression_names(level, c))
        }
    }
}

/// Whether an action names the value at a level.
pub fn action_names(level: usize, action: &Action) -> bool
    ensures { result ≡ deed_names level action.now }
{
    match &action.step {
        ActionStep::Done | ActionStep::Abort => false,
        ActionStep::Set(_, e, then) => expression_names(level, e) || action_names(level, then),
        ActionStep::Read(_, then) => action_names(level, then),
        ActionStep::If(e, one, other, then) => {
            expression_names(level, e)
                || (action_names(level, one)
                    || (action_names(level, other) || action_names(level, then)))
        }
        ActionStep::Return(e) => expression_names(level, e),
    }
}
