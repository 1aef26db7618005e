//! The first operator of an action that isn't safe.

ghost use Rattle.std.specs.Prelude.{◌≡◌, ◌++◌, IfOk, OnOk, OnErr, IsSomeAnd};
ghost use Rattle.td_core.specs.Copying.{HasParts};
ghost use Rattle.td_expr.specs.Facts.{facts_of};
ghost use Rattle.td_arith.specs.Known.{facts_in};
ghost use Rattle.td_arith.specs.SafeModule.{deed_unsafe, action_unsafe};

use crate::comparisons::Known;
use crate::expressions::first_of;
use crate::learning::learn_condition;
use crate::walk::expression_unsafe;
use std::alloc::{AllocError, Global};
use td_core::actions::{Action, ActionStep};
use td_core::expressions::CoreExpr;
use td_expr::safety::Unsafe;

/// The first operator of a field's action that isn't safe where conditions are known to hold. On `Ok` the list of them is
/// as before. `AllocError`: it has a statement that others may follow, or returns an expression with operands, and there
/// was no memory to look at it.
pub(crate) fn action_unsafe<'a>(
    alloc: Global,
    action: &'a Option<Action>,
    known: &mut Vec<Known<'a>>,
) -> Result<Option<Unsafe>, AllocError>
    ensures first { IfOk result (λ u. u ≡ action_unsafe (facts_in known.old.items) action.now) }
    ensures same { OnOk result (known.new.items ≡ known.old.items) }
    ensures memory { OnErr result (IsSomeAnd action.now (λ a. HasParts a)) }
{
    match action {
        Some(action) => steps_unsafe(alloc, action, known),
        None => Ok(None),
    }
}

/// A branch of an `if`, where its condition is known to be true, or to be false.
#[cycle(steps)]
fn branch_unsafe<'a>(
    alloc: Global,
    truth: bool,
    condition: &'a CoreExpr,
    branch: &'a Action,
    known: &mut Vec<Known<'a>>,
) -> Result<Option<Unsafe>, AllocError>
    ensures first { IfOk result (λ u. u ≡
        deed_unsafe (facts_in known.old.items ++ facts_of truth condition.now) branch.now) }
    ensures same { OnOk result (known.new.items ≡ known.old.items) }
{
    let before = known.len();
    learn_condition(truth, condition, known)?;
    let found = steps_unsafe(alloc, branch, known)?;
    known.truncate(before);
    Ok(found)
}

/// What an action does, one step after the other.
#[cycle(steps)]
fn steps_unsafe<'a>(
    alloc: Global,
    action: &'a Action,
    known: &mut Vec<Known<'a>>,
) -> Result<Option<Unsafe>, AllocError>
    ensures first { IfOk result (λ u. u ≡ deed_unsafe (facts_in known.old.items) action.now) }
    ensures same { OnOk result (known.new.items ≡ known.old.items) }
    ensures memory { OnErr result (HasParts action.now) }
{
    match &action.step {
        ActionStep::Done | ActionStep::Abort => Ok(None),
        ActionStep::Set(_, e, then) => {
            let own = expression_unsafe(alloc, e, known)?;
            let later = steps_unsafe(alloc, then, known)?;
            Ok(first_of(own, later))
        }
        ActionStep::Read(_, then) => steps_unsafe(alloc, then, known),
        ActionStep::If(e, one, other, then) => {
            let own = expression_unsafe(alloc, e, known)?;
            let first = branch_unsafe(alloc, true, e, one, known)?;
            let second = branch_unsafe(alloc, false, e, other, known)?;
            let later = steps_unsafe(alloc, then, known)?;
            Ok(first_of(own, first_of(first, first_of(second, later))))
        }
        ActionStep::Return(e) => expression_unsafe(alloc, e, known),
    }
}
