//! One step of an action, before what follows it. Each stands apart, as the ways in which values are let go where memory runs
//! out multiply in one function.

ghost use Rattle.std.specs.Prelude.{◌≡◌, IfOk};
ghost use Rattle.td_core.specs.Term as term;
ghost use Rattle.td_core.specs.Steps.{done_by};

use std::alloc::{AllocError, Global};
use td_core::actions::{Action, ActionStep};
use td_core::expressions::CoreExpr;

/// A cell is set. `AllocError`: out of memory.
pub fn set(alloc: Global, cell: u32, e: CoreExpr, rest: Action) -> Result<Action, AllocError>
    ensures { IfOk result (λ a. a ≡ term.set cell e rest) }
{
    let rest = Box::new(alloc, rest)?;
    Ok(Action {
        step: ActionStep::Set(cell, e, rest),
    })
}

/// A cell is read. `AllocError`: out of memory.
pub fn read(alloc: Global, cell: u32, rest: Action) -> Result<Action, AllocError>
    ensures { IfOk result (λ a. a ≡ term.keep cell rest) }
{
    let rest = Box::new(alloc, rest)?;
    Ok(Action {
        step: ActionStep::Read(cell, rest),
    })
}

/// Two actions, each in a box. `AllocError`: out of memory.
fn both_boxed(
    alloc: Global,
    one: Action,
    other: Action,
) -> Result<(Box<Action>, Box<Action>), AllocError>
    ensures { IfOk result (λ b. (b.0.value ≡ one) × (b.1.value ≡ other)) }
{
    let one = Box::new(alloc, one)?;
    let other = Box::new(alloc, other)?;
    Ok((one, other))
}

/// One of two actions, by a condition. `AllocError`: out of memory.
pub fn fork(
    alloc: Global,
    condition: CoreExpr,
    one: Action,
    other: Action,
    rest: Action,
) -> Result<Action, AllocError>
    ensures { IfOk result (λ a. a ≡ term.fork condition one other rest) }
{
    let branches = both_boxed(alloc, one, other)?;
    fork_of(alloc, condition, branches, rest)
}

/// The same, of two boxes.
fn fork_of(
    alloc: Global,
    condition: CoreExpr,
    branches: (Box<Action>, Box<Action>),
    rest: Action,
) -> Result<Action, AllocError>
    ensures { IfOk result (λ a. a ≡ term.fork condition branches.0.value branches.1.value rest) }
{
    let rest = Box::new(alloc, rest)?;
    let (one, other) = branches;
    Ok(Action {
        step: ActionStep::If(condition, one, other, rest),
    })
}

/// An action that ends with a step; what would follow it is let go.
pub fn last(step: ActionStep, rest: Action) -> Action
    ensures { result ≡ done_by step }
{
    Action { step }
}
