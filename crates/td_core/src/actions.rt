//! Actions, statement by statement (3D manual, "Actions").

use crate::expressions::CoreExpr;
use std::marker::Model;

/// An action. A contract sees a `Deed`, which has no boxes.
#[derive(Drop)]
#[cycle(action)]
pub struct Action {
    pub step: ActionStep,
}

/// What an action does first, and what it does then. A cell is one of its definition's own, by its place among them,
/// from 0.
#[derive(Drop)]
#[cycle(action)]
pub enum ActionStep {
    /// The end of the action, or of a branch.
    Done,
    /// `*p = e;`
    Set(u32, CoreExpr, Box<Action>),
    /// `var x = *p;`: the value is in scope in what follows.
    Read(u32, Box<Action>),
    /// `if (e) { .. } else { .. }`, and what follows it.
    If(CoreExpr, Box<Action>, Box<Action>, Box<Action>),
    /// `return e;`
    Return(CoreExpr),
    /// `abort;`
    Abort,
}

impl Model for Action {
    ghost use Rattle.td_core.specs.Term.{Deed, length_of};
    ghost use Rattle.td_core.specs.Stored.{deed_code};

    ghost Value = { Deed };

    ghost coded = { deed_code };

    ghost use Rattle.td_core.specs.Steps.{done_by};

    ghost view = { λ a. done_by a.step };

    ghost size = { length_of };

    ghost use Rattle.td_core.specs.Rests.{rest_is_smaller};

    ghost size_decreases = { λ a _. rest_is_smaller a };
}
