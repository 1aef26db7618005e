//! What actions do.

ghost use Rattle.std.specs.Prelude.{◌≡◌, IfOk, OnErr, slice_set, slice_index};
ghost use Rattle.td_meaning.specs.Words64.{doing};
ghost use Rattle.td_meaning.specs.Verdicts.{effect_of, HasRead};

use crate::expressions::{is_truth, value_of};
use crate::parameters::place_at;
use std::alloc::AllocError;
use td_core::actions::{Action, ActionStep};

/// How an action ends: what stands after it goes on, or it returned a truth value, or aborted.
#[derive(Clone, Copy, PartialEq, Eq)]
pub enum Ended {
    On,
    Returned(bool),
    Aborted,
}

/// Sets a cell; one that isn't there is none.
pub(crate) fn set_cell(cells: &mut [u64], place: usize, value: u64)
    ensures { cells.new ≡ slice_set cells.old place value }
{
    if place < cells.len() {
        cells[place] = value;
    }
}

/// The value of a cell; 0 where it isn't there.
pub fn cell_at(cells: &[u64], place: usize) -> u64
    ensures { result ≡ slice_index cells.now place }
{
    cells.get(place).copied().unwrap_or(0)
}

/// Does what an action says, for the values in scope and the places of its definition's cells among all cells.
/// `AllocError`: it reads a cell, and there was no memory for the value.
pub(crate) fn doing(
    action: &Action,
    env: &mut Vec<u64>,
    places: &[usize],
    cells: &mut [u64],
) -> Result<Ended, AllocError>
    ensures effect { IfOk result (λ e. doing action.now env.old.items places.now cells.old ≡ effect_of e cells.new) }
    ensures scope { IfOk result (λ e. env.new.items ≡ env.old.items) }
    ensures memory { OnErr result (HasRead action.now) }
{
    match &action.step {
        ActionStep::Done => Ok(Ended::On),
        ActionStep::Set(cell, expr, then) => {
            let value = value_of(expr, env.as_slice());
            set_cell(cells, place_at(places, *cell), value);
            Ok(doing(then, env, places, cells)?)
        }
        ActionStep::Read(cell, then) => {
            let value = cell_at(cells, place_at(places, *cell));
            env.push(value)?;
            let ended = doing(then, env, places, cells)?;
            env.pop();
            Ok(ended)
        }
        ActionStep::If(test, one, other, then) => {
            let ended = if is_truth(value_of(test, env.as_slice())) {
                doing(one, env, places, cells)?
            } else {
                doing(other, env, places, cells)?
            };
            match ended {
                Ended::On => Ok(doing(then, env, places, cells)?),
                Ended::Returned(value) => Ok(Ended::Returned(value)),
                Ended::Aborted => Ok(Ended::Aborted),
            }
        }
        ActionStep::Return(expr) => Ok(Ended::Returned(is_truth(value_of(expr, env.as_slice())))),
        ActionStep::Abort => Ok(Ended::Aborted),
    }
}
