//! Writes the code of refinements and actions.
#![tactic(auto, using(crate::proofs::Writing::laid_then, crate::proofs::Writing::laid_stop, crate::proofs::Writing::laid_leave, crate::proofs::Values::some_top, crate::proofs::Values::some_deed))]

ghost use Rattle.std.specs.Prelude.{◌≡◌, ◌≤◌, ◌^◌, ◌+◌, true, false, OnOk};
ghost use Rattle.td_lower_blocks.specs.Block.{Block, Done, Guard, Scope};
ghost use Rattle.td_lower_blocks.specs.Constructs.{value, tested, acts};
ghost use Rattle.td_lower_blocks.specs.Lowered.{expr_of, action_of};
ghost use Rattle.td_lower_blocks.specs.Tops.{term_top, deed_top, deed_cells};
ghost use Rattle.td_lower_emit.specs.Emission.{laid, Writes, Finishes};

use crate::expressions::{land, write_value};
use crate::writer::Writer;
use std::alloc::AllocError;
use td_core::actions::{Action, ActionStep};
use td_core::expressions::CoreExpr;
use td_ir::constants::ACTION;
use td_ir::instructions::Instr;

/// Writes a test: goes on where an expression's value isn't 0, else fails. Register `t` and those above it are used.
/// `AllocError`: there was no memory for it.
pub(crate) fn write_test(
    code: &mut Writer,
    t: u16,
    e: &CoreExpr,
    reason: u8,
    site: u32,
) -> Result<(), AllocError>
    requires { term_top t e.now ≤ 2 ^ 16 }
    ensures { OnOk result (Writes code.old code.new (tested t (expr_of e.now) reason site)) }
{
    write_value(code, t, e)?;
    let place = code.place();
    code.write(Instr::Mark)?;
    code.write(Instr::Fail { reason, site })?;
    land(code, place, true, t);
    Ok(())
}

// Writes one of two actions, by an expression; a statement that ends one leaves to a place behind both.
#[cycle(statements)]
fn write_branches(
    code: &mut Writer,
    leave: u32,
    t: u16,
    site: u32,
    level: u32,
    e: &CoreExpr,
    one: &Action,
    other: &Action,
) -> Result<(), AllocError>
    requires test { term_top t e.now ≤ 2 ^ 16 }
    requires one_registers { deed_top level (t + 1) one.now ≤ 2 ^ 16 }
    requires other_registers { deed_top level (t + 1) other.now ≤ 2 ^ 16 }
    requires one_cells { deed_cells one.now ≤ 2 ^ 16 }
    requires other_cells { deed_cells other.now ≤ 2 ^ 16 }
    ensures { OnOk result ((k : Block) → laid code.new leave k ≡ laid code.old leave (value t (expr_of e.now) (Guard false t (acts (t + 1) site (action_of level one.now) Done) (Guard true t (acts (t + 1) site (action_of level other.now) Done) k)))) }
{
    write_value(code, t, e)?;
    let first = code.place();
    code.write(Instr::Mark)?;
    write_statements(code, leave, t + 1, site, level, one)?;
    land(code, first, false, t);
    let second = code.place();
    code.write(Instr::Mark)?;
    write_statements(code, leave, t + 1, site, level, other)?;
    land(code, second, true, t);
    Ok(())
}

// Writes an action that leaves to a place behind it. A value that is read comes into the register of the next level.
#[cycle(statements)]
fn write_statements(
    code: &mut Writer,
    leave: u32,
    t: u16,
    site: u32,
    level: u32,
    action: &Action,
) -> Result<(), AllocError>
    requires registers { deed_top level t action.now ≤ 2 ^ 16 }
    requires cells { deed_cells action.now ≤ 2 ^ 16 }
    ensures { OnOk result (Finishes leave code.old code.new (acts t site (action_of level action.now) Done)) }
{
    match &action.step {
        ActionStep::Done => Ok(()),
        ActionStep::Set(cell, e, then) => {
            write_value(code, t, e)?;
            code.write(Instr::Set {
                source: t,
                cell: *cell as u16,
            })?;
            write_statements(code, leave, t, site, level, then)?;
            Ok(())
        }
        ActionStep::Read(cell, then) => {
            code.write(Instr::Get {
                into: level as u16,
                cell: *cell as u16,
            })?;
            write_statements(code, leave, t, site, level + 1, then)?;
            Ok(())
        }
        ActionStep::If(e, one, other, then) => {
            write_branches(code, leave, t, site, level, e, one, other)?;
            write_statements(code, leave, t, site, level, then)?;
            Ok(())
        }
        ActionStep::Return(e) => {
            write_test(code, t, e, ACTION, site)?;
            code.write(Instr::Jump { target: leave })?;
            Ok(())
        }
        ActionStep::Abort => {
            code.write(Instr::Fail {
                reason: ACTION,
                site,
            })?;
            Ok(())
        }
    }
}

/// Writes an action, of which a statement that ends it leads to its end. It is written twice: first to see where its end
/// is. `AllocError`: there was no memory for it.
pub fn write_action(
    code: &mut Writer,
    t: u16,
    site: u32,
    level: u32,
    action: &Action,
) -> Result<(), AllocError>
    requires registers { deed_top level t action.now ≤ 2 ^ 16 }
    requires cells { deed_cells action.now ≤ 2 ^ 16 }
    ensures { OnOk result (Writes code.old code.new (Scope (acts t site (action_of level action.now) Done))) }
{
    let begin = code.place();
    write_statements(code, 0, t, site, level, action)?;
    let end = code.place();
    code.shorten(begin);
    write_statements(code, end, t, site, level, action)?;
    Ok(())
}
