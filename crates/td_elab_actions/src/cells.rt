//! The cells that statements store to and read.

ghost use Rattle.std.specs.Prelude.{◌≡◌, ◌≤◌, ◌+◌, ◌^◌, length, IfOk, OnErr};
ghost use Rattle.td_elab_rules.specs.Breach.{first_of};
ghost use Rattle.td_elab_actions.specs.Rows.{IsRowPast};
ghost use Rattle.td_elab_rules.specs.Actions.{cell_of, slot_cell, slot_at, row_cell, target_breaches, read_breaches};

use std::alloc::AllocError;
use td_ast::token::Span;
use td_elab_exprs::findings::Findings;
use td_elab_rules::actions::Target;
use td_elab_rules::breach::Rule;
use td_elab_rules::known::{CellType, Found, Known, Local, Slot};
use td_num::number::NumberType;

/// `*p`: the one cell that p names.
pub fn cell_of(found: Found) -> Target
    ensures { result ≡ cell_of found }
{
    match found {
        Found::Nothing => Target::Unknown,
        Found::Local(Local::Cell(cell, CellType::Number(number))) => Target::Number(cell, number),
        Found::Local(Local::Cell(cell, CellType::Pointer)) => Target::Pointer(cell),
        Found::Local(_) | Found::Global(_) => Target::NoCell,
    }
}

/// The cell of a slot.
fn slot_cell(cell: u32, number: Option<NumberType>) -> Target
    ensures { result ≡ slot_cell cell number }
{
    match number {
        Some(number) => Target::Number(cell, number),
        None => Target::Pointer(cell),
    }
}

/// The cell of the slot of that name, where the first slot has cell `first`. `AllocError`: there are 2^32 cells or more.
fn slot_at(first: u32, slots: &[Slot], name: &[u8]) -> Result<Target, AllocError>
    ensures cell { IfOk result (λ t. t ≡ slot_at first slots.now name.now) }
    ensures full { OnErr result (2 ^ 32 ≤ first + length slots.now) }
{
    let mut cell = first;
    for slot in slots {
        if slot.name.as_slice() == name {
            return Ok(slot_cell(cell, slot.number));
        }
        cell = cell.checked_add(1).ok_or(AllocError)?;
    }
    Ok(Target::NoCell)
}

/// `p->f`: the cell for the slot of that name of the output record that p names. `AllocError`: there are 2^32 cells or
/// more.
pub(crate) fn row_cell(known: &Known, found: Found, name: &[u8]) -> Result<Target, AllocError>
    ensures cell { IfOk result (λ t. t ≡ row_cell known.now found name.now) }
    ensures full { OnErr result (IsRowPast known.now found) }
{
    match found {
        Found::Nothing => Ok(Target::Unknown),
        Found::Local(Local::Row(first, record)) => {
            match known.records.as_slice().get(record as usize) {
                Some(slots) => slot_at(first, slots.as_slice(), name),
                None => Ok(Target::NoCell),
            }
        }
        Found::Local(_) | Found::Global(_) => Ok(Target::NoCell),
    }
}

/// The target of a store or a read whose cell isn't known, or is no cell.
pub fn check_target(target: Target, at: Span, findings: &mut Findings)
    ensures { findings.new.first ≡ first_of findings.old.first (target_breaches target at) }
{
    match target {
        Target::Unknown => findings.note(Rule::Unknown, at),
        Target::NoCell => findings.note(Rule::WrongArgs, at),
        Target::Number(_, _) | Target::Pointer(_) => {}
    }
}

/// A pointer that is read, by its `*`.
pub fn check_read(target: Target, star: Span, findings: &mut Findings)
    ensures { findings.new.first ≡ first_of findings.old.first (read_breaches target star) }
{
    match target {
        Target::Pointer(_) => findings.note(Rule::Mismatch, star),
        Target::Unknown | Target::NoCell | Target::Number(_, _) => {}
    }
}
