//! What the cells for a record's slots are, worked out once for each record: a slot's name may be long, and a text may have
//! thousands of parameters of one record.

ghost use Rattle.std.specs.Prelude.{◌≡◌, IfOk, map};
ghost use Rattle.td_elab_defs.specs.Slots.{slot_part, parts_at};
ghost use Rattle.td_elab_rules.specs.Parameters.{slot_kind};
ghost use Rattle.td_elab_rules.specs.Records.{slot_of};

use crate::records::slot_number;
use std::alloc::{AllocError, Global};
use td_ast::definitions::SlotTree;
use td_core::module::{CellKind, NameId};
use td_names::names::Names;
use td_num::items::Items;
use td_num::number::NumberType;

/// The cell for a slot, but for the name of the parameter.
#[derive(Clone, Copy)]
pub struct SlotCell {
    /// The slot's name.
    pub field: NameId,
    /// What the cell holds.
    pub kind: CellKind,
}

/// What the cell for a slot holds.
fn slot_kind(number: Option<NumberType>) -> CellKind
    ensures { result ≡ slot_kind number }
{
    match number {
        Some(number) => CellKind::Number(number.width),
        None => CellKind::Pointer,
    }
}

/// The cell for a slot.
fn slot_cell(names: &Names, tree: &SlotTree) -> SlotCell
    ensures { result ≡ slot_part names.now (slot_of tree.now) }
{
    SlotCell {
        field: NameId {
            number: names.number(tree.name.text.as_slice()),
        },
        kind: slot_kind(slot_number(&tree.kind)),
    }
}

/// The cells for the slots of a record. `AllocError`: out of memory.
pub fn slot_cells(
    alloc: Global,
    names: &Names,
    trees: &[SlotTree],
) -> Result<Items<SlotCell>, AllocError>
    ensures { IfOk result (λ cells. cells ≡ map (λ x. slot_part names.now (slot_of x)) trees.now) }
{
    let mut cells = Items::new(alloc);
    for tree in trees {
        cells.push(slot_cell(names, tree))?;
    }
    Ok(cells)
}

/// Those of the record at a place; none where there is no such record.
pub(crate) fn slot_cells_at(records: &[Items<SlotCell>], place: u32) -> &[SlotCell]
    ensures { result.now ≡ parts_at records.now place }
{
    match records.get(place as usize) {
        Some(cells) => cells.as_slice(),
        None => &[],
    }
}
