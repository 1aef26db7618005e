//! Parameters.

ghost use Rattle.std.specs.Prelude.{◌≡◌, ◌<◌, IfOk, OnErr, OnOk, is_some, length, map};
ghost use Rattle.td_elab_rules.specs.Breach.{first_of};
ghost use Rattle.td_elab_defs.specs.Heads.{with_cell, with_all_cells};
ghost use Rattle.td_elab_defs.specs.Slots.{part_cell, record_parts};
ghost use Rattle.td_elab_rules.specs.Parameters.{no_head, found_width, plain_width, found_cell, cell_type, cells_of, cells_local, unread_head, value_head, cell_head, buffer_head, with_param, head_of, named_breaches, plain_breaches, pointee_breaches, param_name_breaches, param_breaches, params_breaches};

use crate::numbers::next_place;
use crate::rooms::{buffer_room, check_room};
use crate::scopes::{no_scope, none_taken};
use crate::slots::{SlotCell, slot_cells_at};
use std::alloc::{AllocError, Global};
use td_ast::names::{Name, PlainTree};
use td_ast::parameters::{ParamTree, TargetTree};
use td_ast::token::Span;
use td_core::module::{Buffer, Cell, CellKind, NameId, Param};
use td_elab_actions::scopes::{add_local, add_value, scalar_of, take_name};
use td_elab_exprs::findings::Findings;
use td_elab_exprs::look_up::{is_literal_name, look_up};
use td_elab_rules::breach::Rule;
use td_elab_rules::known::{CellType, Found, Known, Local, Meaning, Parameter, Scope};
use td_elab_rules::parameters::Head;
use td_expr::types::greatest_of;
use td_names::names::Names;
use td_num::items::Items;
use td_num::number::Width;

/// The head before the first parameter. Takes no memory.
fn no_head(alloc: Global) -> Head
    ensures { result ≡ no_head }
{
    Head {
        scope: no_scope(alloc),
        parameters: Items::new(alloc),
        params: Items::new(alloc),
        cells: Items::new(alloc),
        buffers: Items::new(alloc),
        taken: none_taken(alloc),
    }
}

/// The width of a value parameter of the type that was found.
fn found_width(found: Found) -> Option<Width>
    ensures { result ≡ found_width found }
{
    match found {
        Found::Global(Meaning::Number(number)) => Some(number.width),
        Found::Global(Meaning::Enum(base, _)) => Some(base.width),
        _ => None,
    }
}

/// The width of a value parameter.
fn plain_width(known: &Known, scope: &Scope, tree: &PlainTree) -> Option<Width>
    ensures { result ≡ plain_width known.now scope.now tree.now }
{
    match tree {
        PlainTree::Number(number) => Some(number.number.width),
        PlainTree::Named(name) => found_width(look_up(known, scope, name.text.as_slice())),
    }
}

/// The cells of a `mutable` parameter of the type that was found.
fn found_cell(found: Found) -> Option<CellType>
    ensures { result ≡ found_cell found }
{
    match found {
        Found::Global(Meaning::Number(number)) => Some(CellType::Number(number)),
        Found::Global(Meaning::Record(record)) => Some(CellType::Record(record)),
        _ => None,
    }
}

/// The cells of a `mutable` parameter.
fn cell_type(known: &Known, scope: &Scope, tree: &TargetTree) -> Option<CellType>
    ensures { result ≡ cell_type known.now scope.now tree.now }
{
    match tree {
        TargetTree::Number(number) => Some(CellType::Number(number.number)),
        TargetTree::Pointer(_) => Some(CellType::Pointer),
        TargetTree::Named(name) => found_cell(look_up(known, scope, name.text.as_slice())),
    }
}

/// Notes a name of a type that isn't known, or is of another sort.
fn check_named(found: Found, fits: bool, at: Span, findings: &mut Findings)
    ensures { findings.new.first ≡ first_of findings.old.first (named_breaches found fits at) }
{
    match found {
        Found::Nothing => findings.note_if(true, Rule::Unknown, at),
        Found::Local(_) | Found::Global(_) => findings.note_if(!fits, Rule::Mismatch, at),
    }
}

/// Notes what the type of a value parameter breaks.
fn check_plain(known: &Known, scope: &Scope, tree: &PlainTree, findings: &mut Findings)
    ensures { findings.new.first ≡ first_of findings.old.first (plain_breaches known.now scope.now tree.now) }
{
    if let PlainTree::Named(name) = tree {
        let found = look_up(known, scope, name.text.as_slice());
        check_named(found, found_width(found).is_some(), name.span, findings);
    }
}

/// Notes what the type of a `mutable` parameter breaks.
fn check_target(known: &Known, scope: &Scope, tree: &TargetTree, findings: &mut Findings)
    ensures { findings.new.first ≡ first_of findings.old.first (pointee_breaches known.now scope.now tree.now) }
{
    if let TargetTree::Named(name) = tree {
        let found = look_up(known, scope, name.text.as_slice());
        check_named(found, found_cell(found).is_some(), name.span, findings);
    }
}

/// Notes the name of a parameter that was given before.
fn check_name(known: &Known, head: &Head, name: &Name, findings: &mut Findings)
    ensures { findings.new.first ≡ first_of findings.old.first (param_name_breaches known.now head.now name.now) }
{
    let text = name.text.as_slice();
    let is_given = head.taken.outer.contains(text) || is_literal_name(known, text);
    findings.note_if(is_given, Rule::Twice, name.span);
}

/// Notes what a parameter breaks.
#[tactic(auto, using(td_elab_exprs::proofs::Steps::first_append))]
fn check_param(known: &Known, head: &Head, tree: &ParamTree, findings: &mut Findings)
    ensures { findings.new.first ≡ first_of findings.old.first (param_breaches known.now head.now tree.now) }
{
    match tree {
        ParamTree::Value(plain, name) => {
            check_plain(known, &head.scope, plain, findings);
            check_name(known, head, name, findings);
        }
        ParamTree::Mutable(target, name) => {
            check_target(known, &head.scope, target, findings);
            check_name(known, head, name, findings);
        }
        ParamTree::Bytes { name, room } => {
            check_room(known, &head.scope, room, findings);
            check_name(known, head, name, findings);
        }
    }
}

/// One more parameter of a broken type. `AllocError`: out of memory.
fn add_unread(alloc: Global, head: &mut Head, name: &[u8]) -> Result<(), AllocError>
    ensures { OnOk result (head.new ≡ unread_head head.old name.now) }
{
    add_local(alloc, &mut head.scope, name, Local::Unreadable)?;
    take_name(alloc, &mut head.taken, name)
}

/// One more value parameter. `AllocError`: out of memory.
fn add_width(
    alloc: Global,
    names: &Names,
    head: &mut Head,
    name: &[u8],
    width: Option<Width>,
) -> Result<(), AllocError>
    ensures { OnOk result (head.new ≡ value_head names.now head.old name.now width) }
{
    let Some(width) = width else {
        return add_unread(alloc, head, name);
    };
    let scalar = scalar_of(width);
    let number = names.number(name);
    add_value(alloc, &mut head.scope, name, scalar, greatest_of(scalar))?;
    head.parameters.push(Parameter::Value(scalar))?;
    head.params.push(Param {
        name: NameId { number },
        width,
    })?;
    take_name(alloc, &mut head.taken, name)
}

/// One more cell of the definition. `AllocError`: out of memory.
fn push_cell(head: &mut Head, cell: Cell) -> Result<(), AllocError>
    ensures { OnOk result (head.new ≡ with_cell head.old cell) }
{
    head.scope.cells.push(cell.kind)?;
    head.cells.push(cell)
}

/// A cell for each slot of a parameter of that name. `AllocError`: out of memory.
fn push_slots(head: &mut Head, name: NameId, slots: &[SlotCell]) -> Result<(), AllocError>
    ensures { OnOk result (head.new ≡ with_all_cells head.old (map (part_cell name) slots.now)) }
{
    for slot in slots {
        push_cell(
            head,
            Cell {
                name,
                field: Some(slot.field),
                kind: slot.kind,
            },
        )?;
    }
    Ok(())
}

/// The cells of a parameter. `AllocError`: out of memory.
fn push_cells(
    names: &Names,
    known: &Known,
    slots: &[Items<SlotCell>],
    head: &mut Head,
    name: &[u8],
    cells: CellType,
) -> Result<(), AllocError>
    requires { slots.now ≡ record_parts names.now known.now }
    ensures { OnOk result (head.new ≡ with_all_cells head.old (cells_of names.now known.now name.now cells)) }
{
    let name = NameId {
        number: names.number(name),
    };
    let kind = match cells {
        CellType::Record(record) => {
            return push_slots(head, name, slot_cells_at(slots, record));
        }
        CellType::Number(number) => CellKind::Number(number.width),
        CellType::Pointer => CellKind::Pointer,
    };
    push_cell(
        head,
        Cell {
            name,
            field: None,
            kind,
        },
    )
}

/// What the name of cells stands for, where the first has that place.
fn cells_local(first: u32, cells: CellType) -> Local
    ensures { result ≡ cells_local first cells }
{
    match cells {
        CellType::Number(_) | CellType::Pointer => Local::Cell(first, cells),
        CellType::Record(record) => Local::Row(first, record),
    }
}

/// One more `mutable` parameter. `AllocError`: out of memory.
fn add_cells(
    alloc: Global,
    names: &Names,
    known: &Known,
    slots: &[Items<SlotCell>],
    head: &mut Head,
    name: &[u8],
    cells: Option<CellType>,
) -> Result<(), AllocError>
    requires { slots.now ≡ record_parts names.now known.now }
    ensures { OnOk result (head.new ≡ cell_head names.now known.now head.old name.now cells) }
{
    let Some(cells) = cells else {
        return add_unread(alloc, head, name);
    };
    let first = next_place(head.cells.len())?;
    add_local(alloc, &mut head.scope, name, cells_local(first, cells))?;
    push_cells(names, known, slots, head, name, cells)?;
    head.parameters.push(Parameter::Cells(cells))?;
    take_name(alloc, &mut head.taken, name)
}

/// One more copy buffer. `AllocError`: out of memory.
fn add_buffer(
    alloc: Global,
    names: &Names,
    head: &mut Head,
    name: &[u8],
    room: Option<u32>,
) -> Result<(), AllocError>
    ensures { OnOk result (head.new ≡ buffer_head names.now head.old name.now room) }
{
    let Some(room) = room else {
        return add_unread(alloc, head, name);
    };
    let place = next_place(head.buffers.len())?;
    let number = names.number(name);
    add_local(alloc, &mut head.scope, name, Local::Buffer(place))?;
    head.scope.buffers.push(room)?;
    head.parameters.push(Parameter::Buffer(room))?;
    head.buffers.push(Buffer {
        name: NameId { number },
        room,
    })?;
    take_name(alloc, &mut head.taken, name)
}

/// One more parameter. `AllocError`: out of memory.
fn add_param(
    alloc: Global,
    names: &Names,
    known: &Known,
    slots: &[Items<SlotCell>],
    head: &mut Head,
    tree: &ParamTree,
) -> Result<(), AllocError>
    requires { slots.now ≡ record_parts names.now known.now }
    ensures { OnOk result (head.new ≡ with_param names.now known.now head.old tree.now) }
{
    match tree {
        ParamTree::Value(plain, name) => {
            let width = plain_width(known, &head.scope, plain);
            add_width(alloc, names, head, name.text.as_slice(), width)
        }
        ParamTree::Mutable(target, name) => {
            let cells = cell_type(known, &head.scope, target);
            add_cells(
                alloc,
                names,
                known,
                slots,
                head,
                name.text.as_slice(),
                cells,
            )
        }
        ParamTree::Bytes { name, room } => {
            let room = buffer_room(known, &head.scope, room);
            add_buffer(alloc, names, head, name.text.as_slice(), room)
        }
    }
}

/// The parameters, by the cells for the slots of each record that is known; their breaches are noted. `AllocError`: there is a
/// parameter, and out of memory.
pub fn head(
    alloc: Global,
    names: &Names,
    known: &Known,
    slots: &[Items<SlotCell>],
    trees: &[ParamTree],
    findings: &mut Findings,
) -> Result<Head, AllocError>
    requires { slots.now ≡ record_parts names.now known.now }
    ensures memory { OnErr result (0 < length trees.now) }
    ensures core { IfOk result (λ h. h ≡ head_of names.now known.now no_head trees.now) }
    ensures first { OnOk result (findings.new.first ≡ first_of findings.old.first (params_breaches names.now known.now no_head trees.now)) }
{
    let mut head = no_head(alloc);
    for tree in trees {
        check_param(known, &head, tree, findings);
        add_param(alloc, names, known, slots, &mut head, tree)?;
    }
    Ok(head)
}
