//! When a module is one of descriptors.

ghost use Rattle.std.specs.Prelude.{◌≡◌, ◌&&◌};
ghost use Rattle.td_descr.specs.Shape.{is_level, is_zero, is_rest, is_left, is_up_to, is_none, is_fit, is_done, delivered, tested, is_four, is_two, holds, kept, whole, is_place, is_size, is_id, is_flags, is_reserved, is_number, are_fields, is_struct, are_params, are_cells, are_no_buffers, is_cell, is_definition, is_only, is_first, has_ring_shape};

use td_core::{
    Action, ActionStep, Binary, Bits, Body, Buffer, Cell, CellKind, CopyOut, CoreExpr, Element,
    Extent, Field, Module, Node, Param, Part, Relation, TypeDef,
};
use td_num::number::{ByteOrder, Width};

/// Whether the module has the shape of that of descriptors: its one definition and its entry point are those of the text `RING`, names
/// and places in the text aside. Takes no memory.
pub fn is_ring(m: &Module) -> bool
    ensures { result ≡ has_ring_shape m.now }
{
    starts_first(m.entries.as_slice()) && has_one(m.definitions.as_slice())
}

fn starts_first(entries: &[u32]) -> bool
    ensures { result ≡ is_first entries.now }
{
    match entries {
        [e, ..] => *e == 0,
        _ => false,
    }
}

fn has_one(definitions: &[TypeDef]) -> bool
    ensures { result ≡ is_only definitions.now }
{
    match definitions {
        [d] => has_form(d),
        _ => false,
    }
}

fn has_form(d: &TypeDef) -> bool
    ensures { result ≡ is_definition d.now }
{
    (d.guard.is_none() && is_desc(&d.body))
        && (takes_two(d.params.as_slice())
            && (gives_three(d.cells.as_slice()) && has_no_buffers(d.buffers.as_slice())))
}

// UINT32 room, UINT32 most
fn takes_two(params: &[Param]) -> bool
    ensures { result ≡ are_params params.now }
{
    match params {
        [room, most] => has_four(room.width) && has_four(most.width),
        _ => false,
    }
}

fn has_no_buffers(buffers: &[Buffer]) -> bool
    ensures { result ≡ are_no_buffers buffers.now }
{
    buffers.is_empty()
}

// UINT32 Place; UINT32 Size; UINT16 Id;
fn gives_three(cells: &[Cell]) -> bool
    ensures { result ≡ are_cells cells.now }
{
    match cells {
        [place, size, id] => holds_four(place) && (holds_four(size) && holds_two(id)),
        _ => false,
    }
}

fn holds_four(cell: &Cell) -> bool
    ensures { result ≡ is_cell is_four cell.now.kind }
{
    match cell.kind {
        CellKind::Number(width) => has_four(width),
        CellKind::Pointer => false,
    }
}

fn holds_two(cell: &Cell) -> bool
    ensures { result ≡ is_cell is_two cell.now.kind }
{
    match cell.kind {
        CellKind::Number(width) => has_two(width),
        CellKind::Pointer => false,
    }
}

fn has_four(width: Width) -> bool
    ensures { result ≡ is_four width }
{
    match width {
        Width::Four => true,
        _ => false,
    }
}

fn has_two(width: Width) -> bool
    ensures { result ≡ is_two width }
{
    match width {
        Width::Two => true,
        _ => false,
    }
}

fn is_desc(body: &Body) -> bool
    ensures { result ≡ is_struct body.now }
{
    match body {
        Body::Struct(fields) => are_desc(fields.as_slice()),
        _ => false,
    }
}

fn are_desc(fields: &[Field]) -> bool
    ensures { result ≡ are_fields fields.now }
{
    match fields {
        [place, size, id, flags, reserved] => {
            is_place_field(place)
                && (is_size_field(size)
                    && (is_id_field(id) && (is_flags_field(flags) && is_reserved_field(reserved))))
        }
        _ => false,
    }
}

// UINT32 place { place <= room } {:act r->Place = place;};
fn is_place_field(f: &Field) -> bool
    ensures { result ≡ is_number is_four is_place f.now }
{
    has_plain_number(f, Width::Four)
        && match f.parts.as_slice() {
            [p] => is_whole(&p.bits) && (is_within(&p.refinement) && gives(&p.action, 0, 2)),
            _ => false,
        }
}

// UINT32 size { size <= room - place && size <= most } {:act r->Size = size;};
fn is_size_field(f: &Field) -> bool
    ensures { result ≡ is_number is_four is_size f.now }
{
    has_plain_number(f, Width::Four)
        && match f.parts.as_slice() {
            [p] => is_whole(&p.bits) && (fits(&p.refinement) && gives(&p.action, 1, 3)),
            _ => false,
        }
}

// UINT16 id {:act r->Id = id;};
fn is_id_field(f: &Field) -> bool
    ensures { result ≡ is_number is_two is_id f.now }
{
    has_plain_number(f, Width::Two)
        && match f.parts.as_slice() {
            [p] => is_whole(&p.bits) && (p.refinement.is_none() && gives(&p.action, 2, 4)),
            _ => false,
        }
}

// UINT16 flags { flags == 0 };
fn is_flags_field(f: &Field) -> bool
    ensures { result ≡ is_number is_two is_flags f.now }
{
    has_plain_number(f, Width::Two)
        && match f.parts.as_slice() {
            [p] => is_whole(&p.bits) && (has_none(&p.refinement) && p.action.is_none()),
            _ => false,
        }
}

// UINT32 reserved;
fn is_reserved_field(f: &Field) -> bool
    ensures { result ≡ is_number is_four is_reserved f.now }
{
    has_plain_number(f, Width::Four)
        && match f.parts.as_slice() {
            [p] => is_whole(&p.bits) && (p.refinement.is_none() && p.action.is_none()),
            _ => false,
        }
}

fn is_whole(bits: &Option<Bits>) -> bool
    ensures { result ≡ whole bits.now }
{
    bits.is_none()
}

fn is_kept(copy: &Option<CopyOut>) -> bool
    ensures { result ≡ kept copy.now }
{
    copy.is_none()
}

// Whether a little-endian number of this width stands in a field, and isn't copied.
fn has_plain_number(f: &Field, width: Width) -> bool
    ensures four { width ≡ Width.Four → result ≡ (holds is_four f.now.element f.now.extent && kept f.now.copy) }
    ensures two { width ≡ Width.Two → result ≡ (holds is_two f.now.element f.now.extent && kept f.now.copy) }
{
    has_number(f, width) && is_kept(&f.copy)
}

/// Whether a little-endian number of this width stands in a field.
fn has_number(f: &Field, width: Width) -> bool
    ensures four { width ≡ Width.Four → result ≡ holds is_four f.now.element f.now.extent }
    ensures two { width ≡ Width.Two → result ≡ holds is_two f.now.element f.now.extent }
{
    match (&f.element, &f.extent) {
        (Element::Number(t), Extent::Once) => t.width == width
            && t.order == ByteOrder::LittleEndian,
        _ => false,
    }
}

// place <= room
fn is_within(e: &Option<CoreExpr>) -> bool
    ensures { result ≡ tested (is_up_to 2 0) e.now }
{
    match e {
        Some(e) => is_most(e, 2, 0),
        None => false,
    }
}

// size <= room - place && size <= most
fn fits(e: &Option<CoreExpr>) -> bool
    ensures { result ≡ tested is_fit e.now }
{
    match e {
        Some(e) => match &e.node {
            Node::Both(a, b) => leaves_room(a) && is_most(b, 3, 1),
            _ => false,
        },
        None => false,
    }
}

// size <= room - place
fn leaves_room(e: &CoreExpr) -> bool
    ensures { result ≡ is_left e.now }
{
    match &e.node {
        Node::Compare(Relation::LessEqual, a, b) => is_name(a, 3) && is_difference(b),
        _ => false,
    }
}

// room - place
fn is_difference(e: &CoreExpr) -> bool
    ensures { result ≡ is_rest e.now }
{
    match &e.node {
        Node::Compute(Binary::Subtract, _, a, b) => is_name(a, 0) && is_name(b, 2),
        _ => false,
    }
}

// flags == 0
fn has_none(e: &Option<CoreExpr>) -> bool
    ensures { result ≡ tested is_none e.now }
{
    match e {
        Some(e) => match &e.node {
            Node::Compare(Relation::Equal, a, b) => is_name(a, 5) && is_nought(b),
            _ => false,
        },
        None => false,
    }
}

/// Whether the expression says that the value at one level is at most that at the other.
fn is_most(e: &CoreExpr, one: u32, other: u32) -> bool
    ensures { result ≡ is_up_to one other e.now }
{
    match &e.node {
        Node::Compare(Relation::LessEqual, a, b) => is_name(a, one) && is_name(b, other),
        _ => false,
    }
}

/// Whether the expression is the value at this level.
fn is_name(e: &CoreExpr, level: u32) -> bool
    ensures { result ≡ is_level level e.now }
{
    match &e.node {
        Node::Name { level: other, .. } => *other == level,
        _ => false,
    }
}

fn is_nought(e: &CoreExpr) -> bool
    ensures { result ≡ is_zero e.now }
{
    match &e.node {
        Node::Number { value, .. } => *value == 0,
        _ => false,
    }
}

/// Whether the action gives the value at this level to this cell, and does no more.
fn gives(action: &Option<Action>, cell: u32, level: u32) -> bool
    ensures { result ≡ delivered cell level action.now }
{
    match action {
        Some(action) => match &action.step {
            ActionStep::Set(other, e, then) => {
                *other == cell && (is_name(e, level) && is_end(then))
            }
            _ => false,
        },
        None => false,
    }
}

fn is_end(action: &Action) -> bool
    ensures { result ≡ is_done action.now }
{
    match &action.step {
        ActionStep::Done => true,
        _ => false,
    }
}
