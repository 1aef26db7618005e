//! What C calls to find entry points, names, parameters, cells and copy buffers.

ghost use Rattle.std.specs.Prelude.{◌≡◌, pos, true, false};
ghost use Rattle.td_c.specs.Told.{IsLookup, IsFound, IsLost, HasParam, HasCell, HasBuffer, HasEntry, HasName, LacksParam, LacksCell, LacksBuffer, LacksEntry, LacksName, param_told, field_told, kind_told, cell_told};

use crate::answers::{CLOSED, DONE, MISSING};
use crate::handle::{Slot, TdSession};
use td_core::module::{Cell, CellKind, Entry, NameId, Param};
use td_num::number::byte_count;

/// An entry point: the number of its name, and how many parameters, cells and copy buffers it has.
#[repr(C)]
#[derive(Clone, Copy)]
pub struct TdEntry {
    pub name: u32,
    pub unused: u32,
    pub param_count: u64,
    pub cell_count: u64,
    pub buffer_count: u64,
}

/// A copy buffer: the number of its name, and for how many bytes it has room.
#[repr(C)]
#[derive(Clone, Copy)]
pub struct TdBuffer {
    pub name: u32,
    pub room: u32,
}

/// A parameter or a cell: the number of its name; for a field of an output record 1 and the number of the field's name; how
/// many bytes its number has, and 1 where it is a place in the message.
#[repr(C)]
#[derive(Clone, Copy)]
pub struct TdPart {
    pub name: u32,
    pub has_field: u32,
    pub field: u32,
    pub bytes: u32,
    pub is_place: u32,
}

fn param_of(param: Param) -> TdPart
    ensures { result ≡ param_told param }
{
    TdPart {
        name: param.name.number,
        has_field: 0,
        field: 0,
        bytes: byte_count(param.width),
        is_place: 0,
    }
}

fn field_of(field: Option<NameId>) -> (u32, u32)
    ensures { result ≡ field_told field }
{
    match field {
        Some(name) => (1, name.number),
        None => (0, 0),
    }
}

fn kind_of(kind: CellKind) -> (u32, u32)
    ensures { result ≡ kind_told kind }
{
    match kind {
        CellKind::Number(width) => (byte_count(width), 0),
        CellKind::Pointer => (4, 1),
    }
}

fn cell_of(cell: Cell) -> TdPart
    ensures { result ≡ cell_told cell }
{
    let (has_field, field) = field_of(cell.field);
    let (bytes, is_place) = kind_of(cell.kind);
    TdPart {
        name: cell.name.number,
        has_field,
        field,
        bytes,
        is_place,
    }
}

fn find_entry(slot: &Slot, name: &[u8], number: &mut u32) -> i32
    ensures answer { IsLookup slot.now result }
    ensures found { result ≡ pos 0 → IsFound slot.now name.now number.new }
    ensures missing { result ≡ pos 5 → IsLost slot.now name.now }
    ensures untold { (result ≡ pos 0 → ⊥) → number.new ≡ number.old }
{
    let Some(session) = &slot.session else {
        return CLOSED;
    };
    match session.entry(name) {
        Some(entry) => {
            *number = entry.number;
            DONE
        }
        None => MISSING,
    }
}

/// The number of the first entry point of this name. Takes no memory.
#[unsafe(no_mangle)]
pub extern "C" fn td_c_entry(
    handle: &mut TdSession,
    full: bool,
    name: &[u8],
    number: &mut u32,
) -> i32
    requires { handle.old.full ≡ full }
    ensures closed { full ≡ false → (result ≡ pos 3) × (handle.new ≡ handle.old) }
    ensures kept { full ≡ true → (handle.new.full ≡ true) × (handle.new.value ≡ handle.old.value) }
    ensures answer { full ≡ true → IsLookup handle.old.value result }
    ensures found { full ≡ true → result ≡ pos 0 → IsFound handle.old.value name.now number.new }
    ensures missing { full ≡ true → result ≡ pos 5 → IsLost handle.old.value name.now }
    ensures untold { (result ≡ pos 0 → ⊥) → number.new ≡ number.old }
{
    if !full {
        return CLOSED;
    }
    let slot = handle.take();
    let code = find_entry(slot, name, number);
    handle.put(slot);
    code
}

fn describe(slot: &Slot, number: u32, told: &mut TdEntry) -> i32
    ensures answer { IsLookup slot.now result }
    ensures described { result ≡ pos 0 → HasEntry slot.now number told.new }
    ensures missing { result ≡ pos 5 → LacksEntry slot.now number }
    ensures untold { (result ≡ pos 0 → ⊥) → told.new ≡ told.old }
{
    let Some(session) = &slot.session else {
        return CLOSED;
    };
    let entry = Entry { number };
    let (Some(name), Some(params), Some(cells), Some(buffers)) = (
        session.entry_name(entry),
        session.params(entry),
        session.cells(entry),
        session.buffers(entry),
    ) else {
        return MISSING;
    };
    *told = TdEntry {
        name: name.number,
        unused: 0,
        param_count: params.len() as u64,
        cell_count: cells.len() as u64,
        buffer_count: buffers.len() as u64,
    };
    DONE
}

/// What an entry point has.
#[unsafe(no_mangle)]
pub extern "C" fn td_c_describe(
    handle: &mut TdSession,
    full: bool,
    number: u32,
    told: &mut TdEntry,
) -> i32
    requires { handle.old.full ≡ full }
    ensures closed { full ≡ false → (result ≡ pos 3) × (handle.new ≡ handle.old) }
    ensures kept { full ≡ true → (handle.new.full ≡ true) × (handle.new.value ≡ handle.old.value) }
    ensures answer { full ≡ true → IsLookup handle.old.value result }
    ensures described { full ≡ true → result ≡ pos 0 → HasEntry handle.old.value number told.new }
    ensures missing { full ≡ true → result ≡ pos 5 → LacksEntry handle.old.value number }
    ensures untold { (result ≡ pos 0 → ⊥) → told.new ≡ told.old }
{
    if !full {
        return CLOSED;
    }
    let slot = handle.take();
    let code = describe(slot, number, told);
    handle.put(slot);
    code
}

fn param_at(slot: &Slot, number: u32, place: usize, told: &mut TdPart) -> i32
    ensures answer { IsLookup slot.now result }
    ensures param { result ≡ pos 0 → HasParam slot.now number place told.new }
    ensures missing { result ≡ pos 5 → LacksParam slot.now number place }
    ensures untold { (result ≡ pos 0 → ⊥) → told.new ≡ told.old }
{
    let Some(session) = &slot.session else {
        return CLOSED;
    };
    let Some(params) = session.params(Entry { number }) else {
        return MISSING;
    };
    if place >= params.len() {
        return MISSING;
    }
    *told = param_of(params[place]);
    DONE
}

/// A parameter of an entry point, by its place.
#[unsafe(no_mangle)]
pub extern "C" fn td_c_param(
    handle: &mut TdSession,
    full: bool,
    number: u32,
    place: usize,
    told: &mut TdPart,
) -> i32
    requires { handle.old.full ≡ full }
    ensures closed { full ≡ false → (result ≡ pos 3) × (handle.new ≡ handle.old) }
    ensures kept { full ≡ true → (handle.new.full ≡ true) × (handle.new.value ≡ handle.old.value) }
    ensures answer { full ≡ true → IsLookup handle.old.value result }
    ensures param { full ≡ true → result ≡ pos 0 → HasParam handle.old.value number place told.new }
    ensures missing { full ≡ true → result ≡ pos 5 → LacksParam handle.old.value number place }
    ensures untold { (result ≡ pos 0 → ⊥) → told.new ≡ told.old }
{
    if !full {
        return CLOSED;
    }
    let slot = handle.take();
    let code = param_at(slot, number, place, told);
    handle.put(slot);
    code
}

fn cell_at(slot: &Slot, number: u32, place: usize, told: &mut TdPart) -> i32
    ensures answer { IsLookup slot.now result }
    ensures cell { result ≡ pos 0 → HasCell slot.now number place told.new }
    ensures missing { result ≡ pos 5 → LacksCell slot.now number place }
    ensures untold { (result ≡ pos 0 → ⊥) → told.new ≡ told.old }
{
    let Some(session) = &slot.session else {
        return CLOSED;
    };
    let Some(cells) = session.cells(Entry { number }) else {
        return MISSING;
    };
    if place >= cells.len() {
        return MISSING;
    }
    *told = cell_of(cells[place]);
    DONE
}

/// A cell of an entry point, by its place.
#[unsafe(no_mangle)]
pub extern "C" fn td_c_cell(
    handle: &mut TdSession,
    full: bool,
    number: u32,
    place: usize,
    told: &mut TdPart,
) -> i32
    requires { handle.old.full ≡ full }
    ensures closed { full ≡ false → (result ≡ pos 3) × (handle.new ≡ handle.old) }
    ensures kept { full ≡ true → (handle.new.full ≡ true) × (handle.new.value ≡ handle.old.value) }
    ensures answer { full ≡ true → IsLookup handle.old.value result }
    ensures cell { full ≡ true → result ≡ pos 0 → HasCell handle.old.value number place told.new }
    ensures missing { full ≡ true → result ≡ pos 5 → LacksCell handle.old.value number place }
    ensures untold { (result ≡ pos 0 → ⊥) → told.new ≡ told.old }
{
    if !full {
        return CLOSED;
    }
    let slot = handle.take();
    let code = cell_at(slot, number, place, told);
    handle.put(slot);
    code
}

fn buffer_at(slot: &Slot, number: u32, place: usize, told: &mut TdBuffer) -> i32
    ensures answer { IsLookup slot.now result }
    ensures buffer { result ≡ pos 0 → HasBuffer slot.now number place told.new }
    ensures missing { result ≡ pos 5 → LacksBuffer slot.now number place }
    ensures untold { (result ≡ pos 0 → ⊥) → told.new ≡ told.old }
{
    let Some(session) = &slot.session else {
        return CLOSED;
    };
    let entry = Entry { number };
    let (Some(names), Some(rooms)) = (session.buffers(entry), session.rooms(entry)) else {
        return MISSING;
    };
    if place >= names.len() {
        return MISSING;
    }
    *told = TdBuffer {
        name: names[place].number,
        room: rooms[place],
    };
    DONE
}

/// A copy buffer of an entry point, by its place.
#[unsafe(no_mangle)]
pub extern "C" fn td_c_buffer(
    handle: &mut TdSession,
    full: bool,
    number: u32,
    place: usize,
    told: &mut TdBuffer,
) -> i32
    requires { handle.old.full ≡ full }
    ensures closed { full ≡ false → (result ≡ pos 3) × (handle.new ≡ handle.old) }
    ensures kept { full ≡ true → (handle.new.full ≡ true) × (handle.new.value ≡ handle.old.value) }
    ensures answer { full ≡ true → IsLookup handle.old.value result }
    ensures buffer { full ≡ true → result ≡ pos 0 → HasBuffer handle.old.value number place told.new }
    ensures missing { full ≡ true → result ≡ pos 5 → LacksBuffer handle.old.value number place }
    ensures untold { (result ≡ pos 0 → ⊥) → told.new ≡ told.old }
{
    if !full {
        return CLOSED;
    }
    let slot = handle.take();
    let code = buffer_at(slot, number, place, told);
    handle.put(slot);
    code
}

fn name_of(slot: &Slot, number: u32, bytes: &mut [u8], size: &mut u64) -> i32
    ensures answer { IsLookup slot.now result }
    ensures name { result ≡ pos 0 → HasName slot.now number bytes.old bytes.new size.new }
    ensures missing { result ≡ pos 5 → LacksName slot.now number }
    ensures untold { (result ≡ pos 0 → ⊥) → (bytes.new ≡ bytes.old) × (size.new ≡ size.old) }
{
    let Some(session) = &slot.session else {
        return CLOSED;
    };
    let Some(name) = session.name(NameId { number }) else {
        return MISSING;
    };
    name.write_front(bytes);
    *size = name.len() as u64;
    DONE
}

/// Writes as much of a name as there is room for, and its length.
#[unsafe(no_mangle)]
pub extern "C" fn td_c_name(
    handle: &mut TdSession,
    full: bool,
    number: u32,
    bytes: &mut [u8],
    size: &mut u64,
) -> i32
    requires { handle.old.full ≡ full }
    ensures closed { full ≡ false → (result ≡ pos 3) × (handle.new ≡ handle.old) }
    ensures kept { full ≡ true → (handle.new.full ≡ true) × (handle.new.value ≡ handle.old.value) }
    ensures answer { full ≡ true → IsLookup handle.old.value result }
    ensures name { full ≡ true → result ≡ pos 0 → HasName handle.old.value number bytes.old bytes.new size.new }
    ensures missing { full ≡ true → result ≡ pos 5 → LacksName handle.old.value number }
    ensures untold { (result ≡ pos 0 → ⊥) → (bytes.new ≡ bytes.old) × (size.new ≡ size.old) }
{
    if !full {
        return CLOSED;
    }
    let slot = handle.take();
    let code = name_of(slot, number, bytes, size);
    handle.put(slot);
    code
}
