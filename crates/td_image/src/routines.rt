//! The tables of routines and entry points. Memory runs out only once a first row was read: none is taken for a count alone.

ghost use Rattle.std.specs.Prelude.{◌≡◌, ◌<◌, length};
ghost use Rattle.td_image.specs.Format.{times};
ghost use Rattle.td_image.specs.Image as format;
ghost use Rattle.td_image.specs.Reading.{Reads, IsDecided, RanOutOnlyIf};

use crate::buffers::{buffer_names_of, buffers_of};
use crate::fault::{Cause, ReadError};
use crate::fields::{name_place, place, u16_between, u16_up_to, u32_at, wrong};
use crate::limits::{MOST_CELLS, MOST_PARAMETERS, MOST_REGISTERS, NO_FIELD};
use crate::version::ImageVersion;
use std::alloc::Global;
use td_core::module::{Cell, CellKind, NameId, Param};
use td_ir::tables::{EntryPoint, Routine};
use td_num::items::Items;
use td_num::number::Width;

/// How many instructions no routine has yet, and how many routines there are still.
#[derive(Clone, Copy)]
pub struct Room {
    pub left: u32,
    pub more: u32,
}

// Whether a routine of so many instructions has room. The last one has all that are left.
fn is_length(room: Room, n: u32) -> bool
    ensures { result ≡ format.is_length room n }
{
    1 <= n && n <= room.left && (!(room.more == 1) || n == room.left)
}

fn after_routine(room: Room, routine: &Routine) -> Room
    ensures { result ≡ format.after_routine room routine.now }
{
    Room {
        left: room.left.saturating_sub(routine.length),
        more: room.more.saturating_sub(1),
    }
}

fn length_of(room: Room, bytes: &[u8]) -> Result<(u32, &[u8]), ReadError>
    ensures read { Reads (λ x. (x.0, x.1.now)) result ((format.routine_length room).read bytes.now) }
    ensures decided { IsDecided result }
{
    let (n, rest) = u32_at(bytes)?;
    if is_length(room, n) {
        Ok((n, rest))
    } else {
        Err(wrong(Cause::Field, bytes))
    }
}

#[tactic(auto, unfolding(crate::specs::Image::routine))]
fn routine_of(
    alloc: Global,
    version: ImageVersion,
    names: usize,
    room: Room,
    bytes: &[u8],
) -> Result<(Routine, &[u8]), ReadError>
    ensures read { Reads (λ x. (x.0, x.1.now)) result ((format.routine version names room).read bytes.now) }
    ensures memory { RanOutOnlyIf result ((format.routine version names room).RunsOut bytes.now) }
{
    let (name, rest) = name_place(bytes, names)?;
    let (params, rest) = u16_up_to(rest, MOST_PARAMETERS)?;
    let (cells, rest) = u16_up_to(rest, MOST_CELLS)?;
    let (registers, rest) = u16_between(rest, params, MOST_REGISTERS)?;
    let (length, rest) = length_of(room, rest)?;
    let (buffers, rest) = buffers_of(alloc, version, rest)?;
    let routine = Routine {
        name,
        params,
        cells,
        registers,
        buffers,
        length,
    };
    Ok((routine, rest))
}

/// So many routines, each of which begins where the one before it ends.
pub(crate) fn routines_of(
    alloc: Global,
    version: ImageVersion,
    count: u32,
    names: usize,
    instructions: u32,
    bytes: &[u8],
) -> Result<(Items<Routine>, &[u8]), ReadError>
    ensures read { Reads (λ x. (x.0, x.1.now)) result ((format.routines version names count instructions).read bytes.now) }
    ensures memory { RanOutOnlyIf result ((format.routines version names count instructions).RunsOut bytes.now) }
{
    let mut rows = Items::new(alloc);
    let mut room = Room {
        left: instructions,
        more: count,
    };
    let mut rest = bytes;
    for _ in 0..count {
        let (row, after) = routine_of(alloc, version, names, room, rest)?;
        room = after_routine(room, &row);
        rows.push(row)?;
        rest = after;
    }
    Ok((rows, rest))
}

fn is_width(n: u32) -> bool
    ensures { result ≡ format.is_width n }
{
    n == 8 || n == 16 || n == 32 || n == 64
}

fn width_of(bits: u32) -> Width
    ensures { result ≡ format.width_of bits }
{
    if bits == 8 {
        Width::One
    } else if bits == 16 {
        Width::Two
    } else if bits == 32 {
        Width::Four
    } else {
        Width::Eight
    }
}

fn width_at(bytes: &[u8]) -> Result<(Width, &[u8]), ReadError>
    ensures read { Reads (λ x. (x.0, x.1.now)) result (format.width.read bytes.now) }
    ensures decided { IsDecided result }
{
    let (bits, rest) = u32_at(bytes)?;
    if is_width(bits) {
        Ok((width_of(bits), rest))
    } else {
        Err(wrong(Cause::Field, bytes))
    }
}

#[tactic(auto, unfolding(crate::specs::Image::param))]
fn param_of(names: usize, bytes: &[u8]) -> Result<(Param, &[u8]), ReadError>
    ensures read { Reads (λ x. (x.0, x.1.now)) result ((format.param names).read bytes.now) }
    ensures decided { IsDecided result }
{
    let (name, rest) = name_place(bytes, names)?;
    let (width, rest) = width_at(rest)?;
    let param = Param { name, width };
    Ok((param, rest))
}

fn params_of(
    alloc: Global,
    count: u16,
    names: usize,
    bytes: &[u8],
) -> Result<(Items<Param>, &[u8]), ReadError>
    ensures read { Reads (λ x. (x.0, x.1.now)) result ((times count (format.param names)).read bytes.now) }
    ensures memory { RanOutOnlyIf result ((times count (format.param names)).RunsOut bytes.now) }
{
    let mut rows = Items::new(alloc);
    let mut rest = bytes;
    for _ in 0..count {
        let (row, after) = param_of(names, rest)?;
        rows.push(row)?;
        rest = after;
    }
    Ok((rows, rest))
}

fn field_of(n: u32) -> Option<NameId>
    ensures { result ≡ format.field_of n }
{
    if n == NO_FIELD {
        None
    } else {
        Some(NameId { number: n })
    }
}

fn field_at(names: usize, bytes: &[u8]) -> Result<(Option<NameId>, &[u8]), ReadError>
    ensures read { Reads (λ x. (x.0, x.1.now)) result ((format.cell_field names).read bytes.now) }
    ensures decided { IsDecided result }
{
    let (n, rest) = u32_at(bytes)?;
    if (n as usize) < names || n == NO_FIELD {
        Ok((field_of(n), rest))
    } else {
        Err(wrong(Cause::Field, bytes))
    }
}

fn kind_of(bits: u32) -> CellKind
    ensures { result ≡ format.kind_of bits }
{
    if bits == 0 {
        CellKind::Pointer
    } else {
        CellKind::Number(width_of(bits))
    }
}

fn kind_at(bytes: &[u8]) -> Result<(CellKind, &[u8]), ReadError>
    ensures read { Reads (λ x. (x.0, x.1.now)) result (format.cell_kind.read bytes.now) }
    ensures decided { IsDecided result }
{
    let (bits, rest) = u32_at(bytes)?;
    if bits == 0 || is_width(bits) {
        Ok((kind_of(bits), rest))
    } else {
        Err(wrong(Cause::Field, bytes))
    }
}

#[tactic(auto, unfolding(crate::specs::Image::cell))]
fn cell_of(names: usize, bytes: &[u8]) -> Result<(Cell, &[u8]), ReadError>
    ensures read { Reads (λ x. (x.0, x.1.now)) result ((format.cell names).read bytes.now) }
    ensures decided { IsDecided result }
{
    let (name, rest) = name_place(bytes, names)?;
    let (field, rest) = field_at(names, rest)?;
    let (kind, rest) = kind_at(rest)?;
    let cell = Cell { name, field, kind };
    Ok((cell, rest))
}

fn cells_of(
    alloc: Global,
    count: u16,
    names: usize,
    bytes: &[u8],
) -> Result<(Items<Cell>, &[u8]), ReadError>
    ensures read { Reads (λ x. (x.0, x.1.now)) result ((times count (format.cell names)).read bytes.now) }
    ensures memory { RanOutOnlyIf result ((times count (format.cell names)).RunsOut bytes.now) }
{
    let mut rows = Items::new(alloc);
    let mut rest = bytes;
    for _ in 0..count {
        let (row, after) = cell_of(names, rest)?;
        rows.push(row)?;
        rest = after;
    }
    Ok((rows, rest))
}

fn routine_at(routines: &[Routine], n: usize) -> &Routine
    requires { n < length routines.now }
    ensures { result.now ≡ format.routine_of routines.now n }
{
    &routines[n]
}

// How many copy buffers a routine has.
fn buffer_count(routines: &[Routine], n: usize) -> usize
    requires { n < length routines.now }
    ensures { result ≡ length (format.routine_of routines.now n).buffers }
{
    routine_at(routines, n).buffers.len()
}

/// An entry point, with as many parameters, cells and buffers as its routine.
#[tactic(auto, unfolding(crate::specs::Image::entry))]
fn entry_of<'a>(
    alloc: Global,
    names: usize,
    routines: &[Routine],
    bytes: &'a [u8],
) -> Result<(EntryPoint, &'a [u8]), ReadError>
    ensures read { Reads (λ x. (x.0, x.1.now)) result ((format.entry names routines.now).read bytes.now) }
    ensures memory { RanOutOnlyIf result ((format.entry names routines.now).RunsOut bytes.now) }
{
    let (routine, rest) = place(bytes, routines.len())?;
    let called = routine_at(routines, routine as usize);
    let count = buffer_count(routines, routine as usize);
    let (params, rest) = params_of(alloc, called.params, names, rest)?;
    let (cells, rest) = cells_of(alloc, called.cells, names, rest)?;
    let (buffers, rest) = buffer_names_of(alloc, count, names, rest)?;
    let entry = EntryPoint {
        routine,
        params,
        cells,
        buffers,
    };
    Ok((entry, rest))
}

/// So many entry points.
pub(crate) fn entries_of<'a>(
    alloc: Global,
    count: u32,
    names: usize,
    routines: &[Routine],
    bytes: &'a [u8],
) -> Result<(Items<EntryPoint>, &'a [u8]), ReadError>
    ensures read { Reads (λ x. (x.0, x.1.now)) result ((times count (format.entry names routines.now)).read bytes.now) }
    ensures memory { RanOutOnlyIf result ((times count (format.entry names routines.now)).RunsOut bytes.now) }
{
    let mut rows = Items::new(alloc);
    let mut rest = bytes;
    for _ in 0..count {
        let (row, after) = entry_of(alloc, names, routines, rest)?;
        rows.push(row)?;
        rest = after;
    }
    Ok((rows, rest))
}
