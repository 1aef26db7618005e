//! Copy buffers that are handed on.

ghost use Rattle.std.specs.Prelude.{◌≡◌, ◌<◌, ◌≤◌, ◌+◌, ◌*◌, ◌^◌, ◌++◌, [], ◌∷◌, length, IfOk, OnErr, OnOk, slice_get};
ghost use Rattle.td_elab_rules.specs.Types.{has_room, buffer_found, buffer_named, buffer_or_none, args_buffers, fits_buffers, buffer_cells};
ghost use Rattle.td_elab_types.specs.Runs.{buffer_of};

use crate::signatures::parameter_at;
use std::alloc::AllocError;
use td_ast::expressions::{Expr, ExprKind};
use td_core::module::Buffer;
use td_elab_exprs::look_up::look_up;
use td_elab_rules::known::{Found, Known, Local, Parameter, Scope};
use td_num::items::Items;

/// Whether the copy buffer at a place has this room, by the rooms of all.
fn has_room(rooms: &[u32], place: u32, room: u32) -> bool
    ensures { result ≡ has_room (slice_get rooms.now place) room }
{
    match rooms.get(place as usize) {
        Some(own) => *own == room,
        None => false,
    }
}

/// The copy buffer of this room, by its place, where that was found.
fn buffer_found(scope: &Scope, room: u32, found: Found) -> Option<u32>
    ensures { result ≡ buffer_found scope.now room found }
{
    match found {
        Found::Local(Local::Buffer(place)) => {
            if has_room(scope.buffers.as_slice(), place, room) {
                Some(place)
            } else {
                None
            }
        }
        _ => None,
    }
}

/// The copy buffer that an argument names, where it is the plain name of one of this room.
pub(crate) fn buffer_named(known: &Known, scope: &Scope, room: u32, e: &Expr) -> Option<u32>
    ensures { result ≡ buffer_named known.now scope.now room e.now }
{
    match &e.kind {
        ExprKind::Name(n) => buffer_found(scope, room, look_up(known, scope, n.text.as_slice())),
        _ => None,
    }
}

/// The copy buffer that an argument names, where its parameter takes one.
fn buffer_of(known: &Known, scope: &Scope, parameter: Parameter, arg: &Expr) -> Option<u32>
    ensures { buffer_or_none result ≡ buffer_of known.now scope.now parameter arg.now }
{
    match parameter {
        Parameter::Value(_) | Parameter::Cells(_) => None,
        Parameter::Buffer(room) => buffer_named(known, scope, room, arg),
    }
}

/// One more copy buffer, where there is one. `AllocError`: out of memory.
fn add_buffer(buffers: &mut Items<u32>, buffer: Option<u32>) -> Result<(), AllocError>
    ensures { OnOk result (buffers.new ≡ buffers.old ++ buffer_or_none buffer) }
{
    match buffer {
        Some(place) => buffers.push(place),
        None => Ok(()),
    }
}

/// The copy buffers that are handed on, after those before. `AllocError`: there is an argument, and out of memory.
pub(crate) fn add_buffers(
    known: &Known,
    scope: &Scope,
    parameters: &[Parameter],
    args: &[Expr],
    buffers: &mut Items<u32>,
) -> Result<(), AllocError>
    ensures memory { OnErr result (0 < length args.now) }
    ensures buffers { OnOk result (buffers.new ≡ buffers.old ++ args_buffers known.now scope.now parameters.now args.now) }
{
    for (i, arg) in args.iter().enumerate() {
        match parameter_at(parameters, i) {
            Some(parameter) => add_buffer(buffers, buffer_of(known, scope, parameter, arg))?,
            None => return Ok(()),
        }
    }
    Ok(())
}

/// Whether the copy buffers are as many as a type has, each of the same room.
pub(crate) fn fits_buffers(rooms: &[u32], buffers: &[Buffer], places: &[u32]) -> bool
    ensures { result ≡ fits_buffers rooms.now buffers.now places.now }
{
    if buffers.len() != places.len() {
        return false;
    }
    for (i, buffer) in buffers.iter().enumerate() {
        if !has_room(rooms, places[i], buffer.room) {
            return false;
        }
    }
    true
}

/// The first cell of a copy buffer behind so many other cells. `AllocError`: it or the next is 2^32 or more.
pub fn first_cell(count: usize, buffer: u32) -> Result<u32, AllocError>
    ensures cell { IfOk result (λ cell. (cell ≡ count + 2 * buffer) × (cell + 1 < 2 ^ 32)) }
    ensures full { OnErr result (2 ^ 32 ≤ count + 2 * buffer + 1) }
{
    if count >= u32::MAX as usize {
        return Err(AllocError);
    }
    let cell = count as u64 + 2 * u64::from(buffer);
    if cell >= u64::from(u32::MAX) {
        return Err(AllocError);
    }
    Ok(cell as u32)
}

/// A cell and the next one, after those before. `AllocError`: out of memory.
fn add_pair(cells: &mut Items<u32>, cell: u32) -> Result<(), AllocError>
    requires { cell + 1 < 2 ^ 32 }
    ensures { OnOk result (cells.new ≡ (cells.old ++ cell ∷ []) ++ (cell + 1) ∷ []) }
{
    cells.push(cell)?;
    cells.push(cell + 1)
}

/// Both cells of each of these copy buffers, behind so many other cells, after those before. `AllocError`: there is one, and
/// out of memory.
pub(crate) fn add_pairs(
    cells: &mut Items<u32>,
    count: usize,
    buffers: &[u32],
) -> Result<(), AllocError>
    ensures memory { OnErr result (0 < length buffers.now) }
    ensures cells { OnOk result (cells.new ≡ cells.old ++ buffer_cells count buffers.now) }
{
    for buffer in buffers {
        let cell = first_cell(count, *buffer)?;
        add_pair(cells, cell)?;
    }
    Ok(())
}
