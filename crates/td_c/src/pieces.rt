//! Messages in pieces that have words of their own.

ghost use Rattle.std.specs.Prelude.{◌≡◌, ◌↔◌, ◌≤◌, [], IsSome, IsTrue, IfOk, IfErr, length, pos, true, false};
ghost use Rattle.td_stream.specs.Layouts.{length_in};
ghost use Rattle.td_foreign.specs.Pieces.{AreCounted, AreFresh, AreWhole, HasLoads};
ghost use Rattle.td_foreign.specs.Pieces as told;
ghost use Rattle.td_c.specs.Asked as asked;
ghost use Rattle.td_c.specs.Kept.{IsAnsweredInPieces, IsRoom, answered_by};
ghost use Rattle.td_c.specs.Parts.{IsMessage, IsTooMuch};

use crate::answers::{CLOSED, DONE, NO_MEMORY, TOO_MUCH, number_of};
use crate::call::{TdCall, validate_pieces};
use crate::handle::{Slot, TdSession};
use crate::parts::ends_within;
use crate::room::PieceRoom;
use std::alloc::{AllocError, Global};
use td_foreign::{TdLoad, TdPiece};
use td_num::items::Items;
use td_stream::layout::{Layout, MOST_PIECES};
use td_stream::stretch::Stretch;

// The pieces as a layout has them, in an empty list. `AllocError`: there was no memory for them.
fn stretches(empty: Items<Stretch>, pieces: &[TdPiece]) -> Result<Items<Stretch>, AllocError>
    requires { empty ≡ [] }
    ensures { IfOk result (λ list. list ≡ told.layout_of pieces.now) }
{
    let mut list = empty;
    for piece in pieces {
        list.push(Stretch {
            place: piece.place,
            size: piece.size,
        })?;
    }
    Ok(list)
}

// How many bytes they have.
fn length_of(pieces: &[TdPiece]) -> u64
    requires { length pieces.now ≤ 1024 }
    ensures { result ≡ length_in (told.layout_of pieces.now) }
{
    let mut sum = 0u64;
    for piece in pieces {
        sum += piece.size as u64;
    }
    sum
}

// Whether they are a message: at most 1,024, of fewer than 2^32 bytes in all. Takes no memory.
fn are_message(pieces: &[TdPiece]) -> bool
    ensures { IsTrue result ↔ IsMessage 1024 (told.layout_of pieces.now) }
{
    pieces.len() <= MOST_PIECES && length_of(pieces) < 1 << 32
}

// Whether each of them is within its words.
fn are_whole(pieces: &[TdPiece]) -> bool
    requires { AreCounted pieces.now }
    ensures { IsTrue result ↔ AreWhole pieces.now }
{
    for piece in pieces {
        if !ends_within(piece.place, piece.size, piece.count) {
            return false;
        }
    }
    true
}

// The layout of these pieces. The number of an answer: there are more than 1,024 of them, or they have 2^32 bytes and more; or they are a
// message, and there was no memory for its layout.
fn layout_of(alloc: Global, room: &mut PieceRoom, pieces: &[TdPiece]) -> Result<Layout, i32>
    ensures message { IfOk result (λ layout. IsMessage 1024 (told.layout_of pieces.now)) }
    ensures layout { IfOk result (λ layout. layout ≡ told.layout_of pieces.now) }
    ensures refused { IfErr result (λ code. IsTooMuch 1024 (told.layout_of pieces.now) code) }
{
    if !are_message(pieces) {
        return Err(TOO_MUCH);
    }
    let Ok(list) = stretches(room.take_list(alloc), pieces) else {
        return Err(NO_MEMORY);
    };
    match room.lay(alloc, list) {
        Ok(layout) => Ok(layout),
        Err(_) => Err(NO_MEMORY),
    }
}

// Validates by the slot's session a message that is these pieces and lies so; the slot keeps the answer and the loads.
fn validate_laid(
    slot: &mut Slot,
    call: &mut TdCall,
    layout: &Layout,
    pieces: &mut [TdPiece],
    rows: &mut [TdLoad],
) -> i32
    requires session { IsSome slot.old.session }
    requires laid { layout.now ≡ told.layout_of pieces.old }
    requires counted { AreCounted pieces.old }
    requires fresh { AreFresh pieces.old }
    ensures answered { answered_by slot.old.session slot.new.session slot.old slot.new call.old call.new layout.now (AreWhole pieces.old) (λ loads. HasLoads pieces.old pieces.new loads) rows.old rows.new result }
{
    let Some(session) = &mut slot.session else {
        unreachable!()
    };
    let whole = are_whole(pieces);
    let (answer, made) = validate_pieces(session, call, layout, whole, pieces, rows);
    slot.answer = answer;
    slot.made = made;
    number_of(answer)
}

// Validates a message that is these pieces, which are looked at only where the slot holds a session.
fn validate_pieces_in(
    alloc: Global,
    slot: &mut Slot,
    call: &mut TdCall,
    pieces: &mut [TdPiece],
    rows: &mut [TdLoad],
) -> i32
    requires counted { AreCounted pieces.old }
    requires fresh { AreFresh pieces.old }
    ensures answered { IsAnsweredInPieces slot.old slot.new call.old call.new pieces.old pieces.new rows.old rows.new result }
{
    if slot.session.is_none() {
        return CLOSED;
    }
    let layout = match layout_of(alloc, &mut slot.room, pieces) {
        Ok(layout) => layout,
        Err(code) => return code,
    };
    let code = validate_laid(slot, call, &layout, pieces, rows);
    slot.room.keep(layout);
    code
}

fn room_in(alloc: Global, slot: &mut Slot, count: usize) -> i32
    ensures answer { IsRoom slot.old count result }
    ensures kept { slot.new ≡ slot.old }
{
    if slot.session.is_none() {
        return CLOSED;
    }
    if count > MOST_PIECES {
        return TOO_MUCH;
    }
    match slot.room.reserve(alloc, count) {
        Ok(()) => DONE,
        Err(_) => NO_MEMORY,
    }
}

/// Takes room for messages of so many pieces, at most 1,024. The handle keeps it until it is closed or opened again.
#[unsafe(no_mangle)]
pub extern "C" fn td_c_room(alloc: Global, handle: &mut TdSession, full: bool, count: usize) -> i32
    requires { handle.old.full ≡ full }
    ensures closed { full ≡ false → (result ≡ pos 3) × (handle.new ≡ handle.old) }
    ensures answer { full ≡ true → IsRoom handle.old.value count result }
    ensures kept { full ≡ true → (handle.new.full ≡ true) × (handle.new.value ≡ handle.old.value) }
{
    if !full {
        return CLOSED;
    }
    let slot = handle.take();
    let code = room_in(alloc, slot, count);
    handle.put(slot);
    code
}

/// Validates a message that is these pieces, one after the other, each in words of its own; the place and length of the call aren't looked at.
/// Each word of a piece is loaded at most once, by one atomic load, piece by piece in rising order. The loads are written into the rows, as far
/// as there is room: a row's stretch is the piece, and its word is of the piece's words. Takes memory for the list of pieces before the first
/// load, where the handle has no room for so many, and keeps it.
#[unsafe(no_mangle)]
pub extern "C" fn td_c_validate_pieces(
    alloc: Global,
    handle: &mut TdSession,
    full: bool,
    call: &mut TdCall,
    pieces: &mut [TdPiece],
    rows: &mut [TdLoad],
) -> i32
    requires handle { handle.old.full ≡ full }
    requires counted { AreCounted pieces.old }
    requires fresh { AreFresh pieces.old }
    ensures closed { full ≡ false → (result ≡ pos 3) × (handle.new ≡ handle.old) × asked.IsUntouched call.old call.new (pieces.new ≡ pieces.old) rows.old rows.new }
    ensures open { full ≡ true → handle.new.full ≡ true }
    // The slot holds no session, or the pieces have no layout, and all is as before; or the answer is that of the code's run on every byte
    // list that carries the loads, and the loads are all that were made of the pieces' words.
    ensures answered { full ≡ true → IsAnsweredInPieces handle.old.value handle.new.value call.old call.new pieces.old pieces.new rows.old rows.new result }
{
    if !full {
        return CLOSED;
    }
    let slot = handle.take();
    let code = validate_pieces_in(alloc, slot, call, pieces, rows);
    handle.put(slot);
    code
}
