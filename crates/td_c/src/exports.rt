//! What C calls to open, share and close a session, and to validate.

ghost use Rattle.std.specs.Prelude.{◌≡◌, ◌⊎◌, ◌↔◌, [], IsTrue, IsNone, IfOk, IfErr, OnErr, pos, true, false};
ghost use Rattle.td_stream.specs.Layouts.{AreWithin};
ghost use Rattle.td_c.specs.Kept.{HoldsImage, HoldsCopy, IsAnswered, IsAnsweredInParts, IsClosed, IsCopy, IsSharing};
ghost use Rattle.td_c.specs.Asked as asked;
ghost use Rattle.td_c.specs.Images.{IsFault};

use crate::answers::{CLOSED, DONE, NO_MEMORY, number_of};
use crate::call::{TdCall, validate_within};
use crate::handle::{Slot, TdSession};
use crate::images::{TdFault, code_of};
use crate::parts::{TdStretch, is_within, layout_of};
use std::alloc::{AllocError, Global};
use std::mem;
use td_foreign::{TdLoad, TdWords};
use td_session::session::Session;
use td_stream::layout::Layout;

/// A slot for a handle that has none yet; none for one that has its slot. Takes no memory for that.
pub(crate) fn room_for(alloc: Global, full: bool) -> Result<Option<Box<Slot>>, AllocError>
    ensures room { IfOk result (λ room. IsNone room ↔ (full ≡ true)) }
    ensures memory { OnErr result (full ≡ false) }
{
    if full {
        return Ok(None);
    }
    Ok(Some(Box::new(alloc, Slot::empty())?))
}

/// Puts something into a handle's slot, or into this one, where the handle has none.
pub(crate) fn put_into(handle: &mut TdSession, room: Option<Box<Slot>>, content: Slot)
    requires { IsNone room ↔ (handle.old.full ≡ true) }
    ensures full { handle.new.full ≡ true }
    ensures held { handle.new.value ≡ content }
{
    match room {
        Some(held) => {
            let slot = Box::leak(held);
            *slot = content;
            handle.put(slot);
        }
        None => {
            let slot = handle.take();
            *slot = content;
            handle.put(slot);
        }
    }
}

/// Puts something into a handle's slot; a handle that has no slot yet gets one.
pub(crate) fn put(alloc: Global, handle: &mut TdSession, full: bool, content: Slot) -> i32
    requires { handle.old.full ≡ full }
    ensures which { (result ≡ pos 0) ⊎ (result ≡ pos 4) }
    ensures held { result ≡ pos 0 → (handle.new.full ≡ true) × (handle.new.value ≡ content) }
    ensures kept { result ≡ pos 4 → handle.new ≡ handle.old }
    // A handle that has its slot takes no memory.
    ensures memory { result ≡ pos 4 → full ≡ false }
{
    let Ok(room) = room_for(alloc, full) else {
        return NO_MEMORY;
    };
    put_into(handle, room, content);
    DONE
}

/// Reads an image, verifies its code and takes room for validations. What the handle held before is freed. The number in the name is
/// that of the layouts of capi/td.h, so a header of other layouts doesn't link.
#[unsafe(no_mangle)]
pub extern "C" fn td_c_open_1(
    alloc: Global,
    handle: &mut TdSession,
    full: bool,
    image: &[u8],
    fault: &mut TdFault,
) -> i32
    requires { handle.old.full ≡ full }
    // Where it is done, the handle holds a session by the code of which the bytes are the image, and nothing else.
    ensures opened { result ≡ pos 0 → (handle.new.full ≡ true) × HoldsImage handle.new.value image.now }
    // Else the number says why the bytes are no image, or there was no memory for what they hold, and the handle is as before.
    ensures refused { IsFault result fault.old fault.new image.now }
    ensures kept { (result ≡ pos 0 → ⊥) → handle.new ≡ handle.old }
{
    match Session::read(alloc, image) {
        Ok(session) => put(alloc, handle, full, Slot::of_session(session)),
        Err(error) => code_of(error, fault),
    }
}

fn again(alloc: Global, slot: &Slot) -> Result<Session, i32>
    ensures copy { IfOk result (λ s. IsCopy slot.now s) }
    ensures code { IfErr result (λ code. IsSharing slot.now code × (code ≡ pos 0 → ⊥)) }
{
    match &slot.session {
        Some(session) => match session.again(alloc) {
            Ok(made) => Ok(made),
            Err(_) => Err(NO_MEMORY),
        },
        None => Err(CLOSED),
    }
}

/// Another session by the same code, for another thread.
#[unsafe(no_mangle)]
pub extern "C" fn td_c_again(
    alloc: Global,
    handle: &mut TdSession,
    full: bool,
    other: &mut TdSession,
    other_full: bool,
) -> i32
    requires handle { handle.old.full ≡ full }
    requires other { other.old.full ≡ other_full }
    ensures closed { full ≡ false → (result ≡ pos 3) × (handle.new ≡ handle.old) }
    ensures answer { full ≡ true → IsSharing handle.old.value result }
    ensures kept { full ≡ true → (handle.new.full ≡ true) × (handle.new.value ≡ handle.old.value) }
    ensures other { (result ≡ pos 0 → ⊥) → other.new ≡ other.old }
    ensures again { result ≡ pos 0 → (full ≡ true) × (other.new.full ≡ true) × HoldsCopy handle.old.value other.new.value }
{
    if !full {
        return CLOSED;
    }
    let slot = handle.take();
    let made = again(alloc, slot);
    handle.put(slot);
    match made {
        Ok(session) => put(alloc, other, other_full, Slot::of_session(session)),
        Err(code) => code,
    }
}

/// Frees a session, but for its slot.
#[unsafe(no_mangle)]
pub extern "C" fn td_c_close(handle: &mut TdSession, full: bool)
    requires { handle.old.full ≡ full }
    ensures closed { full ≡ true → (handle.new.full ≡ true) × IsClosed handle.new.value }
    ensures kept { full ≡ false → handle.new ≡ handle.old }
{
    if full {
        let slot = handle.take();
        *slot = Slot::empty();
        handle.put(slot);
    }
}

// Validates by the slot's session a message that lies so, where it is within the words; the slot keeps the answer and the loads.
fn validate_in(
    slot: &mut Slot,
    call: &mut TdCall,
    layout: &Layout,
    inside: bool,
    words: TdWords,
    count: usize,
    rows: &mut [TdLoad],
) -> (i32, TdWords)
    requires inside { IsTrue inside ↔ AreWithin count layout.now }
    requires count { words.count ≡ count }
    requires fresh { words.made ≡ [] }
    ensures answered { IsAnswered slot.old slot.new call.old call.new layout.now count result.1.made rows.old rows.new result.0 }
    ensures words { result.1.count ≡ count }
{
    let Some(session) = &mut slot.session else {
        return (CLOSED, words);
    };
    let (answer, made, words) = validate_within(session, call, layout, inside, words, count, rows);
    slot.answer = answer;
    slot.made = made;
    (number_of(answer), words)
}

/// Validates a message that is one stretch of the words: each word is loaded at most once, in rising order, by one atomic load. The loads are
/// written into the rows, as far as there is room. Takes no memory, and waits for nobody.
#[unsafe(no_mangle)]
pub extern "C" fn td_c_validate(
    handle: &mut TdSession,
    full: bool,
    call: &mut TdCall,
    words: &mut TdWords,
    count: usize,
    rows: &mut [TdLoad],
) -> i32
    requires handle { handle.old.full ≡ full }
    requires words { words.old.count ≡ count }
    requires fresh { words.old.made ≡ [] }
    ensures closed { full ≡ false → (result ≡ pos 3) × (handle.new ≡ handle.old) × asked.IsUntouched call.old call.new (words.new.made ≡ []) rows.old rows.new }
    ensures open { full ≡ true → handle.new.full ≡ true }
    // The answer is that of the code's run on every byte list that carries the loads, and the loads are all that were made; the rows begin
    // with these loads.
    ensures answered { full ≡ true → IsAnswered handle.old.value handle.new.value call.old call.new (asked.layout_of call.old) count words.new.made rows.old rows.new result }
    ensures words { words.new.count ≡ count }
{
    if !full {
        return CLOSED;
    }
    let slot = handle.take();
    let memory = mem::replace(words, TdWords::none());
    let layout = Layout::one(call.place, call.length);
    let inside = is_within(call.place, call.length, count);
    let (code, memory) = validate_in(slot, call, &layout, inside, memory, count, rows);
    *words = memory;
    handle.put(slot);
    code
}

// The same of a message that is these stretches, which are looked at only where the slot holds a session.
fn validate_parts_in(
    alloc: Global,
    slot: &mut Slot,
    call: &mut TdCall,
    parts: &[TdStretch],
    words: TdWords,
    count: usize,
    rows: &mut [TdLoad],
) -> (i32, TdWords)
    requires count { words.count ≡ count }
    requires fresh { words.made ≡ [] }
    ensures answered { IsAnsweredInParts slot.old slot.new call.old call.new parts.now count result.1.made rows.old rows.new result.0 }
    ensures words { result.1.count ≡ count }
{
    if slot.session.is_none() {
        return (CLOSED, words);
    }
    let (layout, inside) = match layout_of(alloc, parts, count) {
        Ok(found) => found,
        Err(code) => return (code, words),
    };
    validate_in(slot, call, &layout, inside, words, count, rows)
}

/// The same for a message that is these stretches of the words, one after the other; the place and length of the call aren't
/// looked at. Takes memory for the list of stretches before the first load, and gives it back.
#[unsafe(no_mangle)]
pub extern "C" fn td_c_validate_parts(
    alloc: Global,
    handle: &mut TdSession,
    full: bool,
    call: &mut TdCall,
    parts: &[TdStretch],
    words: &mut TdWords,
    count: usize,
    rows: &mut [TdLoad],
) -> i32
    requires handle { handle.old.full ≡ full }
    requires words { words.old.count ≡ count }
    requires fresh { words.old.made ≡ [] }
    ensures closed { full ≡ false → (result ≡ pos 3) × (handle.new ≡ handle.old) × asked.IsUntouched call.old call.new (words.new.made ≡ []) rows.old rows.new }
    ensures open { full ≡ true → handle.new.full ≡ true }
    // The slot holds no session, or the stretches have no layout, and all is as before; or the answer is that of the code's run.
    ensures answered { full ≡ true → IsAnsweredInParts handle.old.value handle.new.value call.old call.new parts.now count words.new.made rows.old rows.new result }
    ensures words { words.new.count ≡ count }
{
    if !full {
        return CLOSED;
    }
    let slot = handle.take();
    let memory = mem::replace(words, TdWords::none());
    let (code, memory) = validate_parts_in(alloc, slot, call, parts, memory, count, rows);
    *words = memory;
    handle.put(slot);
    code
}
