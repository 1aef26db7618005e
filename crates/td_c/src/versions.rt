//! What C calls to replace a code while others validate by it.

ghost use Rattle.std.specs.Prelude.{◌≡◌, ◌⊎◌, ◌<◌, ◌≤◌, ◌↔◌, ◌++◌, ◌∷◌, [], pos, true, false, Some, IfOk, IfErr, OnOk, IsNone, OnErr, IsSomeAnd, length, slice_get};
ghost use Rattle.std.specs.Arc.{arc_value};
ghost use Rattle.td_image.specs.Answer.{IsImage, MayRunOut};
ghost use Rattle.td_c.specs.Images.{IsFault};
ghost use Rattle.td_c.specs.Versions.{IsNew, IsAdding, IsBeginning, IsPublishing, IsSeating, IsLoading, IsVersioning, IsVersion, HasVersion, LacksVersion, HasSeat, MakesSeat, publishes_on, HasBegun, IsAddition, IsPublication, IsSeatOf};
ghost use Rattle.td_session.specs.Room.{IsFresh};

use crate::answers::{CLOSED, DONE, MISSING, NO_MEMORY, TOO_MUCH};
use crate::exports::{put, put_into, room_for};
use crate::handle::{Slot, TdSession};
use crate::images::{TdFault, code_of};
use std::alloc::Global;
use td_image::read_image;
use td_session::session::Session;
use td_session::versions::{Publisher, Reader};
use td_swap::version::MOST_VERSIONS;
use td_verify::verify::Verified;

/// A handle for versions, which waits for the first one. The number in the name is that of the layouts of capi/td.h, so a header of
/// other layouts doesn't link.
#[unsafe(no_mangle)]
pub extern "C" fn td_c_codes_1(alloc: Global, handle: &mut TdSession, full: bool) -> i32
    requires { handle.old.full ≡ full }
    ensures which { (result ≡ pos 0) ⊎ (result ≡ pos 4) }
    ensures new { result ≡ pos 0 → (handle.new.full ≡ true) × IsNew handle.new.value }
    ensures kept { result ≡ pos 4 → handle.new ≡ handle.old }
    // A handle that has its slot takes no memory.
    ensures memory { result ≡ pos 4 → full ≡ false }
{
    put(alloc, handle, full, Slot::of_versions(Vec::new(alloc)))
}

// The code of an image, or the number that says why there is none.
fn code_in(alloc: Global, image: &[u8], fault: &mut TdFault) -> Result<Verified, i32>
    ensures found { IfOk result (λ p. IsImage p image.now) }
    ensures untold { IfOk result (λ p. fault.new ≡ fault.old) }
    ensures room { OnOk result (MayRunOut image.now) }
    ensures refused { IfErr result (λ code. IsFault code fault.old fault.new image.now × (code ≡ pos 0 → ⊥) × (code ≡ pos 8 → ⊥)) }
{
    match read_image(alloc, image) {
        Ok(code) => Ok(code),
        Err(error) => Err(code_of(error, fault)),
    }
}

// One more that waits. The number of an answer: it does, or there was no memory for it.
fn keep(codes: &mut Vec<Verified>, code: Verified) -> i32
    ensures which { (result ≡ pos 0) ⊎ (result ≡ pos 4) }
    ensures kept { result ≡ pos 0 → codes.new.items ≡ codes.old.items ++ code ∷ [] }
    ensures refused { result ≡ pos 4 → codes.new.items ≡ codes.old.items }
{
    match codes.push(code) {
        Ok(()) => DONE,
        Err(_) => NO_MEMORY,
    }
}

// A version more.
fn add_to(alloc: Global, codes: &mut Vec<Verified>, image: &[u8], fault: &mut TdFault) -> i32
    ensures { IsAddition codes.old.items codes.new.items fault.old fault.new image.now result }
{
    if codes.len() >= MOST_VERSIONS {
        return TOO_MUCH;
    }
    match code_in(alloc, image, fault) {
        Ok(code) => keep(codes, code),
        Err(code) => code,
    }
}

fn add_in(alloc: Global, slot: &mut Slot, image: &[u8], fault: &mut TdFault) -> i32
    ensures { IsAdding slot.old slot.new fault.old fault.new image.now result }
{
    match &mut slot.waiting {
        Some(codes) => add_to(alloc, codes, image, fault),
        None => CLOSED,
    }
}

/// A version more, by its image. None is published yet.
#[unsafe(no_mangle)]
pub extern "C" fn td_c_add(
    alloc: Global,
    handle: &mut TdSession,
    full: bool,
    image: &[u8],
    fault: &mut TdFault,
) -> i32
    requires { handle.old.full ≡ full }
    ensures closed { full ≡ false → (result ≡ pos 3) × (handle.new ≡ handle.old) × (fault.new ≡ fault.old) }
    ensures open { full ≡ true → handle.new.full ≡ true }
    ensures added { full ≡ true → IsAdding handle.old.value handle.new.value fault.old fault.new image.now result }
{
    if !full {
        return CLOSED;
    }
    let slot = handle.take();
    let code = add_in(alloc, slot, image, fault);
    handle.put(slot);
    code
}

fn begin_in(alloc: Global, slot: &mut Slot) -> i32
    ensures { IsBeginning slot.old slot.new result }
{
    let Some(codes) = slot.waiting.take() else {
        return CLOSED;
    };
    if codes.is_empty() {
        slot.waiting = Some(codes);
        return MISSING;
    }
    if codes.len() > MOST_VERSIONS {
        return TOO_MUCH;
    }
    match Publisher::open(alloc, codes) {
        Ok(publisher) => {
            slot.publisher = Some(publisher);
            DONE
        }
        Err(_) => NO_MEMORY,
    }
}

/// From now on the first version is published.
#[unsafe(no_mangle)]
pub extern "C" fn td_c_begin(alloc: Global, handle: &mut TdSession, full: bool) -> i32
    requires { handle.old.full ≡ full }
    ensures closed { full ≡ false → (result ≡ pos 3) × (handle.new ≡ handle.old) }
    ensures open { full ≡ true → handle.new.full ≡ true }
    ensures begun { full ≡ true → IsBeginning handle.old.value handle.new.value result }
{
    if !full {
        return CLOSED;
    }
    let slot = handle.take();
    let code = begin_in(alloc, slot);
    handle.put(slot);
    code
}

fn publish_next(publisher: &mut Publisher, number: &mut u32) -> i32
    ensures published { IsPublication publisher.old publisher.new number.new result }
    ensures untold { (result ≡ pos 0 → ⊥) → number.new ≡ number.old }
{
    match publisher.publish() {
        Some(found) => {
            *number = found;
            DONE
        }
        None => MISSING,
    }
}

fn publish_in(slot: &mut Slot, number: &mut u32) -> i32
    ensures published { IsPublishing slot.old slot.new number.new result }
    ensures untold { (result ≡ pos 0 → ⊥) → number.new ≡ number.old }
{
    match &mut slot.publisher {
        Some(publisher) => publish_next(publisher, number),
        None => CLOSED,
    }
}

/// Publishes the next version, in one store, and tells its number. Takes no memory, and waits for nobody.
#[unsafe(no_mangle)]
pub extern "C" fn td_c_publish(handle: &mut TdSession, full: bool, number: &mut u32) -> i32
    requires { handle.old.full ≡ full }
    ensures closed { full ≡ false → (result ≡ pos 3) × (handle.new ≡ handle.old) }
    ensures open { full ≡ true → handle.new.full ≡ true }
    ensures published { full ≡ true → IsPublishing handle.old.value handle.new.value number.new result }
    ensures untold { (result ≡ pos 0 → ⊥) → number.new ≡ number.old }
{
    if !full {
        return CLOSED;
    }
    let slot = handle.take();
    let code = publish_in(slot, number);
    handle.put(slot);
    code
}

// A seat by one who publishes, and a slot for a handle that has none yet. There is a slot before there is a seat, so no seat is made
// and dropped.
fn split(
    alloc: Global,
    publisher: &mut Publisher,
    full: bool,
) -> Result<(Reader, Option<Box<Slot>>), i32>
    ensures made { OnOk result (publishes_on publisher.old publisher.new) }
    ensures seat { IfOk result (λ r. IsSeatOf publisher.old r.0) }
    ensures room { IfOk result (λ r. IsNone r.1 ↔ (full ≡ true)) }
    ensures code { IfErr result (λ code. code ≡ pos 4) }
    ensures unmade { OnErr result (publisher.new ≡ publisher.old) }
{
    let Ok(room) = room_for(alloc, full) else {
        return Err(NO_MEMORY);
    };
    match publisher.split() {
        Ok(reader) => Ok((reader, room)),
        Err(_) => {
            drop(room);
            Err(NO_MEMORY)
        }
    }
}

fn split_in(alloc: Global, slot: &mut Slot, full: bool) -> Result<(Reader, Option<Box<Slot>>), i32>
    ensures made { OnOk result (MakesSeat slot.old slot.new) }
    ensures seat { IfOk result (λ r. IsSomeAnd slot.old.publisher (λ p. IsSeatOf p r.0)) }
    ensures room { IfOk result (λ r. IsNone r.1 ↔ (full ≡ true)) }
    ensures code { IfErr result (λ code. IsSeating slot.old code × (code ≡ pos 0 → ⊥)) }
    ensures unmade { OnErr result (slot.new ≡ slot.old) }
{
    match &mut slot.publisher {
        Some(publisher) => split(alloc, publisher, full),
        None => Err(CLOSED),
    }
}

/// A seat for another thread, which loads which version is published.
#[unsafe(no_mangle)]
pub extern "C" fn td_c_seat(
    alloc: Global,
    handle: &mut TdSession,
    full: bool,
    other: &mut TdSession,
    other_full: bool,
) -> i32
    requires handle { handle.old.full ≡ full }
    requires other { other.old.full ≡ other_full }
    ensures closed { full ≡ false → (result ≡ pos 3) × (handle.new ≡ handle.old) }
    ensures answer { full ≡ true → IsSeating handle.old.value result }
    ensures kept { full ≡ true → handle.new.full ≡ true }
    // Without an answer of 0 no seat was made.
    ensures unmade { (result ≡ pos 0 → ⊥) → (handle.new.value ≡ handle.old.value) × (other.new ≡ other.old) }
    ensures seat { result ≡ pos 0 → (full ≡ true) × (other.new.full ≡ true) × HasSeat handle.old.value other.new.value }
    // By the seat that makes others, just one was made; who publishes has all else as before, and so has the slot.
    ensures made { result ≡ pos 0 → MakesSeat handle.old.value handle.new.value }
{
    if !full {
        return CLOSED;
    }
    let slot = handle.take();
    let made = split_in(alloc, slot, other_full);
    handle.put(slot);
    match made {
        Ok((reader, room)) => {
            put_into(other, room, Slot::of_reader(reader));
            DONE
        }
        Err(code) => code,
    }
}

fn current_in(slot: &mut Slot, number: &mut u32) -> i32
    ensures loaded { IsLoading slot.old slot.new number.new result }
    ensures untold { (result ≡ pos 0 → ⊥) → number.new ≡ number.old }
{
    match &mut slot.reader {
        Some(reader) => {
            *number = reader.current();
            DONE
        }
        None => CLOSED,
    }
}

/// Loads which version is published, in one load, and tells its number. Takes no memory, and waits for nobody.
#[unsafe(no_mangle)]
pub extern "C" fn td_c_current(handle: &mut TdSession, full: bool, number: &mut u32) -> i32
    requires { handle.old.full ≡ full }
    ensures closed { full ≡ false → (result ≡ pos 3) × (handle.new ≡ handle.old) }
    ensures open { full ≡ true → handle.new.full ≡ true }
    ensures loaded { full ≡ true → IsLoading handle.old.value handle.new.value number.new result }
    ensures untold { (result ≡ pos 0 → ⊥) → number.new ≡ number.old }
{
    if !full {
        return CLOSED;
    }
    let slot = handle.take();
    let code = current_in(slot, number);
    handle.put(slot);
    code
}

fn session_of(alloc: Global, reader: &Reader, number: u32) -> Result<Session, i32>
    ensures session { IfOk result (λ s. slice_get (arc_value reader.now.codes).codes number ≡ Some (arc_value s.code)) }
    ensures fresh { IfOk result (λ s. IsFresh (arc_value s.code) s.frame) }
    ensures there { OnOk result (number < length (arc_value reader.now.codes).codes) }
    ensures code { IfErr result (λ code. ((code ≡ pos 4) × (number < length (arc_value reader.now.codes).codes)) ⊎ ((code ≡ pos 5) × (length (arc_value reader.now.codes).codes ≤ number))) }
{
    if (number as usize) >= reader.count() {
        return Err(MISSING);
    }
    match reader.session(alloc, number) {
        Ok(session) => Ok(session),
        Err(_) => Err(NO_MEMORY),
    }
}

fn version_in(alloc: Global, slot: &Slot, number: u32) -> Result<Session, i32>
    ensures session { IfOk result (IsVersion slot.now number) }
    ensures there { OnOk result (LacksVersion slot.now number → ⊥) }
    ensures code { IfErr result (λ code. IsVersioning slot.now code × (code ≡ pos 0 → ⊥) × ((code ≡ pos 5) ↔ LacksVersion slot.now number)) }
{
    match &slot.reader {
        Some(reader) => session_of(alloc, reader, number),
        None => Err(CLOSED),
    }
}

/// A session by the version of this number, for the thread that has the seat.
#[unsafe(no_mangle)]
pub extern "C" fn td_c_version(
    alloc: Global,
    handle: &mut TdSession,
    full: bool,
    number: u32,
    other: &mut TdSession,
    other_full: bool,
) -> i32
    requires handle { handle.old.full ≡ full }
    requires other { other.old.full ≡ other_full }
    ensures closed { full ≡ false → (result ≡ pos 3) × (handle.new ≡ handle.old) }
    ensures answer { full ≡ true → IsVersioning handle.old.value result }
    ensures missing { full ≡ true → ((result ≡ pos 5) ↔ LacksVersion handle.old.value number) }
    ensures kept { full ≡ true → (handle.new.full ≡ true) × (handle.new.value ≡ handle.old.value) }
    ensures other { (result ≡ pos 0 → ⊥) → other.new ≡ other.old }
    ensures version { result ≡ pos 0 → (full ≡ true) × (other.new.full ≡ true) × HasVersion handle.old.value number other.new.value }
{
    if !full {
        return CLOSED;
    }
    let slot = handle.take();
    let made = version_in(alloc, slot, number);
    handle.put(slot);
    match made {
        Ok(session) => put(alloc, other, other_full, Slot::of_session(session)),
        Err(code) => code,
    }
}
