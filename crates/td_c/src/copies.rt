//! What C calls for the bytes that the last validation copied.

ghost use Rattle.std.specs.Prelude.{◌≡◌, pos, true, false};
ghost use Rattle.td_c.specs.Told.{IsLookup, HasCopy, IsWritten, LacksCopy};

use crate::answers::{CLOSED, DONE, MISSING};
use crate::handle::{Slot, TdSession};

// Writes as many bytes of a text as there is room for.
fn write_front(text: &[u8], bytes: &mut [u8])
    ensures { IsWritten text.now bytes.old bytes.new }
{
    let count = text.len().min(bytes.len());
    bytes[..count].copy_from_slice(&text[..count]);
}

fn copy_at(slot: &Slot, place: usize, bytes: &mut [u8], size: &mut u64) -> i32
    ensures answer { IsLookup slot.now result }
    ensures copy { result ≡ pos 0 → HasCopy slot.now place bytes.old bytes.new size.new }
    ensures missing { result ≡ pos 5 → LacksCopy slot.now place }
    ensures untold { (result ≡ pos 0 → ⊥) → (bytes.new ≡ bytes.old) × (size.new ≡ size.old) }
{
    let Some(session) = &slot.session else {
        return CLOSED;
    };
    let Some(buffer) = session.copies().get(place) else {
        return MISSING;
    };
    let held = buffer.as_slice();
    write_front(held, bytes);
    *size = held.len() as u64;
    DONE
}

/// Writes as much of what a copy buffer holds after the last validation as there is room for, and how many bytes it holds.
#[unsafe(no_mangle)]
pub extern "C" fn td_c_copy(
    handle: &mut TdSession,
    full: bool,
    place: usize,
    bytes: &mut [u8],
    size: &mut u64,
) -> i32
    requires { handle.old.full ≡ full }
    ensures closed { full ≡ false → (result ≡ pos 3) × (handle.new ≡ handle.old) }
    ensures kept { full ≡ true → (handle.new.full ≡ true) × (handle.new.value ≡ handle.old.value) }
    ensures answer { full ≡ true → IsLookup handle.old.value result }
    ensures copy { full ≡ true → result ≡ pos 0 → HasCopy handle.old.value place bytes.old bytes.new size.new }
    ensures missing { full ≡ true → result ≡ pos 5 → LacksCopy handle.old.value place }
    ensures untold { (result ≡ pos 0 → ⊥) → (bytes.new ≡ bytes.old) × (size.new ≡ size.old) }
{
    if !full {
        return CLOSED;
    }
    let slot = handle.take();
    let code = copy_at(slot, place, bytes, size);
    handle.put(slot);
    code
}
