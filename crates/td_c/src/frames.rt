//! What C calls for the frames of the last failure.

ghost use Rattle.std.specs.Prelude.{◌≡◌, pos, true, false};
ghost use Rattle.td_c.specs.Told.{IsLookup, HasFrame, LacksFrame};

use crate::answers::{CLOSED, DONE, MISSING, TdFrame, frame_of};
use crate::handle::{Slot, TdSession};

fn frame_at(slot: &Slot, place: usize, told: &mut TdFrame) -> i32
    ensures answer { IsLookup slot.now result }
    ensures frame { result ≡ pos 0 → HasFrame slot.now place told.new }
    ensures missing { result ≡ pos 5 → LacksFrame slot.now place }
    ensures untold { (result ≡ pos 0 → ⊥) → told.new ≡ told.old }
{
    let Some(session) = &slot.session else {
        return CLOSED;
    };
    let trace = session.trace();
    if place >= trace.len() {
        return MISSING;
    }
    *told = frame_of(&trace[place]);
    DONE
}

/// A frame of the last failure, by its place: 0 is the innermost.
#[unsafe(no_mangle)]
pub extern "C" fn td_c_frame(
    handle: &mut TdSession,
    full: bool,
    place: usize,
    told: &mut TdFrame,
) -> i32
    requires { handle.old.full ≡ full }
    ensures closed { full ≡ false → (result ≡ pos 3) × (handle.new ≡ handle.old) }
    ensures kept { full ≡ true → (handle.new.full ≡ true) × (handle.new.value ≡ handle.old.value) }
    ensures answer { full ≡ true → IsLookup handle.old.value result }
    ensures frame { full ≡ true → result ≡ pos 0 → HasFrame handle.old.value place told.new }
    ensures missing { full ≡ true → result ≡ pos 5 → LacksFrame handle.old.value place }
    ensures untold { (result ≡ pos 0 → ⊥) → told.new ≡ told.old }
{
    if !full {
        return CLOSED;
    }
    let slot = handle.take();
    let code = frame_at(slot, place, told);
    handle.put(slot);
    code
}
