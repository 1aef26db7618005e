//! Bytes that go where C has room for them.

ghost use Rattle.std.specs.Prelude.{◌≡◌, ◌≤◌, ◌<◌, ◌⊎◌, length, take, drop, pos};

/// `TD_PACKED` of td_pack.h.
pub(crate) const DONE: i32 = 0;

/// `TD_PACK_NO_ROOM` of td_pack.h.
pub(crate) const NO_ROOM: i32 = 23;

/// Puts bytes where there is room for them, and no other byte.
pub(crate) fn put(found: &[u8], room: &mut [u8]) -> i32
    ensures which { (result ≡ pos 0) ⊎ (result ≡ pos 23) }
    ensures done { result ≡ pos 0 → (take (length found.now) room.new ≡ found.now) × (length found.now ≤ length room.new) }
    ensures behind { result ≡ pos 0 → drop (length found.now) room.new ≡ drop (length found.now) room.old }
    ensures room { result ≡ pos 23 → length room.new < length found.now }
    ensures unwritten { result ≡ pos 23 → room.new ≡ room.old }
{
    if found.len() > room.len() {
        return NO_ROOM;
    }
    let (front, _) = room.split_at_mut(found.len());
    front.copy_from_slice(found);
    DONE
}
