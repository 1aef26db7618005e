//! Laws of validating what was written. They do nothing when they are called.

ghost use Rattle.td_write_accepted.specs.Laws.{WrittenIsAccepted};

use td_write_spells::laws::spelled_are_bytes;

/// A validation whose loads are of bytes that were written of a value accepts them at their number, with the outcome that the module
/// has on them.
pub fn written_is_accepted()
    ensures { WrittenIsAccepted }
{
    spelled_are_bytes();
}
