//! What C is told of a module text.

ghost use Rattle.std.specs.Prelude.{◌≡◌, ◌≤◌, ◌<◌, ◌-◌, ◌⊎◌, ◌↔◌, ◌++◌, length, replicate, pos};
ghost use Rattle.td_c_pack.specs.Told.{IsTold};

use td_front::{FrontError, line_of};
use td_report::position_of;

/// `TD_PACK_NO_MEMORY` of td_pack.h.
pub(crate) const NO_MEMORY: i32 = 4;
/// `TD_PACK_REFUSED` of td_pack.h.
pub(crate) const REFUSED: i32 = 22;

/// What C is told of a module text: the size of its image, or where it is refused, and why.
#[repr(C)]
pub struct TdPacked {
    /// How many bytes the image has.
    pub size: u64,
    /// The byte at which the text is refused, from 0; the text's length at an early end.
    pub place: u64,
    /// Its line, and its byte in the line, both from 1.
    pub line: u64,
    pub column: u64,
    /// The refusal's code and words, each with zeros behind it.
    pub code: [u8; 8],
    pub words: [u8; 32],
}

// Writes bytes into a room, and zeros behind them.
fn put_string(bytes: &[u8], room: &mut [u8])
    requires { length bytes.now < length room.old }
    ensures { room.new ≡ bytes.now ++ replicate (length room.old - length bytes.now) 0 }
{
    let (front, rest) = room.split_at_mut(bytes.len());
    front.copy_from_slice(bytes);
    rest.fill(0);
}

/// Tells the refusal of a text: 22, or 4 exactly where it is that there was no memory.
pub(crate) fn tell_refusal(text: &[u8], error: &FrontError, told: &mut TdPacked) -> i32
    ensures which { (result ≡ pos 4) ⊎ (result ≡ pos 22) }
    ensures told { result ≡ pos 22 → IsTold text.now error.now told.new }
    ensures size { told.new.size ≡ told.old.size }
    ensures untold { result ≡ pos 4 → told.new ≡ told.old }
    ensures memory { (result ≡ pos 4) ↔ (error.now ≡ FrontError.NoMemory) }
{
    let Some(line) = line_of(error) else {
        return NO_MEMORY;
    };
    let position = position_of(text, line.at);
    told.place = line.at as u64;
    told.line = position.line;
    told.column = position.column;
    let code = &mut told.code[..];
    put_string(line.code.as_bytes(), code);
    let words = &mut told.words[..];
    put_string(line.words.as_bytes(), words);
    REFUSED
}
