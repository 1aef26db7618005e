//! The mark that a name of a part's definition begins with in the one tree: a dot, and the part's number in four bytes, the least
//! first. It is written and read here alone.

ghost use Rattle.std.specs.Prelude.{◌≡◌, [], ◌∷◌, drop};
ghost use Rattle.td_num.specs.Numbers.{byte_of, rising_at};
ghost use Rattle.td_num.specs.declared.text.TheConstants.{DOT};
ghost use Rattle.td_front_flat.specs.Names.{is_numbered};

use td_num::bytes::{byte_of, byte_or_zero};
use td_num::text::DOT;

/// The mark of the part with this number.
pub(crate) fn part_mark(part: u32) -> [u8; 5]
    ensures { result ≡ DOT ∷ byte_of part 0 ∷ byte_of part 1 ∷ byte_of part 2 ∷ byte_of part 3 ∷ [] }
{
    let k = part as u64;
    [
        DOT,
        byte_of(k, 0),
        byte_of(k, 1),
        byte_of(k, 2),
        byte_of(k, 3),
    ]
}

/// Whether a name begins with a mark.
pub fn is_numbered(name: &[u8]) -> bool
    ensures { result ≡ is_numbered name.now }
{
    byte_or_zero(name, 0) == DOT
}

/// The number of the part in a mark: the four bytes behind the dot; those that a name lacks are 0.
pub fn number_in(name: &[u8]) -> u64
    ensures { result ≡ rising_at name.now 1 4 }
{
    let a = byte_or_zero(name, 1) as u64;
    let b = byte_or_zero(name, 2) as u64;
    let c = byte_or_zero(name, 3) as u64;
    let d = byte_or_zero(name, 4) as u64;
    256 * (256 * (256 * d + c) + b) + a
}

/// The bytes of a name behind its mark.
pub fn own_name(name: &[u8]) -> &[u8]
    ensures { result.now ≡ drop 5 name.now }
{
    if name.len() < 5 { &[] } else { &name[5..] }
}
