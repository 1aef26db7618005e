//! Some bits of a number.

ghost use Rattle.std.specs.Prelude.{◌≡◌};
ghost use Rattle.td_meaning.specs.Meaning.{bits_of};

use td_core::module::Bits;

/// Some bits of a number; all of it where none are named.
pub fn bits_of(bits: Option<Bits>, number: u64) -> u64
    ensures { result ≡ bits_of bits number }
{
    match bits {
        None => number,
        Some(bits) => td_num::bits::bits(number, bits.low, bits.width),
    }
}
