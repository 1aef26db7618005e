//! Descriptors.

ghost use Rattle.std.specs.Prelude.{◌≡◌, ◌<◌};
ghost use Rattle.td_chain.specs.Chain.{described, joined_at};

/// What a descriptor says (2.7.5).
#[derive(Clone, Copy)]
pub(crate) struct Descriptor {
    pub(crate) address: u64,
    pub(crate) size: u32,
    pub(crate) has_next: bool,
    pub(crate) is_writable: bool,
    pub(crate) is_indirect: bool,
    pub(crate) next: u16,
}

const WORD: u128 = 18_446_744_073_709_551_616;

// The number that begins at byte k of the first of two words.
pub(crate) fn join(low: u64, high: u64, k: u32) -> u64
    requires { k < 8 }
    ensures { result ≡ joined_at low high k }
{
    let both = u128::from(low) + WORD * u128::from(high);
    ((both >> (8 * k)) % WORD) as u64
}

// By its two numbers.
pub(crate) fn describe(first: u64, second: u64) -> Descriptor
    ensures { result ≡ described first second }
{
    let flags = second / 4_294_967_296 % 65_536;
    Descriptor {
        address: first,
        size: (second % 4_294_967_296) as u32,
        has_next: flags / 1 % 2 == 1,
        is_writable: flags / 2 % 2 == 1,
        is_indirect: flags / 4 % 2 == 1,
        next: (second / 281_474_976_710_656 % 65_536) as u16,
    }
}
