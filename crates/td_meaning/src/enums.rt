//! The values of enums.

ghost use Rattle.std.specs.Prelude.{◌≡◌};
ghost use Rattle.td_num.specs.Lists.{is_among};
ghost use Rattle.td_meaning.specs.Meaning.{values_of};

use td_num::items::Items;

/// Whether a number is among some values.
pub fn is_among(values: &[u64], number: u64) -> bool
    ensures { result ≡ is_among values.now number }
{
    for value in values {
        if number == *value {
            return true;
        }
    }
    false
}

/// The values of an enum by its place in the module; none where it isn't there.
pub fn values_at(listed: &[Items<u64>], place: u32) -> &[u64]
    ensures { result.now ≡ values_of listed.now place }
{
    match listed.get(place as usize) {
        Some(values) => values.as_slice(),
        None => &[],
    }
}
