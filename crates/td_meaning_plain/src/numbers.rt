//! Numbers as they stand in a message. A byte past its end counts as 0.

ghost use Rattle.std.specs.Prelude.{◌≡◌, ℕ, ◌+◌, ◌*◌, ◌<◌, ◌≤◌, ◌^◌, List, [], MatchOption, slice_index};
ghost use Rattle.td_num.specs.Numbers.{number_at, rising_at, falling_on};
ghost use Rattle.td_core.specs.Outcome.{Ending};
ghost use Rattle.td_meaning.specs.Meaning.{taken};
ghost use Rattle.td_meaning.specs.Words64.{field_number};
ghost use Rattle.td_meaning.specs.Verdicts.{ending_of};

use td_core::module::{Element, Extent};
use td_core::outcome::{Reason, Verdict};
use td_meaning::given::given_value;
use td_num::number::{ByteOrder, NumberType, byte_count};

/// The byte at a place; 0 past the end.
pub(crate) fn byte_at(message: &[u8], place: u64) -> u8
    ensures { result ≡ slice_index message.now place }
{
    message.get(place as usize).copied().unwrap_or(0)
}

// The number whose byte of least weight stands first.
fn rising_at(message: &[u8], place: u64, width: u32) -> u64
    requires room { place + width < 2 ^ 64 }
    requires small { width ≤ 8 }
    ensures fits { result < 256 ^ width }
    ensures value { result ≡ rising_at message.now place width }
{
    if width == 0 {
        return 0;
    }
    let low = byte_at(message, place);
    let high = rising_at(message, place + 1, width - 1);
    256 * high + low as u64
}

// A number, and then so many bytes as its further digits.
fn falling_on(number: u64, message: &[u8], place: u64, width: u32) -> u64
    requires room { place + width < 2 ^ 64 }
    requires small { (number + 1) * 256 ^ width ≤ 2 ^ 64 }
    ensures value { result ≡ falling_on number message.now place width }
{
    if width == 0 {
        return number;
    }
    let digit = byte_at(message, place);
    falling_on(256 * number + digit as u64, message, place + 1, width - 1)
}

/// The number of a type at a place.
pub fn number_at(number_type: NumberType, message: &[u8], start: u32) -> u64
    ensures { result ≡ number_at number_type message.now start }
{
    let width = byte_count(number_type.width);
    match number_type.order {
        ByteOrder::LittleEndian => rising_at(message, start as u64, width),
        ByteOrder::BigEndian => falling_on(0, message, start as u64, width),
    }
}

/// The number in a field that begins at `start`, for the values in scope, and what the cells hold there; 0 where it is none.
pub fn field_number(
    element: &Element,
    extent: &Extent,
    env: &[u64],
    places: &[usize],
    message: &[u8],
    end: u32,
    start: u32,
    cells: &[u64],
) -> u64
    ensures { result ≡ field_number element.now extent.now env.now places.now message.now end start cells.now }
{
    match element {
        Element::Number(number_type) => match extent {
            Extent::Once => number_at(*number_type, message, start),
            Extent::Filling { .. } => 0,
            Extent::OnceFilling { .. } => 0,
            Extent::UpToZero { .. } => 0,
            Extent::Given(source) => given_value(source, env, places, end, start, cells),
        },
        Element::Listed { base, .. } => match extent {
            Extent::Once => number_at(*base, message, start),
            Extent::Filling { .. } => 0,
            Extent::OnceFilling { .. } => 0,
            Extent::UpToZero { .. } => 0,
            Extent::Given(_) => 0,
        },
        Element::Named { .. } => 0,
        Element::Unit => 0,
        Element::Rest => 0,
        Element::Zeros => 0,
    }
}

/// The place after so many bytes; none where fewer stand before the end.
pub fn place_after(pos: u32, size: u64, end: u32) -> Option<u32>
    ensures { MatchOption result (end < pos + size) (λ q. (q ≡ pos + size) × (pos + size ≤ end)) }
{
    let stop = (pos as u64).checked_add(size)?;
    if stop <= end as u64 {
        Some(stop as u32)
    } else {
        None
    }
}

/// Passes over bytes of a field that began at `start`.
pub fn pass(count: u32, start: u32, end: u32, pos: u32) -> Verdict
    ensures ending { (cells : List ℕ) → (taken count start end pos cells).ending ≡ ending_of result [] cells }
{
    match place_after(pos, count as u64, end) {
        Some(pos) => Verdict::Accept { pos },
        None => Verdict::Reject {
            reason: Reason::NotEnough,
            pos: start,
        },
    }
}
