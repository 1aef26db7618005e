//! Messages that are several stretches of the words.

ghost use Rattle.std.specs.Prelude.{◌≡◌, ◌<◌, ◌≤◌, ◌^◌, ◌*◌, ◌+◌, ◌↔◌, [], ◌∷◌, IsTrue, IfOk, IfErr, length, pos};
ghost use Rattle.td_stream.specs.Layouts.{AreWithin, length_in};
ghost use Rattle.td_c.specs.Parts.{stretches_told, IsMessage, IsTooMuch};

use crate::answers::{NO_MEMORY, TOO_MUCH};
use std::alloc::{AllocError, Global};
use td_num::items::Items;
use td_stream::layout::{Layout, MOST_STRETCHES};
use td_stream::stretch::Stretch;

/// Bytes of the words that stand one after the other: the place of the first one, and how many they are.
#[repr(C)]
#[derive(Clone, Copy)]
pub struct TdStretch {
    pub place: u32,
    pub size: u32,
}

// The stretches as a layout has them. `AllocError`: there was no memory for the list.
fn stretches(alloc: Global, parts: &[TdStretch]) -> Result<Items<Stretch>, AllocError>
    ensures { IfOk result (λ list. list ≡ stretches_told parts.now) }
{
    let mut list = Items::new(alloc);
    for part in parts {
        list.push(Stretch {
            place: part.place,
            size: part.size,
        })?;
    }
    Ok(list)
}

// How many bytes they have.
fn length_of(parts: &[TdStretch]) -> u64
    requires { length parts.now ≤ 64 }
    ensures { result ≡ length_in (stretches_told parts.now) }
{
    let mut sum = 0u64;
    for part in parts {
        sum += part.size as u64;
    }
    sum
}

// Whether they are a message: at most 64, of fewer than 2^32 bytes in all. Takes no memory.
fn are_message(parts: &[TdStretch]) -> bool
    ensures { IsTrue result ↔ IsMessage 64 (stretches_told parts.now) }
{
    parts.len() <= MOST_STRETCHES && length_of(parts) < 1 << 32
}

/// Whether a stretch ends within so many words.
pub(crate) fn ends_within(place: u32, size: u32, count: usize) -> bool
    ensures { IsTrue result ↔ (place + size ≤ 8 * count) }
{
    let end = place as u64 + size as u64;
    end.div_ceil(8) <= count as u64
}

/// Whether one stretch is within so many words.
pub(crate) fn is_within(place: u32, size: u32, count: usize) -> bool
    ensures { IsTrue result ↔ AreWithin count ((record { place = place; size = size }) ∷ []) }
{
    ends_within(place, size, count)
}

// Whether all of them are.
fn are_within(stretches: &[Stretch], count: usize) -> bool
    ensures { IsTrue result ↔ AreWithin count stretches.now }
{
    for stretch in stretches {
        if !ends_within(stretch.place, stretch.size, count) {
            return false;
        }
    }
    true
}

/// The layout of these stretches, and whether it is within so many words. The number of an answer: there are more than 64 of
/// them, or they have 2^32 bytes and more; or they are a message, and there was no memory for its layout.
pub(crate) fn layout_of(
    alloc: Global,
    parts: &[TdStretch],
    count: usize,
) -> Result<(Layout, bool), i32>
    ensures message { IfOk result (λ r. IsMessage 64 (stretches_told parts.now)) }
    ensures layout { IfOk result (λ r. r.0 ≡ stretches_told parts.now) }
    ensures inside { IfOk result (λ r. IsTrue r.1 ↔ AreWithin count (stretches_told parts.now)) }
    ensures refused { IfErr result (λ code. IsTooMuch 64 (stretches_told parts.now) code) }
{
    if !are_message(parts) {
        return Err(TOO_MUCH);
    }
    let Ok(list) = stretches(alloc, parts) else {
        return Err(NO_MEMORY);
    };
    let inside = are_within(list.as_slice(), count);
    match Layout::of(alloc, list.as_slice()) {
        Ok(layout) => Ok((layout, inside)),
        Err(_) => Err(NO_MEMORY),
    }
}
