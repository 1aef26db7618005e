//! Messages by the loads that they carry.

ghost use Rattle.std.specs.Prelude.{◌≡◌, ◌<◌, ◌≤◌, length as size_of, IfOk};
ghost use Rattle.td_stream.specs.Layouts.{length_in};

use std::alloc::{AllocError, Global};
use td_stream::layout::{Found, Layout};
use td_stream::load::Load;
use td_stream::loads::Loads;

// The place of the first load, from this one on, of a word of at least this number.
fn place_of(loads: &[Load], from: usize, number: u32) -> usize {
    let mut next = from;
    'loads: while next < loads.len() && loads[next].word < number {
        next += 1;
    }
    next
}

// Writes the bytes of a word over those of a message from a place on that stand in it.
fn put_word(bytes: &mut [u8], pos: u32, found: Found, value: u64) {
    let word = value.to_le_bytes();
    for place in pos..found.until {
        if let Some(byte) = bytes.get_mut(place as usize) {
            *byte = word[(place as usize + found.skew as usize) % 8];
        }
    }
}

// Writes the bytes of the loaded words over those of a message that lies so.
fn put_loads(bytes: &mut [u8], layout: &Layout, loads: &[Load]) {
    let length = layout.length();
    let mut at = 0;
    let mut pos = 0;
    let mut next = 0;
    'words: while pos < length {
        let found = layout.find(at, pos);
        next = place_of(loads, next, found.number);
        if next < loads.len() && loads[next].word == found.number {
            put_word(bytes, pos, found, loads[next].value);
        }
        at = found.at;
        pos = found.until;
    }
}

/// A message that lies so and carries loads; each byte of a word that wasn't loaded is `filler`.
pub(crate) fn carried(
    alloc: Global,
    layout: &Layout,
    loads: &Loads,
    filler: u8,
) -> Result<Vec<u8>, AllocError>
    ensures { IfOk result (λ bytes. size_of bytes.items ≡ length_in layout.now) }
{
    let mut bytes = vec![in alloc; filler; layout.length() as usize]?;
    put_loads(bytes.as_mut_slice(), layout, loads.as_slice());
    Ok(bytes)
}
