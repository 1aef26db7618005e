//! Whether what C names lies within its words.

ghost use Rattle.std.specs.Prelude.{◌+◌, ◌≤◌, ◌↔◌, IsTrue};
ghost use Rattle.td_chain.specs.Places.{AreWithin};
ghost use Rattle.td_c_chain.specs.Told.{IsInside};

use td_chain::{Queue, Region};

// Whether so many bytes from a place on end within so many.
fn ends_within(place: u64, size: u64, bytes: u64) -> bool
    ensures { IsTrue result ↔ (place + size ≤ bytes) }
{
    place <= bytes && size <= bytes - place
}

// Whether all regions do.
fn are_within(regions: &[Region], bytes: u64) -> bool
    ensures { IsTrue result ↔ AreWithin bytes regions.now }
{
    for r in regions {
        if !ends_within(r.place, r.until.saturating_sub(r.from), bytes) {
            return false;
        }
    }
    true
}

/// Whether the queue's table and the regions lie within so many words, of which there are fewer than 2^32. Takes no memory.
pub(crate) fn is_inside(queue: &Queue, regions: &[Region], count: usize) -> bool
    ensures { IsTrue result ↔ IsInside count queue.now regions.now }
{
    if count >= 4_294_967_296 {
        return false;
    }
    let bytes = 8 * count as u64;
    if !ends_within(queue.table, 16 * queue.size as u64, bytes) {
        return false;
    }
    are_within(regions, bytes)
}
