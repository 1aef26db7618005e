//! Bytes that are copied.

ghost use Rattle.std.specs.Prelude.{◌≡◌, ℕ, ◌+◌, ◌-◌, ◌*◌, ◌/◌, ◌≤◌, ◌<◌, List, [], length, slice_index};
ghost use Rattle.td_core.specs.Held.{IsBufferAt, AreHeld};
ghost use Rattle.td_core.specs.Outcome.{plain};
ghost use Rattle.td_meaning.specs.Words64.{copied_meaning};
ghost use Rattle.td_meaning.specs.Verdicts.{ending_of, IsAt};
ghost use Rattle.td_stream.specs.Copies.{held_by, rooms_of};
ghost use Rattle.td_stream.specs.StreamInvariant.{IsStream, Later, loads_of, layout_of, position, end_of};
ghost use Rattle.td_stream.specs.Loads.{Carries};
ghost use Rattle.td_direct.specs.Validates.{Reads};

use td_core::module::CopyOut;
use td_core::outcome::{Reason, Verdict};
use td_meaning::copies::put_copy;
use td_meaning::parameters::place_at;
use td_stream::copies::Buffer;
use td_stream::stream::Stream;
use td_stream::words::Words;

// The number of a buffer, by the place of the first of its cells.
fn number_of(place: usize, first: usize) -> usize
    requires { first ≤ place }
    ensures { result ≡ (place - first) / 2 }
{
    (place - first) / 2
}

/// So many bytes, of which the first ones, up to the room, go to a buffer, from the one load of each of their words.
pub(crate) fn validate_copied<W: Words>(
    copy: CopyOut,
    size: u64,
    places: &[usize],
    first: usize,
    cells: &mut [u64],
    copies: &mut [Buffer],
    stream: &mut Stream<W>,
) -> Verdict
    requires whole { IsStream W.loads W.size stream.old }
    requires own { IsBufferAt (slice_index places.now copy.cell) (slice_index places.now (copy.cell + 1)) copy.room first (rooms_of copies.old) }
    requires size { length cells.old ≡ first + 2 * length copies.old }
    ensures later { Later W.loads W.reaches stream.old stream.new }
    ensures whole { IsStream W.loads W.size stream.new }
    ensures end { end_of stream.new ≡ end_of stream.old }
    ensures at { IsAt result (position stream.new) [] }
    ensures rooms { rooms_of copies.new ≡ rooms_of copies.old }
    ensures held { (b : List ℕ) → Carries (layout_of stream.old) b (loads_of W.loads stream.new)
        → AreHeld b first cells.old (held_by copies.old) → AreHeld b first cells.new (held_by copies.new) }
    ensures step { (b : List ℕ) → Carries (layout_of stream.old) b (loads_of W.loads stream.new)
        → Reads W.loads stream.old stream.new
        (copied_meaning copy places.now size (end_of stream.old) (position stream.old) cells.old)
        (plain (ending_of result [] cells.new)) }
{
    let start = stream.pos();
    if size > u64::from(stream.end() - start) {
        return Verdict::Reject {
            reason: Reason::NotEnough,
            pos: start,
        };
    }
    let size = size as u32;
    let count = size.min(copy.room);
    let number = number_of(place_at(places, copy.cell), first);
    stream.copy_to(count, &mut copies[number]);
    stream.skip(size - count);
    put_copy(copy, places, u64::from(start), u64::from(count), cells);
    Verdict::Accept { pos: stream.pos() }
}
