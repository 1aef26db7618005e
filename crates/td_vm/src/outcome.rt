//! What an outcome takes out of a frame.

ghost use Rattle.std.specs.Prelude.{◌≡◌, ◌≤◌, [], length, take, vec_capacity};
ghost use Rattle.td_stream.specs.Copies.{held_by};

use td_num::items::Items;
use td_stream::copies::Buffer;

/// What the first buffers hold, so many of them, in an empty list that has memory for one of each.
pub fn held_by_first(buffers: Vec<Buffer>, kept: Vec<Items<u8>>, count: usize) -> Items<Items<u8>>
    requires count { count ≤ length buffers.items }
    requires none { kept.items ≡ [] }
    requires memory { length buffers.items ≤ vec_capacity kept }
    ensures { result ≡ held_by (take count buffers.items) }
{
    let mut rest = buffers;
    let mut list = kept;
    rest.truncate(count);
    rest.as_mut_slice().reverse();
    'moving: while let Some(buffer) = rest.pop() {
        list.push_reserved(buffer.into_bytes());
    }
    Items::of(list)
}
