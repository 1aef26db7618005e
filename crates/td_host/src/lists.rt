//! Lists with memory for just their elements.

ghost use Rattle.std.specs.Prelude.{◌≡◌, ◌<◌, map, length, vec_capacity, IfOk, OnErr};
ghost use Rattle.td_stream.specs.Copies.{empty_with};
ghost use Rattle.td_posts.specs.Posts.{zeros};

use std::alloc::{AllocError, Global};
use td_stream::copies::Buffer;

/// So many zeros, with memory for just these. `AllocError`: there was no memory for them; never for none.
pub(crate) fn zeros_of(alloc: Global, count: u32) -> Result<Vec<u64>, AllocError>
    ensures zeros { IfOk result (λ list. list.items ≡ zeros count) }
    ensures memory { IfOk result (λ list. vec_capacity list ≡ count) }
    ensures cause { OnErr result (0 < count) }
{
    let mut list = Vec::with_capacity(alloc, count as usize)?;
    for _ in 0..count {
        list.push_reserved(0);
    }
    Ok(list)
}

/// An empty buffer of each room, in bytes, with memory for just so many buffers. `AllocError`: there was no memory for them; never
/// for no rooms.
pub(crate) fn buffers_of(alloc: Global, rooms: &[u32]) -> Result<Vec<Buffer>, AllocError>
    ensures empty { IfOk result (λ list. list.items ≡ map empty_with rooms.now) }
    ensures memory { IfOk result (λ list. vec_capacity list ≡ length rooms.now) }
    ensures cause { OnErr result (0 < length rooms.now) }
{
    let mut list = Vec::with_capacity(alloc, rooms.len())?;
    for room in rooms {
        list.push_reserved(Buffer::with_room(alloc, *room)?);
    }
    Ok(list)
}
