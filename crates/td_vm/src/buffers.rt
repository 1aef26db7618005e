//! Buffers for copies, in a list that is taken once.

ghost use Rattle.std.specs.Prelude.{◌≡◌, length, map, vec_capacity, IfOk};
ghost use Rattle.td_stream.specs.Copies.{empty_with, rooms_of};

use std::alloc::{AllocError, Global};
use td_stream::copies::Buffer;

/// An empty buffer for each room, in a list that has memory for just these. `AllocError`: there was no memory for them.
pub(crate) fn buffers_for(alloc: Global, rooms: &[u32]) -> Result<Vec<Buffer>, AllocError>
    ensures buffers { IfOk result (λ buffers. buffers.items ≡ map empty_with rooms.now) }
    ensures memory { IfOk result (λ buffers. vec_capacity buffers ≡ length rooms.now) }
{
    let mut buffers = Vec::with_capacity(alloc, rooms.len())?;
    for room in rooms {
        buffers.push_reserved(Buffer::with_room(alloc, *room)?);
    }
    Ok(buffers)
}

/// No buffer holds a byte any more. The rooms stay.
pub(crate) fn empty_all(buffers: &mut [Buffer])
    ensures { buffers.new ≡ map empty_with (rooms_of buffers.old) }
{
    for k in 0..buffers.len() {
        buffers[k].clear();
    }
}
