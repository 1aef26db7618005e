//! What a run writes beside registers.

use crate::activation::TraceRoom;
use td_stream::copies::Buffer;

/// What a run writes: cells, copy buffers, and the frames of its failure. Behind the entry point's own cells are two for each of its
/// buffers: the place in the message of the bytes that it holds, and how many they are.
#[derive(Drop)]
pub struct Slate<'c, 'b, 't> {
    pub cells: &'c mut [u64],
    pub copies: &'b mut [Buffer],
    pub trace: &'t mut TraceRoom,
}
