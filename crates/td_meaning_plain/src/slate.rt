//! What a walk writes.

use td_core::outcome::Trace;

/// What a walk writes: all cells, those of the copy buffers last, and the frames of a failure, the innermost first.
#[derive(Drop)]
pub struct Slate {
    pub cells: Vec<u64>,
    pub trace: Trace,
}
