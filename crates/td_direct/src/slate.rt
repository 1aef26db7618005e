//! What a validation writes.

use td_core::outcome::Trace;
use td_stream::copies::Buffer;

/// What a validation writes beside the values in scope: all numbers, which are those of the entry point's cells and behind them two for
/// each of its copy buffers, the buffers, and the frames of a failure, the innermost first.
#[derive(Drop)]
pub struct Slate<'n, 'b, 't> {
    pub cells: &'n mut [u64],
    pub copies: &'b mut [Buffer],
    pub trace: &'t mut Trace,
}
