//! An outcome in parts.

use crate::copies::CopyBuffer;
use td_core::outcome::{TraceFrame, Verdict};

/// How a run ended, its parts lent from where they stand: its verdict, the frames of its failure, the innermost first, the cells of its
/// entry point, and its copy buffers.
#[derive(Drop)]
pub struct OutcomeParts<'a, B: CopyBuffer> {
    pub verdict: Verdict,
    pub trace: &'a [TraceFrame],
    pub cells: &'a [u64],
    pub copies: &'a [B],
}
