//! Replies to posts.

use td_core::outcome::{TraceFrame, Verdict};
use td_stream::copies::Copies;
use td_stream::layout::Layout;
use td_stream::loads::Loads;

/// The reply to a post: how the validation of its message ended, and what was loaded of it. Before the validation it is
/// room for that.
#[derive(Drop)]
pub struct Reply {
    /// The guest that posted the message, and which of its posts it is, both counted from 1.
    pub guest: u32,
    pub number: u32,
    /// The version by which its message was validated, counted from 0.
    pub version: u32,
    /// The post's list of stretches; none where its message lies at a word.
    pub layout: Option<Layout>,
    pub verdict: Verdict,
    /// The frames of its failure; none where it accepts.
    pub trace: Vec<TraceFrame>,
    /// The cells as they then are.
    pub cells: Vec<u64>,
    /// What the copy buffers then hold.
    pub copies: Copies,
    /// The loads, the message's words counted from 0.
    pub loads: Loads,
}
