//! What passes and ticket seats know. These types stand in contracts alone: no value of them is made.

use crate::post::Post;
use crate::roll::{Head, Part};

/// What a pass of a ring knows. One that posts has a list of its own posts, one that takes has a list of its own takes. The
/// pass that makes others of its kind and gathers them has a head of that kind too.
pub struct RingView {
    pub put_head: Option<Head<Post>>,
    pub put: Option<Part<Post>>,
    pub take_head: Option<Head<Post>>,
    pub take: Option<Part<Post>>,
}

/// What a ticket seat knows: its own draws. The seat that makes others and gathers them has a head too.
pub struct TicketView {
    pub head: Option<Head<u64>>,
    pub draws: Option<Part<u64>>,
}
