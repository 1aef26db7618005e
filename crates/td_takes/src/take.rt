//! Takes.

use td_descr::Next;
use td_posts::Reply;

/// One look at a ring: which ring, and which of its takes, both counted from 1; the count that the ring's first word gave; and what came
/// of it, with the outcome of the descriptor's validation where one waited, and that of its message where the descriptor was accepted.
#[derive(Drop)]
pub struct Take {
    pub ring: u32,
    pub number: u32,
    pub head: u64,
    pub next: Next,
    pub descr: Option<Reply>,
    pub message: Option<Reply>,
}

/// Room for the two replies of a take.
#[derive(Drop)]
pub struct TakeRoom {
    pub descr: Reply,
    pub message: Reply,
}
