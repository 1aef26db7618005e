//! What the views of a roll know. These types stand in contracts alone: no value of them is made.

use std::collections::LinkedList;

/// A part: its number (how many parts were made before it), and what it added, the oldest first.
pub struct Part<A> {
    pub number: u64,
    pub own: LinkedList<A>,
}

/// The head: how many parts were made, and those that were gathered, in that order.
pub struct Head<A> {
    pub made: u64,
    pub ended: LinkedList<Part<A>>,
}
