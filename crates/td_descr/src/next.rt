//! What a look at a ring comes to.

use crate::loads::DescLoads;
use td_core::outcome::{Reason, Verdict};

/// How the count of a ring stands to what was taken of it.
#[derive(Clone, Copy, PartialEq, Eq)]
pub enum Standing {
    /// All that was made was taken.
    Nothing,
    /// The count is behind what was taken, or ahead of it by more than the ring has entries.
    Lost,
    /// A descriptor was made that wasn't taken.
    Waiting,
}

/// What a look at a ring comes to.
#[derive(Clone, Copy, PartialEq, Eq)]
pub enum Next {
    /// All descriptors that were made were taken: the count that the ring's first word gave.
    Idle {
        made: u64,
    },
    /// The count is behind what was taken, or ahead of it by more than the ring has entries: guest and reader no longer agree.
    Overrun {
        made: u64,
    },
    /// The next descriptor was refused: why, and at which of its bytes.
    Bad {
        reason: Reason,
        pos: u32,
    },
    /// The next descriptor was accepted: which one it is, from 0; the byte of the buffer at which its message begins, and how many
    /// bytes that has; and the guest's number for it.
    Message {
        number: u64,
        place: u32,
        size: u32,
        id: u16,
    },
}

/// What the last look at a ring rests on: the count that its first word gave, the verdict on the descriptor, where one waited, and the
/// loads of that one's words, which are numbered from 0.
#[derive(Drop)]
pub struct Look {
    pub head: u64,
    pub verdict: Option<Verdict>,
    pub loads: DescLoads,
}
