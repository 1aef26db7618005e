//! How much a host job has at most (own rule).

/// Guests.
pub const MOST_GUESTS: usize = 16;
/// Workers.
pub const MOST_WORKERS: u32 = 16;
/// Modules that a job's own is replaced by, one after the other.
pub const MOST_SWAPS: usize = 16;
/// Posts of all guests.
pub const MOST_POSTS: usize = 4_096;
/// Stores of all guests.
pub const MOST_STORES: usize = td_core::limits::MOST_STORES;
/// Words of all messages, those that are posted and those that rings can name.
pub const MOST_MESSAGE_WORDS: u64 = 1_048_576;
/// Bytes of all copy buffers, those of each post and those of each look at a ring.
pub const MOST_COPIED_BYTES: u64 = 16_777_216;
/// Rings.
pub const MOST_RINGS: usize = 16;
/// Entries of a ring.
pub const MOST_ENTRIES: u32 = 1_024;
/// Bytes of a message of a ring.
pub const MOST_RING_MESSAGE: u32 = td_core::limits::MOST_MESSAGE as u32;
/// Looks at one ring.
pub const MOST_TAKES: u32 = 4_096;
