//! Host jobs.

use crate::ring::RingJob;
use td_core::module::{Entry, Module};
use td_num::items::Items;
use td_stream::layout::Layout;

/// A step of a guest's script.
#[derive(Drop)]
pub enum Step {
    /// Stores a value to a word of the buffer; words are counted from 0.
    Store { word: u32, value: u64 },
    /// Posts a message of `length` bytes, the first of which is the buffer's word `base`'s byte of least weight.
    Post { base: u32, length: u32 },
    /// Posts a message that lies in these stretches of the buffer, their places and sizes in bytes.
    Scatter { layout: Layout },
}

/// A job for a host: guests store to one buffer, post messages that lie in it and keep rings of descriptors there, and the host
/// validates them meanwhile.
#[derive(Drop)]
pub struct HostJob {
    /// The modules by which messages are validated, by version: first the job's own, then the swaps, in the order in which they
    /// are published.
    pub formats: Items<Module>,
    /// The entry point of each version, at which each validation by it begins.
    pub entries: Items<Entry>,
    /// A value for each parameter; those of all versions are the same.
    pub args: Items<u64>,
    /// How many cells it has; each validation begins with zeros in them.
    pub cells: u32,
    /// For how many bytes each of its copy buffers has room; those of all versions are the same.
    pub rooms: Items<u32>,
    /// The words that the buffer opens with.
    pub words: Items<u64>,
    /// How many workers there are.
    pub workers: u32,
    /// The guests' scripts, in the order of their numbers, which are counted from 1.
    pub guests: Items<Items<Step>>,
    /// The rings in the buffer that the host looks at, in the order of their numbers, which are counted from 1.
    pub rings: Items<RingJob>,
}
