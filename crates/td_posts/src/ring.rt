//! Rings of a host job.

/// A ring in the buffer: a count of the descriptors that its guest made, and then entries of two words.
#[derive(Clone, Copy, PartialEq, Eq)]
pub struct RingJob {
    /// The buffer's word that is the count; the entries follow it.
    pub base: u32,
    /// How many entries it has.
    pub entries: u32,
    /// How many bytes a message of it has at most.
    pub most: u32,
    /// How often the host looks at it.
    pub takes: u32,
}
