//! Why a chain is refused.

/// What is wrong with a chain.
#[derive(Clone, Copy, PartialEq, Eq, Debug)]
pub enum ChainError {
    /// The head, or a descriptor's next, is no entry of the table (2.7.5).
    Beyond,
    /// A buffer, or an indirect table, isn't all in one region (own rule).
    Outside,
    /// A descriptor refers to an indirect table where that wasn't negotiated, or within such a table (2.7.5.3.1).
    NotAllowed,
    /// A descriptor refers to an indirect table and has a next (2.7.5.3.1).
    WithNext,
    /// The bytes of an indirect table are none, or aren't whole descriptors (2.7.5.3).
    BadTable,
    /// A buffer that the device reads comes after one that it writes (2.7.4.2).
    OutOfOrder,
    /// The buffers have more than 2^32 bytes (2.7.5.2).
    TooLarge,
    /// There are more buffers than the queue has entries (2.7.5.3.1): so it is with a chain that goes round.
    TooLong,
}

/// Why a chain is refused, and at which descriptor: its number in its table, and whether that is an indirect one.
#[derive(Clone, Copy, PartialEq, Eq, Debug)]
pub struct Refusal {
    pub error: ChainError,
    pub descriptor: u32,
    pub is_indirect: bool,
}
