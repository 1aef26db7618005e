//! Pieces of a message.

/// One buffer of a chain: the byte of the memory at which it begins, how many bytes it has, and whether the device writes it; else it
/// reads it.
#[derive(Clone, Copy, PartialEq, Eq, Debug)]
pub struct Piece {
    pub place: u64,
    pub size: u32,
    pub is_writable: bool,
}
