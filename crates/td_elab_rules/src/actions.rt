//! What is known of statements.

use td_num::number::NumberType;

/// The cell that a statement stores to or reads, by its place.
#[derive(Clone, Copy, PartialEq, Eq)]
pub enum Target {
    /// The name isn't known.
    Unknown,
    /// The name stands for no cell.
    NoCell,
    /// A cell with a number of this type.
    Number(u32, NumberType),
    /// A cell with a pointer.
    Pointer(u32),
}

/// The paths through statements.
#[derive(Clone, Copy, PartialEq, Eq)]
pub struct Ways {
    /// Whether one of them goes on after the statements.
    pub falls: bool,
    /// Whether one of them returns.
    pub returns: bool,
    /// Whether a statement stands after a `return` or `abort` in its block.
    pub after: bool,
    /// Whether a `return` or `abort` stands directly among the statements.
    pub closed: bool,
}
