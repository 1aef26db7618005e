//! Messages in memory that a C program hands over, and to which anyone may store. The layer above rests on one promise: each load that
//! is told is one atomic load of the word of the memory that the layout gives it, and there are no other loads.
#![tactic(auto)]

mod anywhere;
mod foreign;
mod memory;
mod noted;
mod pieces;

pub use anywhere::ForeignMemory;
pub use foreign::ForeignWords;
pub use memory::TdWords;
pub use noted::{NotedWords, TdLoad};
pub use pieces::{PieceWords, TdPiece};
