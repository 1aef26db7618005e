//! Chains of descriptors in a guest's memory. The layer above rests on one promise: a walk loads each word of the memory at most once, and
//! its answer is the one that these loads give.
#![tactic(auto)]

mod descriptor;
pub mod laws;
mod loaded;
pub mod memory;
mod piece;
mod queue;
mod refusal;
mod region;
mod step;
mod walk;

pub use memory::Memory;
pub use piece::Piece;
pub use queue::Queue;
pub use refusal::{ChainError, Refusal};
pub use region::Region;
pub use walk::walk_chain;
