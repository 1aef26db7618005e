//! Runs verified code over the words of a message. The layer above rests on one promise: whatever the memory answers, the
//! verdict, the trace, the cells and the copies are those of `run` on every byte list that carries the words loaded; these
//! rise, and are exactly those with a byte that `run` looks at; and the steps are `run`'s own, which a law bounds by the entry
//! point's weight. No validation takes memory, or waits.
#![tactic(auto)]

mod arm;
mod buffers;
mod entry;
pub mod laws;
mod level;
mod machine;
mod message;
pub mod outcome;
pub mod validate;

pub use validate::Frame;
