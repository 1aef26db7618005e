//! Rings in a guest's memory. The layer above rests on one promise: a look at a ring loads its count once and first, then each word of
//! one descriptor at most once, in rising order, and its answer is the one that these loads give.
#![tactic(auto)]

mod desc_words;
mod descr;
pub mod laws;
mod loads;
mod next;
mod shape;

pub use desc_words::DescWords;
pub use descr::Descr;
pub use loads::DescLoads;
pub use next::{Look, Next, Standing};
pub use shape::is_ring;
