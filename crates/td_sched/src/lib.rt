//! Plain memory with a plan of what others store to it, and when. The layer above rests on one promise: load k of a
//! word gives the value of the last store to it that the plan has before load k, and without one the opening word.
#![tactic(auto)]

mod held;
pub mod laws;
pub mod planned;
pub mod store;

pub use planned::Planned;
pub use store::PlannedStore;
