//! Codes that are published one after the other, while threads go on with the one that each loaded last. The layer above
//! rests on one promise: a seat that loads the version word is lent the code that stands in the list at the number loaded,
//! and the numbers that one seat loads never fall. Nothing is said of when a publication is seen.
#![tactic(auto)]

pub mod codes;
mod rule;
pub mod seats;
pub mod version;
pub mod view;

pub use codes::Codes;
pub use seats::{PublishSeat, SwapSeat};
pub use version::{MOST_VERSIONS, Version};
