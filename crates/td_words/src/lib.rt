//! A buffer of 64-bit words that threads share. The layer above rests on one promise: all loads and stores of all seats
//! stand in one list, in which each load has the value of the last store to its word before it, or the opening word.
//! Nothing is said of order in time between seats that never met, and nothing of progress.
#![tactic(auto)]

pub mod final_words;
pub mod laws;
mod rule;
pub mod seats;
pub mod shared;
pub mod view;

pub use seats::{GuestSeat, HostSeat, ReadSeat};
pub use shared::Shared;
