//! Validates a message in a buffer that other threads keep storing to. The layer above rests on one promise: the outcome is
//! that of the code's run, and of the module's meaning, on every byte list that carries the loads that the reader's seat
//! made, and those are what the seat's list of steps grew by.
#![tactic(auto)]

pub mod gate;
pub mod live;
pub mod message;
pub mod slot;

pub use gate::{Gate, OpenGate};
pub use live::LiveWords;
pub use message::LiveMessage;
pub use slot::validate_slot;
