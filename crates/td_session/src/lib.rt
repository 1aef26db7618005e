//! What a program that validates messages holds: a code that was verified once and is shared, and room of its own. The layer
//! above rests on one promise: a validation over words that others store to answers what the code's run answers on every
//! byte list that carries the loads made.
#![tactic(auto)]

pub mod kept;
pub mod session;
pub mod tables;
pub mod threads;
pub mod versions;

pub use session::Session;
