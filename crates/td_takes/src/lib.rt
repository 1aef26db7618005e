//! Takes from rings in a buffer that other threads keep storing to. The layer above rests on one promise: each take answers by what
//! was loaded of the ring, its message is validated at the place and size so loaded, and these loads are the steps of the reader's seat.
#![tactic(auto)]

pub mod laws;
mod rings;
mod take;
mod validate;

pub use rings::{RingAt, run_ring, take_once};
pub use take::{Take, TakeRoom};
pub use validate::{Validator, keep};
